//! The ledgers of the drops, one for each cause.
ghost use Rattle.std.specs.Prelude.{◌≡◌, ◌+◌, ◌<◌, [], ◌∷◌, ℕ, List, replicate, slice_index, suc};
ghost use Rattle.stats_book.specs.Names.{Unnamed};
ghost use Rattle.stats_book.specs.Counts.{Dropped, one_more, sums};

use crate::ledgers::{Names, Of};
use cluster_node::Cause;
use std::marker::Model;
use std::sync::ledger::{Blank, Book, Ledger, Share};

// The books of the drops, seen as their totals in the order of the causes.
#[derive(Drop)]
pub(crate) struct DropBooks<B: Names> {
    not_ipv4: Book<Of<B, 2>>,
    truncated: Book<Of<B, 3>>,
    bad_header: Book<Of<B, 4>>,
    bad_checksum: Book<Of<B, 5>>,
    fragment: Book<Of<B, 6>>,
    not_tcp_udp: Book<Of<B, 7>>,
    bad_transport: Book<Of<B, 8>>,
    too_large: Book<Of<B, 9>>,
    no_service: Book<Of<B, 10>>,
    no_backend: Book<Of<B, 11>>,
    no_version: Book<Of<B, 12>>,
    rings_full: Book<Of<B, 13>>,
    lost_at_restart: Book<Of<B, 14>>,
}

impl<B: Names> Model for DropBooks<B> {
    ghost use Rattle.std.specs.Prelude.{[], ◌∷◌, ℕ, List};

    ghost Value = { List ℕ };

    ghost view = { λ d. d.not_ipv4.total ∷ d.truncated.total ∷ d.bad_header.total ∷ d.bad_checksum.total ∷ d.fragment.total ∷ d.not_tcp_udp.total
        ∷ d.bad_transport.total ∷ d.too_large.total ∷ d.no_service.total ∷ d.no_backend.total ∷ d.no_version.total ∷ d.rings_full.total
        ∷ d.lost_at_restart.total ∷ [] };
}

// Shares of the drops' ledgers, of each as many parts.
#[derive(Drop)]
pub(crate) struct DropShares<B: Names> {
    not_ipv4: Share<Of<B, 2>>,
    truncated: Share<Of<B, 3>>,
    bad_header: Share<Of<B, 4>>,
    bad_checksum: Share<Of<B, 5>>,
    fragment: Share<Of<B, 6>>,
    not_tcp_udp: Share<Of<B, 7>>,
    bad_transport: Share<Of<B, 8>>,
    too_large: Share<Of<B, 9>>,
    no_service: Share<Of<B, 10>>,
    no_backend: Share<Of<B, 11>>,
    no_version: Share<Of<B, 12>>,
    rings_full: Share<Of<B, 13>>,
    lost_at_restart: Share<Of<B, 14>>,
}

impl<B: Names> Model for DropShares<B> {
    ghost use Rattle.std.specs.Prelude.{◌≡◌, [], ◌∷◌};
    ghost use Rattle.stats_book.specs.Counts.{Dropped};

    ghost Value = { Dropped };

    ghost view = { λ d. record {
      parts = d.not_ipv4.parts;
      amounts = d.not_ipv4.amount ∷ d.truncated.amount ∷ d.bad_header.amount ∷ d.bad_checksum.amount
          ∷ d.fragment.amount ∷ d.not_tcp_udp.amount ∷ d.bad_transport.amount ∷ d.too_large.amount ∷ d.no_service.amount ∷ d.no_backend.amount
          ∷ d.no_version.amount ∷ d.rings_full.amount ∷ d.lost_at_restart.amount ∷ [];
    } };

    ghost invariant = { λ d. (d.truncated.parts ≡ d.not_ipv4.parts) × (d.bad_header.parts ≡ d.not_ipv4.parts) × (d.bad_checksum.parts ≡ d.not_ipv4.parts)
        × (d.fragment.parts ≡ d.not_ipv4.parts) × (d.not_tcp_udp.parts ≡ d.not_ipv4.parts) × (d.bad_transport.parts ≡ d.not_ipv4.parts)
        × (d.too_large.parts ≡ d.not_ipv4.parts) × (d.no_service.parts ≡ d.not_ipv4.parts) × (d.no_backend.parts ≡ d.not_ipv4.parts)
        × (d.no_version.parts ≡ d.not_ipv4.parts) × (d.rings_full.parts ≡ d.not_ipv4.parts) × (d.lost_at_restart.parts ≡ d.not_ipv4.parts) };
}

// Some parts of a ledger, on which nothing is counted.
pub(crate) fn some_parts<L: Ledger>(share: &mut Share<L>, parts: u64) -> Share<L>
    requires { parts < share.old.parts }
    ensures part { (result.parts ≡ parts) × (result.amount ≡ 0) }
    ensures parts { share.new.parts + parts ≡ share.old.parts }
    ensures amount { share.new.amount ≡ share.old.amount }
{
    share.split_off(parts, 0)
}

impl<B: Names> DropBooks<B> {
    // One more drop of a cause, on these shares.
    pub(crate) fn count(&mut self, shares: &mut DropShares<B>, cause: Cause)
        requires { 0 < shares.old.parts }
        ensures book { self.new ≡ one_more self.old cause }
        ensures shares { shares.new ≡ record { parts = shares.old.parts; amounts = one_more shares.old.amounts cause } }
    {
        match cause {
            Cause::NotIpv4 => self.not_ipv4.add(&mut shares.not_ipv4, 1),
            Cause::Truncated => self.truncated.add(&mut shares.truncated, 1),
            Cause::BadHeader => self.bad_header.add(&mut shares.bad_header, 1),
            Cause::BadChecksum => self.bad_checksum.add(&mut shares.bad_checksum, 1),
            Cause::Fragment => self.fragment.add(&mut shares.fragment, 1),
            Cause::NotTcpUdp => self.not_tcp_udp.add(&mut shares.not_tcp_udp, 1),
            Cause::BadTransport => self.bad_transport.add(&mut shares.bad_transport, 1),
            Cause::TooLarge => self.too_large.add(&mut shares.too_large, 1),
            Cause::NoService => self.no_service.add(&mut shares.no_service, 1),
            Cause::NoBackend => self.no_backend.add(&mut shares.no_backend, 1),
            Cause::NoVersion => self.no_version.add(&mut shares.no_version, 1),
            Cause::RingsFull => self.rings_full.add(&mut shares.rings_full, 1),
            Cause::LostAtRestart => self.lost_at_restart.add(&mut shares.lost_at_restart, 1),
        }
    }

    // With all parts the totals are the amounts.
    pub(crate) fn audit(&mut self, all: &mut DropShares<B>)
        requires { all.old.parts ≡ B.parts }
        ensures same { (self.new ≡ self.old) × (all.new ≡ all.old) }
        ensures whole { self.old ≡ all.old.amounts }
    {
        self.not_ipv4.audit(&mut all.not_ipv4);
        self.truncated.audit(&mut all.truncated);
        self.bad_header.audit(&mut all.bad_header);
        self.bad_checksum.audit(&mut all.bad_checksum);
        self.fragment.audit(&mut all.fragment);
        self.not_tcp_udp.audit(&mut all.not_tcp_udp);
        self.bad_transport.audit(&mut all.bad_transport);
        self.too_large.audit(&mut all.too_large);
        self.no_service.audit(&mut all.no_service);
        self.no_backend.audit(&mut all.no_backend);
        self.no_version.audit(&mut all.no_version);
        self.rings_full.audit(&mut all.rings_full);
        self.lost_at_restart.audit(&mut all.lost_at_restart);
    }
}

impl<B: Names> DropShares<B> {
    // Some parts of each ledger, on which nothing is counted.
    pub(crate) fn split_off(&mut self, parts: u64) -> DropShares<B>
        requires { parts < self.old.parts }
        ensures part { result ≡ record { parts = parts; amounts = replicate 13 0 } }
        ensures parts { self.new.parts + parts ≡ self.old.parts }
        ensures amounts { self.new.amounts ≡ self.old.amounts }
    {
        DropShares {
            not_ipv4: some_parts(&mut self.not_ipv4, parts),
            truncated: some_parts(&mut self.truncated, parts),
            bad_header: some_parts(&mut self.bad_header, parts),
            bad_checksum: some_parts(&mut self.bad_checksum, parts),
            fragment: some_parts(&mut self.fragment, parts),
            not_tcp_udp: some_parts(&mut self.not_tcp_udp, parts),
            bad_transport: some_parts(&mut self.bad_transport, parts),
            too_large: some_parts(&mut self.too_large, parts),
            no_service: some_parts(&mut self.no_service, parts),
            no_backend: some_parts(&mut self.no_backend, parts),
            no_version: some_parts(&mut self.no_version, parts),
            rings_full: some_parts(&mut self.rings_full, parts),
            lost_at_restart: some_parts(&mut self.lost_at_restart, parts),
        }
    }

    // The parts of both, and what was counted on both.
    pub(crate) fn merge(&mut self, other: DropShares<B>)
        ensures { self.new ≡ record { parts = self.old.parts + other.parts; amounts = sums self.old.amounts other.amounts } }
    {
        let DropShares {
            not_ipv4,
            truncated,
            bad_header,
            bad_checksum,
            fragment,
            not_tcp_udp,
            bad_transport,
            too_large,
            no_service,
            no_backend,
            no_version,
            rings_full,
            lost_at_restart,
        } = other;
        self.not_ipv4.merge(not_ipv4);
        self.truncated.merge(truncated);
        self.bad_header.merge(bad_header);
        self.bad_checksum.merge(bad_checksum);
        self.fragment.merge(fragment);
        self.not_tcp_udp.merge(not_tcp_udp);
        self.bad_transport.merge(bad_transport);
        self.too_large.merge(too_large);
        self.no_service.merge(no_service);
        self.no_backend.merge(no_backend);
        self.no_version.merge(no_version);
        self.rings_full.merge(rings_full);
        self.lost_at_restart.merge(lost_at_restart);
    }
}

// Ledgers for the drops, which no type vouches for yet.
#[derive(Drop)]
pub(crate) struct DropBlanks {
    not_ipv4: Blank,
    truncated: Blank,
    bad_header: Blank,
    bad_checksum: Blank,
    fragment: Blank,
    not_tcp_udp: Blank,
    bad_transport: Blank,
    too_large: Blank,
    no_service: Blank,
    no_backend: Blank,
    no_version: Blank,
    rings_full: Blank,
    lost_at_restart: Blank,
}

impl Model for DropBlanks {
    ghost use Rattle.std.specs.Prelude.{◌≡◌, [], ◌∷◌};
    ghost use Rattle.stats_book.specs.Names.{Unnamed};

    ghost Value = { Unnamed };

    ghost view = { λ d. record {
      names = (d.not_ipv4.name ∷ d.truncated.name ∷ d.bad_header.name ∷ d.bad_checksum.name ∷ d.fragment.name ∷ d.not_tcp_udp.name
          ∷ d.bad_transport.name ∷ d.too_large.name ∷ d.no_service.name ∷ d.no_backend.name ∷ d.no_version.name ∷ d.rings_full.name ∷ d.lost_at_restart.name
          ∷ []);
      parts = d.not_ipv4.parts;
    } };

    ghost invariant = { λ d. (d.truncated.parts ≡ d.not_ipv4.parts) × (d.bad_header.parts ≡ d.not_ipv4.parts) × (d.bad_checksum.parts ≡ d.not_ipv4.parts)
        × (d.fragment.parts ≡ d.not_ipv4.parts) × (d.not_tcp_udp.parts ≡ d.not_ipv4.parts) × (d.bad_transport.parts ≡ d.not_ipv4.parts)
        × (d.too_large.parts ≡ d.not_ipv4.parts) × (d.no_service.parts ≡ d.not_ipv4.parts) × (d.no_backend.parts ≡ d.not_ipv4.parts)
        × (d.no_version.parts ≡ d.not_ipv4.parts) × (d.rings_full.parts ≡ d.not_ipv4.parts) × (d.lost_at_restart.parts ≡ d.not_ipv4.parts) };
}

impl DropBlanks {
    pub(crate) fn new(parts: u64) -> DropBlanks
        ensures { result.parts ≡ parts }
    {
        DropBlanks {
            not_ipv4: Blank::new(parts),
            truncated: Blank::new(parts),
            bad_header: Blank::new(parts),
            bad_checksum: Blank::new(parts),
            fragment: Blank::new(parts),
            not_tcp_udp: Blank::new(parts),
            bad_transport: Blank::new(parts),
            too_large: Blank::new(parts),
            no_service: Blank::new(parts),
            no_backend: Blank::new(parts),
            no_version: Blank::new(parts),
            rings_full: Blank::new(parts),
            lost_at_restart: Blank::new(parts),
        }
    }

    // The books of the drops, and all of their shares.
    pub(crate) fn open<B: Names>(self) -> (DropBooks<B>, DropShares<B>)
        requires names { (n : ℕ) → slice_index self.names n ≡ B.names (suc (suc n)) }
        requires parts { self.parts ≡ B.parts }
        ensures book { result.0 ≡ replicate 13 0 }
        ensures shares { result.1 ≡ record { parts = B.parts; amounts = replicate 13 0 } }
    {
        let DropBlanks {
            not_ipv4,
            truncated,
            bad_header,
            bad_checksum,
            fragment,
            not_tcp_udp,
            bad_transport,
            too_large,
            no_service,
            no_backend,
            no_version,
            rings_full,
            lost_at_restart,
        } = self;
        let (not_ipv4, not_ipv4_shares) = not_ipv4.open();
        let (truncated, truncated_shares) = truncated.open();
        let (bad_header, bad_header_shares) = bad_header.open();
        let (bad_checksum, bad_checksum_shares) = bad_checksum.open();
        let (fragment, fragment_shares) = fragment.open();
        let (not_tcp_udp, not_tcp_udp_shares) = not_tcp_udp.open();
        let (bad_transport, bad_transport_shares) = bad_transport.open();
        let (too_large, too_large_shares) = too_large.open();
        let (no_service, no_service_shares) = no_service.open();
        let (no_backend, no_backend_shares) = no_backend.open();
        let (no_version, no_version_shares) = no_version.open();
        let (rings_full, rings_full_shares) = rings_full.open();
        let (lost_at_restart, lost_at_restart_shares) = lost_at_restart.open();
        (
            DropBooks {
                not_ipv4,
                truncated,
                bad_header,
                bad_checksum,
                fragment,
                not_tcp_udp,
                bad_transport,
                too_large,
                no_service,
                no_backend,
                no_version,
                rings_full,
                lost_at_restart,
            },
            DropShares {
                not_ipv4: not_ipv4_shares,
                truncated: truncated_shares,
                bad_header: bad_header_shares,
                bad_checksum: bad_checksum_shares,
                fragment: fragment_shares,
                not_tcp_udp: not_tcp_udp_shares,
                bad_transport: bad_transport_shares,
                too_large: too_large_shares,
                no_service: no_service_shares,
                no_backend: no_backend_shares,
                no_version: no_version_shares,
                rings_full: rings_full_shares,
                lost_at_restart: lost_at_restart_shares,
            },
        )
    }
}
