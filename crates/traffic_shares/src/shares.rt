//! The shares of backends, or of nodes.
ghost use Rattle.std.specs.Prelude.{◌≡◌, ◌+◌, [], List, map, IfOk, OnOk};
ghost use Rattle.five_tuple.specs.declared.Flow.{Flow};
ghost use Rattle.traffic_shares.specs.declared.holders.ShareKey.{ShareKey};
ghost use Rattle.traffic_shares.specs.Holders.{placed};
ghost use Rattle.traffic_shares.specs.Shares.{Portion, nothing, one_more, put_into, keys_with, taken, row_with};
ghost use Rattle.traffic_shares.specs.Books.{IsPortion, AreShares, Renewed};

use crate::flows::FlowSet;
use crate::holders::{Holder, ShareKey, place_among};
use connection_table::TableKey;
use five_tuple::Flow;
use std::alloc::{AllocError, Global};
use std::collections::HashMap;

/// What a backend or a node took under a version: so many packets with so many bytes, which are their datagrams' lengths, of
/// so many flows.
#[derive(Clone, Copy, Debug, PartialEq, Eq)]
pub struct ShareRow {
    pub version: u32,
    pub holder: Holder,
    pub packets: u64,
    pub bytes: u64,
    pub flows: u64,
}

#[derive(Drop)]
struct Share {
    packets: u64,
    bytes: u64,
    flows: FlowSet,
}

// A sum. Where it has no room it is refused, as memory is.
fn sum(count: u64, more: u64) -> Result<u64, AllocError>
    ensures { IfOk result (λ n. n ≡ count + more) }
{
    match count.checked_add(more) {
        Some(sum) => Ok(sum),
        None => Err(AllocError),
    }
}

impl Share {
    // That of nothing.
    fn new(alloc: Global, key: TableKey) -> Share
        ensures { IsPortion nothing result }
    {
        Share {
            packets: 0,
            bytes: 0,
            flows: FlowSet::new(alloc, key),
        }
    }

    // One packet more.
    fn take(&mut self, flow: &Flow, len: u16) -> Result<(), AllocError>
        ensures { (p : Portion) → IsPortion p self.old → OnOk result (IsPortion (one_more flow.now len p) self.new) }
    {
        self.packets = sum(self.packets, 1)?;
        self.bytes = sum(self.bytes, u64::from(len))?;
        self.flows.put(flow)
    }
}

/// The shares, and whose they are, in order.
#[derive(Drop)]
pub(crate) struct Shares {
    alloc: Global,
    key: TableKey,
    holders: Vec<ShareKey>,
    shares: HashMap<ShareKey, Share>,
}

impl Shares {
    /// None. Flows are hashed by the key.
    pub(crate) fn new(alloc: Global, key: TableKey) -> Shares
        ensures { AreShares [] (λ k. nothing) result }
    {
        Shares {
            alloc,
            key,
            holders: Vec::new(alloc),
            shares: HashMap::new(alloc),
        }
    }

    // A packet more for a share that is there. Whether it is.
    fn renew(&mut self, holder: &ShareKey, flow: &Flow, len: u16) -> Result<bool, AllocError>
        ensures { (keys : List ShareKey) (portion : ShareKey → Portion) → AreShares keys portion self.old →
            IfOk result (λ there. Renewed there keys portion holder.now flow.now len self.new) }
    {
        let Some(share) = self.shares.get_mut(holder) else {
            return Ok(false);
        };
        share.take(flow, len)?;
        Ok(true)
    }

    // A share with its first packet.
    fn begin(&mut self, holder: &ShareKey, flow: &Flow, len: u16) -> Result<(), AllocError>
        ensures { (keys : List ShareKey) (portion : ShareKey → Portion) → AreShares keys portion self.old → portion holder.now ≡ nothing →
            OnOk result (AreShares (placed holder.now keys) (put_into portion holder.now flow.now len) self.new) }
    {
        let mut share = Share::new(self.alloc, self.key);
        share.take(flow, len)?;
        let place = place_among(self.holders.as_slice(), holder);
        let Ok(()) = self.holders.insert(place, *holder) else {
            return Err(AllocError);
        };
        let Ok(_) = self.shares.insert(*holder, share) else {
            return Err(AllocError);
        };
        Ok(())
    }

    /// A packet more for a share. Where memory is refused nothing more is known of these.
    pub(crate) fn put(&mut self, holder: &ShareKey, flow: &Flow, len: u16) -> Result<(), AllocError>
        ensures { (keys : List ShareKey) (portion : ShareKey → Portion) → AreShares keys portion self.old →
            OnOk result (AreShares (keys_with (portion holder.now) holder.now keys) (put_into portion holder.now flow.now len) self.new) }
    {
        if self.renew(holder, flow, len)? {
            return Ok(());
        }
        self.begin(holder, flow, len)
    }

    // What a holder took under a version: packets, bytes and flows.
    fn taken(&self, key: &ShareKey) -> (u64, u64, u64)
        ensures { (keys : List ShareKey) (portion : ShareKey → Portion) → AreShares keys portion self.now → result ≡ taken (portion key.now) }
    {
        match self.shares.get(key) {
            Some(share) => (share.packets, share.bytes, share.flows.len() as u64),
            None => (0, 0, 0),
        }
    }

    // The row of a holder under a version.
    fn row(&self, key: &ShareKey) -> ShareRow
        ensures { (keys : List ShareKey) (portion : ShareKey → Portion) → AreShares keys portion self.now → result ≡ row_with portion key.now }
    {
        let ShareKey { version, holder } = *key;
        let (packets, bytes, flows) = self.taken(key);
        ShareRow {
            version,
            holder,
            packets,
            bytes,
            flows,
        }
    }

    /// The rows, in order.
    pub(crate) fn rows(&self, alloc: Global) -> Result<Vec<ShareRow>, AllocError>
        ensures { (keys : List ShareKey) (portion : ShareKey → Portion) → AreShares keys portion self.now →
            IfOk result (λ rows. rows.items ≡ map (λ k. row_with portion k) keys) }
    {
        let mut rows = Vec::new(alloc);
        for holder in self.holders.as_slice() {
            let Ok(()) = rows.push(self.row(holder)) else {
                return Err(AllocError);
            };
        }
        Ok(rows)
    }
}
