//! One node: its versions, its steerer and its workers.
ghost use Rattle.std.specs.Prelude.{◌≡◌, ◌≤◌, ◌<◌, ◌%◌, ◌^◌, ◌==◌, [], false, List, length, map, Option, Some, None, IfOk, OnOk, OnErr};
ghost use Rattle.std.specs.Prelude.{slice_get, replicate, nat_eq, vec_len};
ghost use Rattle.std.specs.List.{list_any};
ghost use Rattle.cluster_node.specs.Rules.{Rules};
ghost use Rattle.cluster_node.specs.NodeView.{NodeView};
ghost use Rattle.cluster_node.specs.PrivateSteps.{install_step, arrive_on, arrive_step, one_if, put_at, serve_step, restarted, with_item, pass_on, pass_step};
ghost use Rattle.cluster_node.specs.Record.{of_taken, of_choice, ArePrepared, IsKnown, installed_of, waits, waiting_at, fresh, cleared};
ghost use Rattle.cluster_node.specs.Record.{NodeStands, NodeGoes};
ghost use Rattle.cluster_node.specs.Records.{NodePasses};
ghost use Rattle.cluster_node.specs.declared.events.Event.TheVariants.{Arrive, Serve};
ghost use Rattle.cluster_node.specs.declared.events.LogEntry.{LogEntry};
ghost use Rattle.cluster_node.specs.declared.outcomes.Passed.TheVariants.{Through};

use crate::events::Event;
use crate::outcomes::{Cause, Outcome, Passed, Reason};
use crate::packets::Packet;
use crate::serving::{Item, Taken, Worker};
use connection_table::{ConnTable, TableKey};
use five_tuple::Flow;
use forwarder::Choice;
use hash_laws::FlowHash;
use selection::{PreparedVersions, Scheme};
use std::alloc::{AllocError, Global};
use std::collections::HashSet;
use std::fmt;
use std::marker::Model;
use steering::{Placed, Steerer};

/// A node of a cluster.
#[derive(Drop)]
pub struct Node<S: Scheme, T: ConnTable> {
    newest: u32,
    installed: Vec<u32>,
    // The same versions, found without a walk.
    known: HashSet<u32>,
    steerer: Steerer,
    workers: Vec<Worker<S, T>>,
}

impl<S: Scheme, T: ConnTable> Model for Node<S, T> {
    ghost use Rattle.std.specs.Prelude.{◌≡◌, ◌<◌, length, nat_eq};
    ghost use Rattle.std.specs.HashSet.{contains};
    ghost use Rattle.cluster_node.specs.NodeView.{NodeView};
    ghost use Rattle.cluster_node.specs.Installed.{AreThose};

    ghost Value = { NodeView };

    ghost view = { λ n. record { newest = n.newest; installed = n.installed.items; cursor = n.steerer.cursor; workers = n.workers.items } };

    ghost invariant = { λ n. (length n.workers.items ≡ n.steerer.workers) × AreThose (contains nat_eq n.known) n.installed.items };
}

impl<S: Scheme, T: ConnTable> fmt::Debug for Node<S, T> {
    fn fmt<W: fmt::Write>(&self, f: &mut fmt::Formatter<W>) -> fmt::Result {
        f.debug_struct("Node")
            .field("newest", &self.newest)
            .field("installed", &self.installed)
            .field("workers", &self.workers)
            .finish_non_exhaustive()
    }
}

fn sent(node: u16, worker: u16, item: &Item, choice: Choice) -> Outcome
    ensures { result ≡ of_choice node worker item.now choice }
{
    match choice {
        Choice::Forward { backend, origin } => Outcome::Forward {
            node,
            worker,
            packet: item.packet,
            flow: item.flow,
            backend,
            origin,
        },
        Choice::NoService => Outcome::Dropped {
            packet: item.packet,
            cause: Cause::NoService,
        },
        Choice::NoBackend => Outcome::Dropped {
            packet: item.packet,
            cause: Cause::NoBackend,
        },
    }
}

fn outcome_of(node: u16, worker: u16, taken: Taken) -> Outcome
    ensures { result ≡ of_taken node worker taken }
{
    match taken {
        Taken::Idle => Outcome::Refused(Reason::Idle),
        Taken::Behind => Outcome::Refused(Reason::VersionRange),
        Taken::Done { item, choice } => sent(node, worker, &item, choice),
    }
}

// A worker's part of a serving.
fn serve_one<S: Scheme, T: ConnTable>(
    one: &mut Worker<S, T>,
    versions: &PreparedVersions<S>,
    installed: bool,
    node: u16,
    worker: u16,
    version: u32,
    refused: bool,
) -> Result<Outcome, AllocError>
    ensures outcome { IfOk result (λ o. o ≡ (one_if (λ s z. S.pick s z) versions.now installed node worker one.old version refused).outcome) }
    ensures after { OnOk result (one.new ≡ (one_if (λ s z. S.pick s z) versions.now installed node worker one.old version refused).after) }
{
    if one.is_idle() {
        return Ok(Outcome::Refused(Reason::Idle));
    }
    if !installed {
        return Ok(Outcome::Refused(Reason::UnknownVersion));
    }
    let Some(prepared) = versions.find(version) else {
        return Ok(Outcome::Refused(Reason::UnknownVersion));
    };
    let taken = one.take(prepared, refused)?;
    Ok(outcome_of(node, worker, taken))
}

// A packet is placed on a worker, which then serves the packet that waits first. Where none waits that is this packet, which
// need not be put into the queue. After a refusal nothing is said of the room.
#[inline(always)]
fn pass_one<S: Scheme, T: ConnTable>(
    one: &mut Worker<S, T>,
    versions: &PreparedVersions<S>,
    installed: bool,
    node: u16,
    worker: u16,
    item: &Item,
    passed: &mut Passed,
) -> Result<(), AllocError>
    ensures passed { OnOk result (passed.new ≡ Through worker item.now.floor (one_if (λ s z. S.pick s z) versions.now installed node worker
        (with_item one.old item.now) item.now.floor false).outcome) }
    ensures after { OnOk result (one.new ≡ (one_if (λ s z. S.pick s z) versions.now installed node worker
        (with_item one.old item.now) item.now.floor false).after) }
{
    let floor = item.floor;
    match versions.find(floor) {
        Some(prepared) if installed && one.is_ready(floor) => {
            let choice = one.pass(prepared, item)?;
            *passed = Passed::Through {
                worker,
                floor,
                outcome: sent(node, worker, item, choice),
            };
            Ok(())
        }
        _ => {
            one.put(*item)?;
            let outcome = serve_one(one, versions, installed, node, worker, floor, false)?;
            *passed = Passed::Through {
                worker,
                floor,
                outcome,
            };
            Ok(())
        }
    }
}

// A packet waits at a worker.
fn put_on<S: Scheme, T: ConnTable>(
    workers: &mut Vec<Worker<S, T>>,
    worker: usize,
    item: Item,
) -> Result<(), AllocError>
    requires { worker < vec_len workers.old }
    ensures ok { OnOk result (workers.new.items ≡ put_at (slice_get workers.old.items worker) workers.old.items worker item) }
    ensures many { length workers.new.items ≡ length workers.old.items }
{
    workers[worker].put(item)
}

// Empties every worker, and counts the packets that waited.
fn clear_all<S: Scheme, T: ConnTable>(workers: &mut Vec<Worker<S, T>>) -> u64
    ensures lost { result ≡ waits workers.old.items % 2 ^ 64 }
    ensures cleared { workers.new.items ≡ map cleared workers.old.items }
{
    let mut lost: u64 = 0;
    for at in 0..workers.len() {
        let one = &mut workers[at];
        lost = lost.wrapping_add(one.restart() as u64);
    }
    lost
}

impl<S: Scheme, T: ConnTable> Node<S, T> {
    /// A node of 1 to 16 workers on which nothing has happened. Each worker has a connection table of so many entries, whose
    /// hash begins with the key. Where a limit is set, an entry stands for so many microseconds after its last touch.
    pub fn make(
        alloc: Global,
        scheme: S,
        capacity: u32,
        key: TableKey,
        workers: u16,
        idle: Option<u64>,
    ) -> Result<Self, AllocError>
        requires capacity { 0 < capacity }
        requires entries { capacity ≤ 1000000 }
        requires workers { 0 < workers }
        requires limit { workers ≤ 16 }
        ensures { IfOk result (λ n. n ≡ record { newest = 0; installed = []; cursor = 0; workers = replicate workers (fresh capacity idle) }) }
    {
        let mut all = Vec::new(alloc);
        for _ in 0..workers {
            all.push(Worker::make(alloc, scheme, capacity, key, idle)?)?;
        }
        Ok(Node {
            newest: 0,
            installed: Vec::new(alloc),
            known: HashSet::new(alloc),
            steerer: Steerer::new(workers),
            workers: all,
        })
    }

    /// The version installed last, 0 where there is none.
    pub fn newest(&self) -> u32
        ensures { result ≡ self.now.newest }
    {
        self.newest
    }

    /// How many packets wait at a worker, 0 where there is no such worker.
    pub fn waiting(&self, worker: u16) -> usize
        ensures { result ≡ waiting_at (slice_get self.now.workers worker) }
    {
        match self.workers.get(worker as usize) {
            Some(one) => one.waiting(),
            None => 0,
        }
    }

    fn install(&mut self, known: bool, version: u32) -> Result<Outcome, AllocError>
        ensures outcome { IfOk result (λ o. o ≡ (install_step known self.old version).outcome) }
        ensures after { OnOk result (self.new ≡ (install_step known self.old version).after) }
        ensures kept { OnErr result ((self.new.newest ≡ self.old.newest) × (self.new.installed ≡ self.old.installed)) }
    {
        if !known {
            return Ok(Outcome::Refused(Reason::UnknownVersion));
        }
        if version <= self.newest {
            return Ok(Outcome::Refused(Reason::NotNewer));
        }
        self.installed.reserve(1)?;
        self.known.insert(version)?;
        self.installed.insert(0, version)?;
        self.newest = version;
        Ok(Outcome::Installed)
    }

    fn arrive<H: FlowHash>(
        &mut self,
        hash: &H,
        packet: u32,
        refused: &[bool; 16],
        body: Option<Packet>,
    ) -> Result<Outcome, AllocError>
        ensures outcome { IfOk result (λ o. o ≡ (arrive_step (H.plain hash.now) self.old packet refused.now body).outcome) }
        ensures after { OnOk result (self.new ≡ (arrive_step (H.plain hash.now) self.old packet refused.now body).after) }
        ensures kept { OnErr result ((self.new.newest ≡ self.old.newest) × (self.new.installed ≡ self.old.installed)) }
    {
        match body {
            None => Ok(Outcome::Refused(Reason::NoPacket)),
            Some(Packet::Bad(cause)) => Ok(Outcome::Dropped { packet, cause }),
            Some(Packet::Good { flow, at, .. }) => self.steer(hash, packet, refused, flow, at),
        }
    }

    fn steer<H: FlowHash>(
        &mut self,
        hash: &H,
        packet: u32,
        refused: &[bool; 16],
        flow: Flow,
        at: u64,
    ) -> Result<Outcome, AllocError>
        ensures outcome { IfOk result (λ o. o ≡ (arrive_on (H.plain hash.now) (length self.old.workers) self.old packet refused.now flow at).outcome) }
        ensures after { OnOk result (self.new ≡ (arrive_on (H.plain hash.now) (length self.old.workers) self.old packet refused.now flow at).after) }
        ensures kept { OnErr result ((self.new.newest ≡ self.old.newest) × (self.new.installed ≡ self.old.installed)) }
    {
        let floor = self.newest;
        if floor == 0 {
            return Ok(Outcome::Dropped {
                packet,
                cause: Cause::NoVersion,
            });
        }
        match self.steerer.place(hash, &flow, refused) {
            Placed::RingsFull => Ok(Outcome::Dropped {
                packet,
                cause: Cause::RingsFull,
            }),
            Placed::Worker(worker) => {
                let item = Item {
                    packet,
                    flow,
                    at,
                    floor,
                };
                let Ok(()) = put_on(&mut self.workers, worker as usize, item) else {
                    return Err(AllocError);
                };
                Ok(Outcome::Placed { worker, floor })
            }
        }
    }

    // Whether a version was installed. The newest is asked for most.
    fn has(&self, version: u32) -> bool
        ensures { result ≡ list_any (λ u. u == version) self.now.installed }
    {
        match self.installed.first() {
            Some(newest) if *newest == version => true,
            _ => self.known.contains(&version),
        }
    }

    fn serve(
        &mut self,
        versions: &PreparedVersions<S>,
        node: u16,
        worker: u16,
        version: u32,
        refused: bool,
    ) -> Result<Outcome, AllocError>
        ensures outcome { IfOk result (λ o. o ≡ (serve_step (λ s z. S.pick s z) versions.now self.old node worker version refused).outcome) }
        ensures after { OnOk result (self.new ≡ (serve_step (λ s z. S.pick s z) versions.now self.old node worker version refused).after) }
        ensures kept { OnErr result ((self.new.newest ≡ self.old.newest) × (self.new.installed ≡ self.old.installed)) }
    {
        let at = worker as usize;
        if at >= self.workers.len() {
            return Ok(Outcome::Refused(Reason::NoWorker));
        }
        let installed = self.has(version);
        let one = &mut self.workers[at];
        serve_one(one, versions, installed, node, worker, version, refused)
    }

    fn restart(&mut self) -> u64
        ensures lost { result ≡ waits self.old.workers % 2 ^ 64 }
        ensures after { self.new ≡ restarted self.old }
    {
        self.steerer.restart();
        clear_all(&mut self.workers)
    }

    /// One event of this node, after all that happened to it before. `known` says whether the catalogue has the version that
    /// an installation names; all versions that were installed are among the prepared ones.
    ///
    /// By the clause `verdict` the outcome is the one that the record of all events before it gives, for every record
    /// shorter than 2^64 that the node represents. The node then represents the record with this event. Where memory was
    /// refused the versions installed are as they were (`kept`). Nothing is said of the queues, and a run ends there.
    pub fn step<H: FlowHash>(
        &mut self,
        hash: &H,
        versions: &PreparedVersions<S>,
        known: bool,
        event: Event,
        packet: Option<Packet>,
    ) -> Result<Outcome, AllocError>
        ensures verdict { (rules : Rules) → (past : List LogEntry) →
            rules.plain ≡ H.plain hash.now → IsKnown rules event known →
            ArePrepared (λ s z. S.pick s z) rules versions.now (installed_of past) →
            length past < 2 ^ 64 →
            NodeStands rules past self.old →
            IfOk result (λ o. NodeGoes rules past event packet o self.new) }
        ensures kept { OnErr result ((self.new.newest ≡ self.old.newest) × (self.new.installed ≡ self.old.installed)) }
    {
        match event {
            Event::Install { version, .. } => self.install(known, version),
            Event::Arrive {
                packet: number,
                refused,
                ..
            } => self.arrive(hash, number, &refused, packet),
            Event::Serve {
                node,
                worker,
                version,
                refused,
            } => self.serve(versions, node, worker, version, refused),
            Event::Restart { .. } => Ok(Outcome::Restarted {
                lost: self.restart(),
            }),
        }
    }

    #[inline(always)]
    fn pass_flow<H: FlowHash>(
        &mut self,
        hash: &H,
        versions: &PreparedVersions<S>,
        node: u16,
        packet: u32,
        refused: &[bool; 16],
        flow: &Flow,
        at: u64,
        passed: &mut Passed,
    ) -> Result<(), AllocError>
        ensures passed { OnOk result (passed.new ≡ (pass_on (λ s z. S.pick s z) versions.now
            (H.plain hash.now) self.old node packet refused.now flow.now at).passed) }
        ensures after { OnOk result (self.new ≡ (pass_on (λ s z. S.pick s z) versions.now
            (H.plain hash.now) self.old node packet refused.now flow.now at).after) }
        ensures kept { OnErr result ((self.new.newest ≡ self.old.newest) × (self.new.installed ≡ self.old.installed)) }
    {
        let floor = self.newest;
        let installed = self.has(floor);
        if self.newest == 0 {
            let cause = Cause::NoVersion;
            *passed = Passed::Unplaced(Outcome::Dropped { packet, cause });
            return Ok(());
        }
        match self.steerer.place(hash, flow, refused) {
            Placed::RingsFull => {
                let cause = Cause::RingsFull;
                *passed = Passed::Unplaced(Outcome::Dropped { packet, cause });
                Ok(())
            }
            Placed::Worker(worker) => {
                let item = Item {
                    packet,
                    flow: *flow,
                    at,
                    floor,
                };
                let one = &mut self.workers[worker as usize];
                pass_one(one, versions, installed, node, worker, &item, passed)
            }
        }
    }

    #[inline(always)]
    fn pass_packet<H: FlowHash>(
        &mut self,
        hash: &H,
        versions: &PreparedVersions<S>,
        node: u16,
        packet: u32,
        refused: &[bool; 16],
        body: &Packet,
        passed: &mut Passed,
    ) -> Result<(), AllocError>
        ensures passed { OnOk result (passed.new ≡ (pass_step (λ s z. S.pick s z) versions.now
            (H.plain hash.now) self.old node packet refused.now body.now).passed) }
        ensures after { OnOk result (self.new ≡ (pass_step (λ s z. S.pick s z) versions.now
            (H.plain hash.now) self.old node packet refused.now body.now).after) }
        ensures kept { OnErr result ((self.new.newest ≡ self.old.newest) × (self.new.installed ≡ self.old.installed)) }
    {
        match body {
            Packet::Bad(cause) => {
                *passed = Passed::Unplaced(Outcome::Dropped {
                    packet,
                    cause: *cause,
                });
                Ok(())
            }
            Packet::Good { flow, at, .. } => self.pass_flow(
                hash, versions, node, packet, refused, flow, *at, passed,
            ),
        }
    }

    /// A packet arrives at this node, whose place is given, and where it is placed its worker serves at once under the
    /// node's newest version. These are two events, of which the queue sees nothing where no other packet waits. All
    /// versions that were installed are among the prepared ones. What became of the packet is written into `passed`, which
    /// is the caller's room: so it is written once and not copied on the way out.
    ///
    /// By the clause `verdict` what is reported is what the record gives of both events, one after the other. This holds for
    /// every record that the node represents, and the node then represents the record with both. So serving at once is
    /// placing and then serving. Where memory was refused the versions installed are as they were (`kept`). Nothing is said
    /// of the queues, nor of `passed`, and a run ends there.
    #[inline(always)]
    pub fn pass<H: FlowHash>(
        &mut self,
        hash: &H,
        versions: &PreparedVersions<S>,
        node: u16,
        packet: u32,
        refused: &[bool; 16],
        body: &Packet,
        passed: &mut Passed,
    ) -> Result<(), AllocError>
        ensures verdict { (rules : Rules) → (past : List LogEntry) →
            rules.plain ≡ H.plain hash.now →
            ArePrepared (λ s z. S.pick s z) rules versions.now (installed_of past) →
            NodeStands rules past self.old →
            OnOk result (NodePasses rules past (Arrive node packet refused.now) body.now (λ w. Serve node w self.old.newest false) passed.new self.new) }
        ensures kept { OnErr result ((self.new.newest ≡ self.old.newest) × (self.new.installed ≡ self.old.installed)) }
    {
        self.pass_packet(hash, versions, node, packet, refused, body, passed)
    }
}
