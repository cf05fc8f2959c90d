//! One forwarder: it sends each packet of a flow where the flow's entry says, and a new flow where the scheme says.
//!
//! This is connection tracking over consistent hashing (Maglev, NSDI 2016, section 3.4). While the entry of a flow stands
//! and its backend is up or drains, the flow's packets go to that backend, whatever the pools' newer versions say.
#![tactic(auto)]

ghost use Rattle.std.specs.Prelude.{◌≡◌, ◌≤◌, ◌<◌, ◌∷◌, [], List, length, Option, Some, None, false, IsTrue, IfOk, IsNone, IsSome, IsFalse};
ghost use Rattle.std.specs.Prelude.{MatchBool};
ghost use Rattle.connection_table.specs.Recency.{moved, stored};
ghost use Rattle.connection_table.specs.Touches.{in_time, last_touch};
ghost use Rattle.selection.specs.Readied.{ready_for};
ghost use Rattle.forwarder.specs.declared.Choice.TheVariants.{Forward};
ghost use Rattle.forwarder.specs.Forwarding.{Forwarding, unused};
ghost use Rattle.forwarder.specs.Serving.{Serving, kept, clock_with, told_after, told_in, stands_in, after_told, forwarding_of, serving_of, told, IsForward};

mod laws;

use connection_table::{ConnTable, Entry, Renewed, TableKey};
use five_tuple::Flow;
pub use laws::only_drains_are_new;
use pool_versions::Backend;
use selection::{PreparedVersion, Ready, Scheme};
use std::alloc::{AllocError, Global};
use std::fmt;
use std::marker::{Model, PhantomData};

/// Where a packet goes.
#[derive(Clone, Copy, Debug, PartialEq, Eq)]
pub enum Choice {
    /// To a backend, which was chosen under the version of this number.
    Forward { backend: Backend, origin: u32 },
    /// Nowhere: the version has no service for the packet's flow.
    NoService,
    /// Nowhere: nobody is up.
    NoBackend,
}

/// What came of a packet.
#[derive(Clone, Copy, Debug, PartialEq, Eq)]
pub struct Served {
    pub choice: Choice,
    /// A new entry was due and none was made.
    pub unstored: bool,
}

/// Serves packets, one after another.
#[derive(Drop)]
pub struct Forwarder<S: Scheme, T: ConnTable> {
    // Of the versions that it serves under. Each of them has its scheme.
    schemes: PhantomData<S>,
    table: T,
    idle: Option<u64>,
    turn: u64,
    clock: u64,
}

impl<S: Scheme, T: ConnTable> Model for Forwarder<S, T> {
    ghost use Rattle.forwarder.specs.declared.Choice.TheVariants.{Forward};
    ghost use Rattle.forwarder.specs.Forwarding.{Forwarding};

    ghost Value = { Forwarding };

    ghost view = { λ f. record { capacity = T.capacity f.table; idle = f.idle; entries = T.entries f.table; turn = f.turn; clock = f.clock } };
}

impl<S: Scheme, T: ConnTable> fmt::Debug for Forwarder<S, T> {
    fn fmt<W: fmt::Write>(&self, f: &mut fmt::Formatter<W>) -> fmt::Result {
        f.debug_struct("Forwarder")
            .field("len", &self.table.len())
            .field("idle", &self.idle)
            .field("turn", &self.turn)
            .field("clock", &self.clock)
            .finish_non_exhaustive()
    }
}

// The entry where its backend is up or drains.
#[inline(always)]
fn if_kept<S: Scheme>(held: Option<Entry>, ready: &Ready<S>) -> Option<Entry>
    ensures { result ≡ kept held ready.now.ups }
{
    match held {
        None => None,
        Some(entry) => {
            if ready.keeps(&entry.backend) {
                Some(entry)
            } else {
                None
            }
        }
    }
}

// A packet goes where its flow's entry says.
#[inline(always)]
fn sent(entry: &Entry) -> Choice
    ensures { result ≡ Forward entry.now.backend entry.now.version }
{
    Choice::Forward {
        backend: entry.backend,
        origin: entry.version,
    }
}

// Whether an entry stands: no more than the limit has passed since its last touch.
#[inline(always)]
fn stands(entry: &Entry, idle: Option<u64>, clock: u64) -> bool
    ensures { MatchBool result (in_time idle clock (Some entry.now) ≡ Some entry.now) (in_time idle clock (Some entry.now) ≡ None) }
{
    match idle {
        None => true,
        Some(limit) => clock.saturating_sub(entry.last) <= limit,
    }
}

// The flow's entry as it was, which is touched. Where it is past the limit it is as none, and keeps its place.
#[inline(always)]
fn stand<T: ConnTable>(table: &mut T, idle: Option<u64>, flow: &Flow, clock: u64) -> Option<Entry>
    ensures stood { result ≡ in_time idle clock (last_touch flow.now (T.entries table.old)) }
    ensures touched { T.entries table.new ≡ moved clock flow.now (in_time idle clock (last_touch flow.now (T.entries table.old))) (T.entries table.old) }
    ensures capacity { T.capacity table.new ≡ T.capacity table.old }
{
    let held = table.peek(flow)?;
    if !stands(&held, idle, clock) {
        return None;
    }
    table.touch(flow, clock)
}

// Stores an entry, and says whether that was due and did not happen.
#[inline(always)]
fn keep<T: ConnTable>(table: &mut T, stood: bool, flow: Flow, entry: Entry, refused: bool) -> bool
    requires { IsTrue stood → IsSome (last_touch flow (T.entries table.old)) }
    ensures kept { MatchBool result (T.entries table.new ≡ T.entries table.old) (T.entries table.new
        ≡ stored (T.capacity table.old) flow entry (T.entries table.old)) }
    ensures due { IsTrue result → IsFalse stood }
    ensures refused { IsTrue refused → IsFalse stood → IsTrue result }
    ensures there { IsTrue result → IsFalse refused → IsNone (last_touch flow (T.entries table.old)) }
    ensures capacity { T.capacity table.new ≡ T.capacity table.old }
{
    if refused && !stood {
        return true;
    }
    match table.store(flow, entry) {
        Ok(()) => false,
        Err(_) => true,
    }
}

// Whether an entry stands, and its backend is up or drains.
#[inline(always)]
fn stays<S: Scheme>(entry: &Entry, idle: Option<u64>, clock: u64, ready: &Ready<S>) -> bool
    ensures { MatchBool result (kept (in_time idle clock (Some entry.now)) ready.now.ups ≡ Some entry.now)
        (kept (in_time idle clock (Some entry.now)) ready.now.ups ≡ None) }
{
    stands(entry, idle, clock) && ready.keeps(&entry.backend)
}

// A flow's new entry, where somebody is up.
#[inline(always)]
fn new_entry<S: Scheme>(ready: &Ready<S>, flow: &Flow, turn: u64, version: u32, clock: u64) -> Entry
    requires { ready.now.ups.backends ≡ [] → ⊥ }
    ensures picked { S.pick ready.now.scheme ready.now.size ready.now.ups flow.now turn ≡ Some result.backend }
    ensures version { result.version ≡ version }
    ensures clock { result.last ≡ clock }
{
    match ready.choose(flow, turn) {
        Some(backend) => Entry {
            backend,
            version,
            last: clock,
        },
        None => unreachable!(),
    }
}

impl<S: Scheme, T: ConnTable> Forwarder<S, T> {
    /// A forwarder that has served nothing, for 1 to 1,000,000 entries. Packets are served by the scheme of the version that
    /// they come under; the one that is given here says of which type that is. Where a limit is set, an entry stands only
    /// while no more microseconds than that have passed since its last touch.
    pub fn make(
        alloc: Global,
        scheme: S,
        capacity: u32,
        idle: Option<u64>,
    ) -> Result<Self, AllocError>
        requires some { 0 < capacity }
        requires limit { capacity ≤ 1000000 }
        ensures { IfOk result (λ f. f ≡ unused capacity idle) }
    {
        Forwarder::keyed(alloc, scheme, capacity, TableKey::fixed(), idle)
    }

    /// The same, with a key for the hash of its table.
    pub fn keyed(
        alloc: Global,
        _scheme: S,
        capacity: u32,
        key: TableKey,
        idle: Option<u64>,
    ) -> Result<Self, AllocError>
        requires some { 0 < capacity }
        requires limit { capacity ≤ 1000000 }
        ensures { IfOk result (λ f. f ≡ unused capacity idle) }
    {
        Ok(Forwarder {
            schemes: PhantomData,
            table: T::keyed(alloc, capacity, key)?,
            idle,
            turn: 0,
            clock: 0,
        })
    }

    /// Begins a new life: forgets all that it served.
    pub fn restart(&mut self)
        ensures { self.new ≡ unused self.old.capacity self.old.idle }
    {
        self.table.clear();
        self.turn = 0;
        self.clock = 0;
    }

    /// How many entries there are.
    pub fn len(&self) -> usize
        ensures { result ≡ length self.now.entries }
    {
        self.table.len()
    }

    /// Serves a packet of a flow, which came at a time in microseconds, under a prepared version. With `refused` no new entry
    /// is made, as where memory for one is refused; the packet is forwarded all the same.
    ///
    /// The clock is the greatest time of the packets that were served since the forwarder was made or restarted, this one
    /// included. A flow with an entry that stands, and whose backend is up or drains, goes there with the entry's origin.
    /// Otherwise the scheme is asked. By the clause `history` the answer is a function of all that this forwarder served before.
    #[inline(always)]
    pub fn serve(
        &mut self,
        version: &PreparedVersion<S>,
        flow: &Flow,
        at: u64,
        refused: bool,
    ) -> Served
        // what is answered, by the entry that is in the table, the turn and the clock
        ensures choice { let s = serving_of version.now flow.now at refused in
            result.choice ≡ (told_in (S.pick version.now.scheme version.now.size) self.old s).choice }
        ensures after { let s = serving_of version.now flow.now at result.unstored in
            self.new ≡ after_told (told_in (S.pick version.now.scheme version.now.size) self.old s) self.old }
        // unstored only where a new entry was due, and always where it was due and refused; a refusal of memory is no reason
        // where the flow has a place in the table
        ensures due { IsTrue result.unstored → IsNone (stands_in self.old flow.now at) × IsForward result.choice }
        ensures refused { IsTrue refused → IsNone (stands_in self.old flow.now at) → IsForward result.choice → IsTrue result.unstored }
        ensures there { IsTrue result.unstored → IsFalse refused → IsNone (last_touch flow.now self.old.entries) }
        // the same, by every list of servings that the forwarder represents; and it represents one more
        ensures history { let pick = S.pick version.now.scheme version.now.size in
            (past : List Serving) → self.old ≡ forwarding_of pick self.old.capacity self.old.idle past →
            (result.choice ≡ (told_after pick self.old.capacity self.old.idle (told pick self.old.capacity self.old.idle past)
            (serving_of version.now flow.now at refused)).choice)
            × (self.new ≡ forwarding_of pick self.old.capacity self.old.idle (serving_of version.now flow.now at result.unstored ∷ past)) }
    {
        let Some(ready) = version.ready(flow) else {
            self.tick(at);
            return Served {
                choice: Choice::NoService,
                unstored: false,
            };
        };
        if refused || !ready.is_anybody_up() {
            return self.serve_in_steps(version, ready, flow, at, refused);
        }
        self.renew(version, ready, flow, at)
    }

    // The clock with a packet of this time.
    #[inline(always)]
    fn tick(&mut self, at: u64) -> u64
        ensures clock { result ≡ clock_with self.old at }
        ensures ticked { self.new ≡ (record self.old { clock = clock_with self.old at }) }
    {
        self.clock = self.clock.max(at);
        self.clock
    }

    // Serves a packet where somebody is up and no entry is refused: by one look-up in the table.
    #[tactic(auto, using(crate::proofs::Tables::touch_stores))]
    #[inline(always)]
    fn renew(
        &mut self,
        version: &PreparedVersion<S>,
        ready: &Ready<S>,
        flow: &Flow,
        at: u64,
    ) -> Served
        requires ready { ready_for flow.now version.now.services ≡ Some ready.now }
        requires own { (ready.now.scheme ≡ version.now.scheme) × (ready.now.size ≡ version.now.size) }
        requires somebody { ready.now.ups.backends ≡ [] → ⊥ }
        ensures choice { let s = serving_of version.now flow.now at false in
            result.choice ≡ (told_in (S.pick version.now.scheme version.now.size) self.old s).choice }
        ensures after { let s = serving_of version.now flow.now at result.unstored in
            self.new ≡ after_told (told_in (S.pick version.now.scheme version.now.size) self.old s) self.old }
        ensures due { IsTrue result.unstored → IsNone (stands_in self.old flow.now at) × IsForward result.choice }
        ensures there { IsTrue result.unstored → IsNone (last_touch flow.now self.old.entries) }
    {
        let clock = self.tick(at);
        let idle = self.idle;
        let turn = self.turn;
        let number = version.number();
        let keeps = |entry: &Entry| stays(entry, idle, clock, ready);
        let makes = || new_entry(ready, flow, turn, number, clock);
        match self.table.renew(*flow, clock, keeps, makes) {
            Renewed::Kept(entry) => Served {
                choice: sent(&entry),
                unstored: false,
            },
            Renewed::Made { entry, stored } => {
                self.turn = turn.wrapping_add(1);
                Served {
                    choice: sent(&entry),
                    unstored: !stored,
                }
            }
        }
    }

    // Serves a packet in any case: looks its entry up, asks the scheme, and stores.
    #[tactic(auto, using(crate::proofs::Tables::store_over, crate::proofs::Tables::touch_stores, crate::proofs::Tables::touched_is))]
    fn serve_in_steps(
        &mut self,
        version: &PreparedVersion<S>,
        ready: &Ready<S>,
        flow: &Flow,
        at: u64,
        refused: bool,
    ) -> Served
        requires ready { ready_for flow.now version.now.services ≡ Some ready.now }
        requires own { (ready.now.scheme ≡ version.now.scheme) × (ready.now.size ≡ version.now.size) }
        ensures choice { let s = serving_of version.now flow.now at refused in
            result.choice ≡ (told_in (S.pick version.now.scheme version.now.size) self.old s).choice }
        ensures after { let s = serving_of version.now flow.now at result.unstored in
            self.new ≡ after_told (told_in (S.pick version.now.scheme version.now.size) self.old s) self.old }
        ensures due { IsTrue result.unstored → IsNone (stands_in self.old flow.now at) × IsForward result.choice }
        ensures refused { IsTrue refused → IsNone (stands_in self.old flow.now at) → IsForward result.choice → IsTrue result.unstored }
        ensures there { IsTrue result.unstored → IsFalse refused → IsNone (last_touch flow.now self.old.entries) }
    {
        let clock = self.tick(at);
        let stood = stand(&mut self.table, self.idle, flow, clock);
        if let Some(entry) = if_kept(stood, ready) {
            return Served {
                choice: sent(&entry),
                unstored: false,
            };
        }
        let turn = self.turn;
        self.turn = turn.wrapping_add(1);
        match ready.choose(flow, turn) {
            None => Served {
                choice: Choice::NoBackend,
                unstored: false,
            },
            Some(backend) => {
                let entry = Entry {
                    backend,
                    version: version.number(),
                    last: clock,
                };
                Served {
                    choice: sent(&entry),
                    unstored: keep(&mut self.table, stood.is_some(), *flow, entry, refused),
                }
            }
        }
    }
}
