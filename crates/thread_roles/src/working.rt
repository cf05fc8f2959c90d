//! What a worker's thread does.
ghost use Rattle.std.specs.Prelude.{◌≡◌, ◌<◌, ◌++◌, ◌∷◌, [], ℕ, IfOk, IfErr, OnOk, MatchResult};
ghost use Rattle.thread_roles.specs.Counts.{IsWork};
ghost use Rattle.thread_roles.specs.Faults.{IsRefusal};

use crate::fault::RunFault;
use crate::gate::Gate;
use crate::plan::NodePlan;
use crate::post::Post;
use crate::promise::WorkerRun;
use crate::ring::{Idle, Message, Output, Serving, push_waiting};
use crate::tally::{Part, ThreadShares};
use cluster_node::Item;
use connection_table::ConnTable;
use forwarder::{Choice, Served};
use hash_laws::FlowHash;
use rtrb::{Consumer, Producer};
use selection::Scheme;
use stats_book::Names;
use std::alloc::{AllocError, Global};
use std::fmt;
use std::sync::Wait;
use thread_records::{Step, WorkerRecord};

/// What a worker's thread owns.
#[derive(Drop)]
pub struct Outfit<'a, S: Scheme, B: Names> {
    /// Its seat at the board, and where it reads versions.
    pub post: Post<'a, S>,
    /// Its end of the driver's ring.
    pub ring: Consumer<Message>,
    /// Its end of the mux's ring.
    pub out: Producer<Output>,
    /// Its part of the counts.
    pub part: Part<B>,
    /// Its number among the node's workers.
    pub number: u16,
}

impl<S: Scheme, B: Names> fmt::Debug for Outfit<'_, S, B> {
    fn fmt<W: fmt::Write>(&self, f: &mut fmt::Formatter<W>) -> fmt::Result {
        f.debug_struct("Outfit")
            .field("number", &self.number)
            .finish_non_exhaustive()
    }
}

// A worker's ends of what it shares with other threads.
#[derive(Drop)]
struct Ends<'a, S: Scheme> {
    post: Post<'a, S>,
    ring: Consumer<Message>,
    out: Producer<Output>,
    number: u16,
}

// Looks and steps until the packet was served.
fn serve_one<S: Scheme, T: ConnTable, R: Wait>(
    rt: &R,
    post: &mut Post<'_, S>,
    worker: &mut WorkerRecord<S, T>,
    item: &Item,
) -> Result<Served, RunFault>
    ensures served { IfOk result (λ s. (version : ℕ)
        × (worker.new.handled ≡ worker.old.handled ++ record { item = item.now; version = version; choice = s.choice; unstored = s.unstored } ∷ [])) }
    ensures fault { IfErr result (λ fault. IsRefusal fault) }
{
    let mut idle = Idle::new();
    for _ in rt.forever() {
        match post.handle(worker, item)? {
            Step::Done(served) => return Ok(served),
            Step::Behind => idle.wait(rt),
        }
    }
    unreachable!()
}

// Sends a packet on, if it goes anywhere: by the number of its serving in the life. One that is too large for that is found when the
// run ends.
fn send_on<R: Wait>(rt: &R, out: &mut Producer<Output>, worker: u16, nth: u64, served: &Served) {
    if let Choice::Forward { .. } = served.choice {
        let number = u32::try_from(nth).unwrap_or(u32::MAX);
        push_waiting(rt, out, Output::Send(Serving { worker, number }));
    }
}

// The run of a worker that has handled and counted nothing. Each worker begins with it.
fn idle_run<S: Scheme, H: FlowHash, T: ConnTable, G, B: Names>(
    alloc: Global,
    plan: NodePlan<'_, S, H, G, B>,
    part: Part<B>,
) -> Result<WorkerRun<S, T, B>, AllocError>
    ensures { IfOk result (λ w. IsWork w.record w.tally.lost w.tally.shares) }
{
    let record = WorkerRecord::make(alloc, plan.assignment.setup)?;
    let tally = ThreadShares::of_part(part);
    Ok(WorkerRun { record, tally })
}

// Serves one packet between the calls of the gate, sends it on, and counts it. Nothing is counted where memory was refused.
fn serve_gated<S: Scheme, H: FlowHash, T: ConnTable, G: Gate, B: Names, R: Wait>(
    rt: &R,
    plan: NodePlan<'_, S, H, G, B>,
    ends: &mut Ends<'_, S>,
    run: &mut WorkerRun<S, T, B>,
    item: &Item,
    nth: u64,
) -> Result<(), RunFault>
    requires { 0 < run.old.tally.shares.parts }
    ensures work { IsWork run.old.record run.old.tally.lost run.old.tally.shares → OnOk result (IsWork run.new.record run.new.tally.lost run.new.tally.shares) }
    ensures fault { IfErr result (λ fault. IsRefusal fault) }
{
    plan.gate.before(plan.assignment.node, ends.number, nth);
    let WorkerRun { record, tally } = run;
    match serve_one(rt, &mut ends.post, record, item) {
        Ok(served) => {
            send_on(rt, &mut ends.out, ends.number, nth, &served);
            let stats = tally.serve_one(rt, plan.book, served.choice);
            plan.gate.counted(plan.assignment.node, ends.number, stats);
            plan.gate.after(plan.assignment.node, ends.number, nth);
            Ok(())
        }
        Err(fault) => {
            plan.gate.after(plan.assignment.node, ends.number, nth);
            Err(fault)
        }
    }
}

// The next packet. None where the life ends: with the closing mark, or since the workers were told to halt. That is asked
// before each turn at the ring.
fn next<S: Scheme, R: Wait>(rt: &R, ends: &mut Ends<'_, S>) -> Option<Item> {
    let mut idle = Idle::new();
    for _ in rt.forever() {
        if ends.post.heeds() {
            return None;
        }
        match ends.ring.pop() {
            Ok(Message::Serve(item)) => return Some(item),
            Ok(Message::Close) => return None,
            Err(_) => idle.wait(rt),
        }
    }
    unreachable!()
}

// Serves what comes, up to the life's end or until memory is refused.
fn serve_all<S: Scheme, H: FlowHash, T: ConnTable, G: Gate, B: Names, R: Wait>(
    rt: &R,
    alloc: Global,
    plan: NodePlan<'_, S, H, G, B>,
    ends: &mut Ends<'_, S>,
    part: Part<B>,
) -> Result<WorkerRun<S, T, B>, RunFault>
    ensures { MatchResult result (λ w. IsWork w.record w.tally.lost w.tally.shares) (λ fault. IsRefusal fault) }
{
    let mut run: WorkerRun<S, T, B> = idle_run(alloc, plan, part)?;
    let mut nth = 0u64;
    for _ in rt.forever() {
        let Some(item) = next(rt, ends) else {
            return Ok(run);
        };
        serve_gated(rt, plan, ends, &mut run, &item, nth)?;
        nth = nth.wrapping_add(1);
    }
    unreachable!()
}

// Takes what comes, up to the life's end.
fn drain<S: Scheme, R: Wait>(rt: &R, ends: &mut Ends<'_, S>) {
    for _ in rt.forever() {
        if next(rt, ends).is_none() {
            return;
        }
    }
    unreachable!()
}

/// Serves what comes through the ring, up to its closing mark or until the workers are told to halt, and sends a closing
/// mark. A worker that was refused memory (Memory), or that can't read the version that is shown (ThreadLost), takes the rest
/// without serving it.
pub fn work<S: Scheme, H: FlowHash, T: ConnTable, G: Gate, B: Names, R: Wait>(
    rt: &R,
    alloc: Global,
    plan: NodePlan<'_, S, H, G, B>,
    outfit: Outfit<'_, S, B>,
) -> Result<WorkerRun<S, T, B>, RunFault>
    ensures { MatchResult result (λ w. IsWork w.record w.tally.lost w.tally.shares) (λ fault. IsRefusal fault) }
{
    let Outfit {
        post,
        ring,
        out,
        part,
        number,
    } = outfit;
    let mut ends = Ends {
        post,
        ring,
        out,
        number,
    };
    let run = serve_all(rt, alloc, plan, &mut ends, part);
    if run.is_err() {
        drain(rt, &mut ends);
    }
    push_waiting(rt, &mut ends.out, Output::Close);
    run
}
