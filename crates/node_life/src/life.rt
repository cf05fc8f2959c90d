//! One life of a node: its threads are started, fed and joined.
ghost use Rattle.std.specs.Prelude.{◌≡◌, ◌≤◌, ◌+◌, ◌++◌, ◌∷◌, [], ℕ, List, length, None, IfOk, IfErr, IfSome, IsOk, OnOk, MatchResult};
ghost use Rattle.cluster_core.specs.Setups.{rules_for};
ghost use Rattle.cluster_node.specs.declared.outcomes.Outcome.{Outcome};
ghost use Rattle.thread_records.specs.Ends.{all_handled};
ghost use Rattle.thread_roles.specs.Counts.{Counts, IsWork, served_from};
ghost use Rattle.thread_roles.specs.Faults.{IsRefusal};
ghost use Rattle.thread_roles.specs.Going.{IsLived};
ghost use Rattle.node_life.specs.Told.{LifeTells};

use crate::begun::Begun;
use crate::ends::{end_driven, numbered};
use crate::rings::{Laid, roomy};
use connection_table::ConnTable;
use hash_laws::FlowHash;
use rtrb::Consumer;
use selection::Scheme;
use stats_book::Names;
use std::alloc::{AllocError, Global};
use std::sync::Wait;
use std::thread::{JoinHandle, PromisedHandle, Scope, Threads};
use std::{fmt, thread};
use thread_records::WorkerRecord;
use thread_roles::{
    CountsOwn, Desk, Gate, Inputs, NodePlan, Outfit, Output, Progress, RunFault, Serving, Stage,
    ThreadShares, WorkerRun, drive, first_of, gather, stops_at, work,
};

// What a worker's thread answers: what it did, or why it did not do all.
type Answer<S, T, B> = Result<WorkerRun<S, T, B>, RunFault>;

/// What a life leaves.
#[derive(Drop)]
pub struct LifeRun<S: Scheme, B: Names> {
    /// How far the node got.
    pub progress: Progress<S, B>,
    /// What was sent, as the mux gathered it, by the numbers of events.
    pub sent: Vec<u32>,
}

impl<S: Scheme, B: Names> fmt::Debug for LifeRun<S, B> {
    fn fmt<W: fmt::Write>(&self, f: &mut fmt::Formatter<W>) -> fmt::Result {
        f.debug_struct("LifeRun")
            .field("progress", &self.progress)
            .field("sent", &self.sent)
            .finish_non_exhaustive()
    }
}

// A worker of a life on which packets may be placed: its number and its thread. Any other needs no thread, which would cost more
// than all else that a life without packets does.
#[derive(Drop)]
struct Hand<S: Scheme, T: ConnTable, B: Names> {
    number: u16,
    handle: PromisedHandle<Answer<S, T, B>, CountsOwn>,
}

// The workers of a life that have threads, in the order of their numbers, and why not all were had.
#[derive(Drop)]
struct Started<S: Scheme, T: ConnTable, B: Names> {
    hands: Vec<Hand<S, T, B>>,
    fault: Option<RunFault>,
}

// Starts a worker's thread. None where it can't be started.
fn start_one<
    's,
    'e: 's,
    S: Scheme + Send + Sync + 'e,
    H: FlowHash + Send + Sync + 'e,
    T: ConnTable + Send + 'e,
    G: Gate + Sync + 'e,
    B: Names + Send + Sync + 'e,
    R: Threads + Wait + Sync + 'e,
>(
    scope: &Scope<'s, &'e ()>,
    rt: &'e R,
    alloc: Global,
    plan: NodePlan<'e, S, H, G, B>,
    outfit: Outfit<'e, S, B>,
) -> Option<Hand<S, T, B>>
where
    S::Prepared: Send + Sync,
{
    let number = outfit.number;
    match scope.spawn_with(
        CountsOwn,
        move || -> Result<WorkerRun<S, T, B>, RunFault>
            ensures { MatchResult result (λ w. IsWork w.record w.tally.lost w.tally.shares) (λ fault. IsRefusal fault) }
        { work(rt, alloc, plan, outfit) },
    ) {
        Ok(handle) => Some(Hand { number, handle }),
        Err(_) => None,
    }
}

// Starts the workers of a life that have outfits, up to the first that can't be started.
fn start<
    's,
    'e: 's,
    S: Scheme + Send + Sync + 'e,
    H: FlowHash + Send + Sync + 'e,
    T: ConnTable + Send + 'e,
    G: Gate + Sync + 'e,
    B: Names + Send + Sync + 'e,
    R: Threads + Wait + Sync + 'e,
>(
    scope: &Scope<'s, &'e ()>,
    rt: &'e R,
    alloc: Global,
    plan: NodePlan<'e, S, H, G, B>,
    outfits: Vec<Outfit<'e, S, B>>,
) -> Started<S, T, B>
where
    S::Prepared: Send + Sync,
    ensures all { result.fault ≡ None → length result.hands.items ≡ length outfits.entry.items }
    ensures fault { IfSome result.fault (λ fault. IsRefusal fault) }
{
    let mut hands = roomy(alloc, outfits.len());
    for outfit in outfits {
        if hands.reserve(1).is_err() {
            let fault = Some(RunFault::Memory);
            return Started { hands, fault };
        }
        match start_one::<S, H, T, G, B, R>(scope, rt, alloc, plan, outfit) {
            Some(hand) => hands.push_reserved(hand),
            None => {
                let fault = Some(RunFault::ThreadLost);
                return Started { hands, fault };
            }
        }
    }
    Started { hands, fault: None }
}

// Adds what a worker counted to its driver's tally, and keeps its record.
fn keep<S: Scheme, T: ConnTable, B: Names>(
    tally: &mut ThreadShares<B>,
    records: &mut Vec<WorkerRecord<S, T>>,
    run: WorkerRun<S, T, B>,
) -> Result<(), RunFault>
    requires { IsWork run.record run.tally.lost run.tally.shares }
    ensures all { OnOk result ((records.new.items ≡ records.old.items ++ run.record ∷ []) × (tally.new.shares.parts ≡ tally.old.shares.parts + 1)) }
    ensures counts { (os : List Outcome) (n : ℕ) → Counts tally.old.lost tally.old.shares (os ++ served_from n 0 (all_handled records.old.items)) →
        OnOk result (Counts tally.new.lost tally.new.shares (os ++ served_from n 0 (all_handled records.new.items))) }
    ensures fault { IfErr result (λ fault. IsRefusal fault) }
{
    let WorkerRun {
        record,
        tally: counted,
    } = run;
    tally.merge(counted);
    let Ok(()) = records.push(record) else {
        return Err(RunFault::Memory);
    };
    Ok(())
}

// Adds records of workers that have done nothing, up to so many records.
fn fill<S: Scheme, H: FlowHash, T: ConnTable, G, B: Names>(
    alloc: Global,
    plan: NodePlan<'_, S, H, G, B>,
    records: &mut Vec<WorkerRecord<S, T>>,
    upto: u16,
) -> Result<(), RunFault>
    ensures all { OnOk result (upto ≤ length records.new.items) }
    ensures counts { (n : ℕ) → OnOk result (served_from n 0 (all_handled records.new.items) ≡ served_from n 0 (all_handled records.old.items)) }
    ensures fault { IfErr result (λ fault. IsRefusal fault) }
{
    for _ in records.len()..upto as usize {
        let record = WorkerRecord::make(alloc, plan.assignment.setup)?;
        let Ok(()) = records.push(record) else {
            return Err(RunFault::Memory);
        };
    }
    Ok(())
}

// Ends a worker, and keeps what it did and counted: its thread is joined. The workers before it that have no record had no thread, and
// each gets a record of nothing.
fn muster_one<S: Scheme, H: FlowHash, T: ConnTable, G: Gate, B: Names, R: Threads + Wait>(
    rt: &R,
    alloc: Global,
    plan: NodePlan<'_, S, H, G, B>,
    tally: &mut ThreadShares<B>,
    records: &mut Vec<WorkerRecord<S, T>>,
    hand: Hand<S, T, B>,
) -> Result<(), RunFault>
    ensures all { OnOk result (tally.new.shares.parts ≡ tally.old.shares.parts + 1) }
    ensures counts { (os : List Outcome) (n : ℕ) → Counts tally.old.lost tally.old.shares (os ++ served_from n 0 (all_handled records.old.items)) →
        OnOk result (Counts tally.new.lost tally.new.shares (os ++ served_from n 0 (all_handled records.new.items))) }
    ensures fault { IfErr result (λ fault. IsRefusal fault) }
{
    let Hand { number, handle } = hand;
    let filled = fill(alloc, plan, records, number);
    let run = handle.join(rt);
    filled?;
    keep(tally, records, run?)
}

// Why not all workers did all, once one more ended. Memory comes before ThreadLost.
fn first_told(fault: Option<RunFault>, ended: Result<(), RunFault>) -> Option<RunFault>
    ensures none { result ≡ None → (fault ≡ None) × IsOk ended }
    ensures refusal { IfSome fault (λ f. IsRefusal f) → IfErr ended (λ f. IsRefusal f) → IfSome result (λ f. IsRefusal f) }
{
    match ended {
        Ok(()) => fault,
        Err(other) => Some(first_of(fault, other)),
    }
}

// Ends all workers, whatever becomes of them. What they counted is added to their driver's tally. There is a record for each worker of
// the node, in the order of their numbers: of one that had no thread it is that of a worker that has done nothing.
fn muster<S: Scheme, H: FlowHash, T: ConnTable, G: Gate, B: Names, R: Threads + Wait>(
    rt: &R,
    alloc: Global,
    plan: NodePlan<'_, S, H, G, B>,
    tally: &mut ThreadShares<B>,
    hands: Vec<Hand<S, T, B>>,
) -> Result<Vec<WorkerRecord<S, T>>, RunFault>
    ensures all { IfOk result (λ v. plan.entry.assignment.setup.now.workers ≤ length v.items) }
    ensures parts { OnOk result (tally.new.shares.parts ≡ tally.old.shares.parts + length hands.items) }
    ensures counts { (os : List Outcome) (n : ℕ) → Counts tally.old.lost tally.old.shares os →
        IfOk result (λ v. Counts tally.new.lost tally.new.shares (os ++ served_from n 0 (all_handled v.items))) }
    ensures fault { IfErr result (λ fault. IsRefusal fault) }
{
    let workers = plan.assignment.setup.workers();
    let mut records = roomy(alloc, workers as usize);
    let mut told = None;
    for hand in hands {
        let ended = muster_one(rt, alloc, plan, tally, &mut records, hand);
        told = first_told(told, ended);
    }
    let filled = fill(alloc, plan, &mut records, workers);
    match first_told(told, filled) {
        Some(fault) => Err(fault),
        None => Ok(records),
    }
}

// Ends a worker of a life that fails: its thread is joined, and what it did is dropped.
fn end_one<S: Scheme, T: ConnTable, B: Names, R: Threads + Wait>(
    rt: &R,
    hand: Hand<S, T, B>,
) -> Result<(), RunFault>
    ensures { IfErr result (λ fault. IsRefusal fault) }
{
    let Hand { number, handle } = hand;
    let _ = number;
    match handle.join(rt) {
        Ok(_) => Ok(()),
        Err(fault) => Err(fault),
    }
}

// Ends all workers of a life that fails, whatever becomes of them.
fn end_all<S: Scheme, T: ConnTable, B: Names, R: Threads + Wait>(
    rt: &R,
    hands: Vec<Hand<S, T, B>>,
) -> Option<RunFault>
    ensures { IfSome result (λ fault. IsRefusal fault) }
{
    let mut told = None;
    for hand in hands {
        told = first_told(told, end_one(rt, hand));
    }
    told
}

// Not all threads of a life could be started: those that were end, with nothing offered.
fn give_up<S: Scheme, T: ConnTable, B: Names, R: Threads + Wait>(
    rt: &R,
    inputs: &mut Inputs,
    hands: Vec<Hand<S, T, B>>,
    fault: RunFault,
) -> RunFault
    ensures { IsRefusal fault → IsRefusal result }
{
    inputs.close(rt);
    first_of(end_all(rt, hands), fault)
}

// The workers get no more to serve. Where the life ends with a stop they are told to halt, and else each ring gets a closing
// mark.
fn end_feed<S: Scheme, H: FlowHash, G: Gate, B: Names, R: Wait, W: Wait + Drop>(
    rt: &R,
    plan: NodePlan<'_, S, H, G, B>,
    driven: &Result<Progress<S, B>, RunFault>,
    desk: &mut Desk<'_, S, W>,
    inputs: &mut Inputs,
) {
    match driven {
        Ok(progress) if stops_at(plan.assignment.commands, progress.at) => {
            desk.halt();
            plan.gate.stopping(plan.assignment.node);
        }
        _ => inputs.close(rt),
    }
}

// Who gathers what the workers send: a thread, or nobody where no worker has one.
#[derive(Drop)]
enum Mux {
    Started(JoinHandle<Result<Vec<Serving>, AllocError>>),
    Spared,
}

// All that was gathered.
fn end_mux<R: Threads + Wait>(rt: &R, alloc: Global, mux: Mux) -> Result<Vec<Serving>, AllocError> {
    match mux {
        Mux::Started(handle) => handle.join(rt),
        Mux::Spared => Ok(Vec::new(alloc)),
    }
}

// The workers of a life, of which none is missing, who gathers what they send, and the rings that feed them.
#[derive(Drop)]
struct Crew<S: Scheme, T: ConnTable, B: Names> {
    hands: Vec<Hand<S, T, B>>,
    mux: Mux,
    inputs: Inputs,
}

// Drives a life whose threads were all started, and joins them.
fn drive_crew<
    S: Scheme,
    H: FlowHash,
    T: ConnTable,
    G: Gate,
    B: Names,
    R: Threads + Wait,
    W: Wait + Drop,
>(
    rt: &R,
    alloc: Global,
    life: Begun<'_, S, H, G, B>,
    stage: Stage<S, W>,
    crew: Crew<S, T, B>,
) -> Result<LifeRun<S, B>, RunFault>
    ensures { let rules = rules_for (λ s z. S.pick s z) (λ h. H.plain h) life.entry.asked.setup life.entry.asked.catalogue in
        let parts = life.entry.parts + length crew.hands.items in
        MatchResult result
        (λ r. IsLived rules life.entry.asked life.entry.start parts r.progress.at r.progress.journal r.progress.tally.lost r.progress.tally.shares)
        (λ fault. LifeTells (λ a b. S.eq a b) rules life.entry.asked life.entry.start fault) }
{
    let Crew { hands, mux, inputs } = crew;
    let mut inputs = inputs;
    let (life, desk) = life.open(stage);
    let (plan, progress) = life.parts();
    let mut desk = desk;
    let from = progress.at;
    let driven = drive(rt, alloc, plan, progress, &mut desk, &mut inputs);
    end_feed(rt, plan, &driven, &mut desk, &mut inputs);
    match driven {
        Ok(driven) => {
            let mut driven = driven;
            let workers = muster(rt, alloc, plan, &mut driven.tally, hands);
            let gathered = end_mux(rt, alloc, mux);
            drop(inputs);
            let gathered = gathered?;
            let workers = workers?;
            let sent = numbered(alloc, &driven, workers.as_slice(), gathered)?;
            let progress = end_driven(rt, plan, from, driven, workers)?;
            Ok(LifeRun { progress, sent })
        }
        Err(fault) => {
            let ended = end_all(rt, hands);
            let gathered = end_mux(rt, alloc, mux);
            drop(inputs);
            gathered?;
            Err(first_of(ended, fault))
        }
    }
}

// Starts the mux's thread where a worker has one, and so a ring to the mux.
fn start_mux<'s, 'e: 's, R: Threads + Wait + Sync + 'e>(
    scope: &Scope<'s, &'e ()>,
    rt: &'e R,
    alloc: Global,
    outputs: Vec<Consumer<Output>>,
) -> Option<Mux> {
    if outputs.is_empty() {
        return Some(Mux::Spared);
    }
    match scope.spawn(move || {
        let mut outputs = outputs;
        gather(rt, alloc, &mut outputs)
    }) {
        Ok(handle) => Some(Mux::Started(handle)),
        Err(_) => None,
    }
}

// Starts the threads of a life from a place of the commands on. Where one can't be started those that were are joined.
fn start_crew<
    's,
    'e: 's,
    S: Scheme + Send + Sync + 'e,
    H: FlowHash + Send + Sync + 'e,
    T: ConnTable + Send + 'e,
    G: Gate + Sync + 'e,
    B: Names + Send + Sync + 'e,
    R: Threads + Wait + Sync + 'e,
>(
    scope: &Scope<'s, &'e ()>,
    rt: &'e R,
    alloc: Global,
    plan: NodePlan<'e, S, H, G, B>,
    laid: Laid<'e, S, B>,
) -> Result<Crew<S, T, B>, RunFault>
where
    S::Prepared: Send + Sync,
    ensures all { IfOk result (λ crew. length crew.hands.items ≡ length laid.entry.outfits.items) }
    ensures fault { IfErr result (λ fault. IsRefusal fault) }
{
    let Laid {
        outfits,
        inputs,
        outputs,
    } = laid;
    let mut inputs = inputs;
    let started: Started<S, T, B> = start(scope, rt, alloc, plan, outfits);
    let Started { hands, fault } = started;
    if let Some(fault) = fault {
        return Err(give_up(rt, &mut inputs, hands, fault));
    }
    let Some(mux) = start_mux(scope, rt, alloc, outputs) else {
        let fault = RunFault::ThreadLost;
        return Err(give_up(rt, &mut inputs, hands, fault));
    };
    Ok(Crew { hands, mux, inputs })
}

// Starts the threads of a life, drives it, and joins them all.
fn run_threads<
    's,
    'e: 's,
    S: Scheme + Send + Sync + 'e,
    H: FlowHash + Send + Sync + 'e,
    T: ConnTable + Send + 'e,
    G: Gate + Sync + 'e,
    B: Names + Send + Sync + 'e,
    R: Threads + Wait + Sync + 'e,
>(
    scope: &Scope<'s, &'e ()>,
    rt: &'e R,
    alloc: Global,
    life: Begun<'e, S, H, G, B>,
    laid: Laid<'e, S, B>,
    stage: Stage<S, &'e R>,
) -> Result<LifeRun<S, B>, RunFault>
where
    S::Prepared: Send + Sync,
    ensures { let life = life.entry in
        let rules = rules_for (λ s z. S.pick s z) (λ h. H.plain h) life.asked.setup life.asked.catalogue in
        let parts = life.parts + length laid.entry.outfits.items in
        MatchResult result
        (λ r. IsLived rules life.asked life.start parts r.progress.at r.progress.journal r.progress.tally.lost r.progress.tally.shares)
        (λ fault. LifeTells (λ a b. S.eq a b) rules life.asked life.start fault) }
{
    let crew: Result<Crew<S, T, B>, RunFault> = start_crew(scope, rt, alloc, life.plan(), laid);
    match crew {
        Ok(crew) => drive_crew(rt, alloc, life, stage, crew),
        Err(fault) => Err(fault),
    }
}

/// One life, on a board that holds the newest version: threads, and the commands from one place on.
///
/// Nothing is answered before all threads are joined. Memory comes before ThreadLost, and both before what the records
/// are compared for.
pub(crate) fn run_life<
    'e,
    S: Scheme + Send + Sync + 'e,
    H: FlowHash + Send + Sync + 'e,
    T: ConnTable + Send + 'e,
    G: Gate + Sync + 'e,
    B: Names + Send + Sync + 'e,
    R: Threads + Wait + Sync + 'e,
>(
    rt: &'e R,
    alloc: Global,
    life: Begun<'e, S, H, G, B>,
    laid: Laid<'e, S, B>,
    stage: Stage<S, &'e R>,
) -> Result<LifeRun<S, B>, RunFault>
where
    S::Prepared: Send + Sync,
    ensures { let life = life.entry in
        let rules = rules_for (λ s z. S.pick s z) (λ h. H.plain h) life.asked.setup life.asked.catalogue in
        let parts = life.parts + length laid.entry.outfits.items in
        MatchResult result
        (λ r. IsLived rules life.asked life.start parts r.progress.at r.progress.journal r.progress.tally.lost r.progress.tally.shares)
        (λ fault. LifeTells (λ a b. S.eq a b) rules life.asked life.start fault) }
{
    thread::scope(
        thread::scope_env(),
        rt,
        move |scope| -> Result<LifeRun<S, B>, RunFault>
            ensures { let life = life.entry in
                let rules = rules_for (λ s z. S.pick s z) (λ h. H.plain h) life.asked.setup life.asked.catalogue in
                let parts = life.parts + length laid.entry.outfits.items in
                MatchResult result
                (λ r. IsLived rules life.asked life.start parts r.progress.at r.progress.journal r.progress.tally.lost r.progress.tally.shares)
                (λ fault. LifeTells (λ a b. S.eq a b) rules life.asked life.start fault) }
        { run_threads::<S, H, T, G, B, R>(scope, rt, alloc, life, laid, stage) },
    )
}
