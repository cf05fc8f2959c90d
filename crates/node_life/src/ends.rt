//! How a life of a node ends, once its threads are joined. What its workers did is compared with what was placed on them, and
//! written after the driver's steps.
ghost use Rattle.std.specs.Prelude.{◌≡◌, ◌<◌, ◌++◌, ◌∷◌, [], ℕ, Bool, true, List, length, IfOk, IfErr, OnOk, All};
ghost use Rattle.cluster_core.specs.Setups.{rules_for};
ghost use Rattle.cluster_node.specs.declared.packets.Packet.{Packet};
ghost use Rattle.thread_records.specs.Works.{IsOf};
ghost use Rattle.thread_records.specs.Ends.{all_handled};
ghost use Rattle.thread_records.specs.declared.command.Command.{Command};
ghost use Rattle.thread_records.specs.Losses.{ending};
ghost use Rattle.thread_records.specs.Histories.{past_of, NoneWaits};
ghost use Rattle.thread_records.specs.Journals.{Tells, Drives, IsServed};
ghost use Rattle.thread_records.specs.Paced.{AreUnmarked};
ghost use Rattle.stats_book.specs.Counts.{Counted};
ghost use Rattle.thread_roles.specs.Assigned.{asked_in};
ghost use Rattle.thread_roles.specs.Counts.{AreRead, Counts, served_from, with_lost};
ghost use Rattle.thread_roles.specs.Going.{Going, IsDriven, IsEnded};
ghost use Rattle.thread_roles.specs.declared.fault.RunFault.TheVariants.{Foreign};
ghost use Rattle.node_life.specs.Judged.{AreOfCluster, JudgesEnd, drained_at};

use cluster_core::Setup;
use connection_table::ConnTable;
use hash_laws::FlowHash;
use pool_versions::Catalogue;
use selection::Scheme;
use stats_book::Names;
use std::alloc::{AllocError, Global};
use std::sync::Wait;
use thread_records::{Journal, WorkerRecord, are_of};
use thread_roles::{NodePlan, Progress, RunFault, Serving, fault_of, stops_at};

// The number of each worker's first serving in the history, where so many events are before the servings.
fn firsts_of<S: Scheme, T: ConnTable>(
    alloc: Global,
    before: usize,
    workers: &[WorkerRecord<S, T>],
) -> Result<Vec<usize>, AllocError> {
    let mut firsts = Vec::with_capacity(alloc, workers.len())?;
    let mut first = before;
    for worker in workers {
        firsts.push(first)?;
        first = first.wrapping_add(worker.handled().len());
    }
    Ok(firsts)
}

// The number of a serving in the history. That of a worker which isn't there is the greatest.
fn number_of(firsts: &[usize], serving: Serving) -> Result<u32, AllocError> {
    let Some(first) = firsts.get(serving.worker as usize) else {
        return Ok(u32::MAX);
    };
    match u32::try_from(first.wrapping_add(serving.number as usize)) {
        Ok(number) => Ok(number),
        Err(_) => Err(AllocError),
    }
}

/// What was gathered of a life's workers, by the numbers that their servings get in the history once the life ends. A number that is
/// wrong is found when the run ends, since what was sent is compared with the history there.
pub(crate) fn numbered<S: Scheme, T: ConnTable, B: Names>(
    alloc: Global,
    driven: &Progress<S, B>,
    workers: &[WorkerRecord<S, T>],
    sent: Vec<Serving>,
) -> Result<Vec<u32>, AllocError>
    ensures { IfOk result (λ v. length v.items ≡ length sent.items) }
{
    if sent.is_empty() {
        return Ok(Vec::new(alloc));
    }
    let firsts = firsts_of(alloc, driven.journal.events().len(), workers)?;
    let mut numbers = Vec::with_capacity(alloc, sent.len())?;
    for serving in &sent {
        numbers.push(number_of(firsts.as_slice(), *serving)?)?;
    }
    Ok(numbers)
}

// Compares the versions that a life's workers used with the catalogue's, and by what they were prepared with the cluster's.
fn compare<S: Scheme, H: FlowHash, T: ConnTable>(
    setup: &Setup<S, H>,
    catalogue: &Catalogue,
    workers: &Vec<WorkerRecord<S, T>>,
) -> Result<(), RunFault>
    ensures of { OnOk result (All (λ w. IsOf (λ s z. S.pick s z) (rules_for (λ s z. S.pick s z)
        (λ h. H.plain h) setup.now catalogue.now) w) workers.now.items) }
    ensures own { OnOk result (AreOfCluster (λ a b. S.eq a b) setup.now catalogue.now workers.now.items) }
    ensures foreign { IfErr result (λ fault. (fault ≡ Foreign) × (AreOfCluster (λ a b. S.eq a b) setup.now catalogue.now workers.now.items → ⊥)) }
{
    if !are_of(setup, catalogue, workers.as_slice()) {
        return Err(RunFault::Foreign);
    }
    Ok(())
}

// A life ended with a restart or a stop, and another begins. Its workers' versions are compared first. The answer is how
// many packets were lost.
fn end_life<S: Scheme, H: FlowHash, T: ConnTable>(
    journal: &mut Journal,
    setup: &Setup<S, H>,
    catalogue: &Catalogue,
    workers: Vec<WorkerRecord<S, T>>,
    drained: bool,
) -> Result<u64, RunFault>
    ensures going { let rules = rules_for (λ s z. S.pick s z) (λ h. H.plain h) setup.now catalogue.now in
        (packets : List Packet) (cs : List Command) (n : ℕ) (places : ℕ) → Going rules packets cs n places journal.old →
        OnOk result (Going rules packets (cs ++ ending drained ∷ []) n places journal.new) }
    ensures judged { JudgesEnd (λ a b. S.eq a b) setup.now catalogue.now drained journal.old workers.items result }
    ensures newest { OnOk result (journal.new.newest ≡ journal.old.newest) }
    ensures unmarked { AreUnmarked journal.old.events → OnOk result (AreUnmarked journal.new.events) }
    ensures counts { (lost : Bool) (shares : Counted) →
        Counts lost shares (journal.old.outcomes ++ served_from journal.old.node 0 (all_handled workers.items)) →
        IfOk result (λ left. Counts lost (with_lost left shares) journal.new.outcomes) }
{
    compare(setup, catalogue, &workers)?;
    match journal.end_life(workers, drained) {
        Ok(left) => Ok(left),
        Err(fault) => Err(fault_of(fault)),
    }
}

// The last life ended. So are they here.
fn end<S: Scheme, H: FlowHash, T: ConnTable>(
    journal: &mut Journal,
    setup: &Setup<S, H>,
    catalogue: &Catalogue,
    workers: Vec<WorkerRecord<S, T>>,
) -> Result<(), RunFault>
    ensures ended { let rules = rules_for (λ s z. S.pick s z) (λ h. H.plain h) setup.now catalogue.now in
        (packets : List Packet) → Drives rules packets journal.old →
        OnOk result (Tells rules packets journal.new × NoneWaits (past_of rules packets journal.new.node journal.new.events)) }
    ensures served { OnOk result (IsServed journal.old journal.new) }
    ensures unmarked { AreUnmarked journal.old.events → OnOk result (AreUnmarked journal.new.events) }
    ensures judged { JudgesEnd (λ a b. S.eq a b) setup.now catalogue.now true journal.old workers.items result }
    ensures counts { (lost : Bool) (shares : Counted) →
        Counts lost shares (journal.old.outcomes ++ served_from journal.old.node 0 (all_handled workers.items)) →
        OnOk result (Counts lost shares journal.new.outcomes) }
{
    compare(setup, catalogue, &workers)?;
    match journal.end(workers, true) {
        Ok(()) => Ok(()),
        Err(fault) => Err(fault_of(fault)),
    }
}

/// A life that was driven ends as its commands say. The workers' records are compared with what was placed on them, and
/// written after the driver's steps. What was lost at a stop is counted. Foreign is reported before RingLost, and Memory where it
/// is refused. What the records say decides between Ok, Foreign and RingLost (`judged`).
pub(crate) fn end_driven<S: Scheme, H: FlowHash, T: ConnTable, G, B: Names, R: Wait>(
    rt: &R,
    plan: NodePlan<'_, S, H, G, B>,
    from: usize,
    driven: Progress<S, B>,
    workers: Vec<WorkerRecord<S, T>>,
) -> Result<Progress<S, B>, RunFault>
    requires driven { let asked = asked_in plan.assignment in
        let rules = rules_for (λ s z. S.pick s z) (λ h. H.plain h) asked.setup asked.catalogue in
        IsDriven rules asked.packets asked.commands asked.node asked.ring from driven.at driven.journal }
    requires some { 0 < driven.tally.shares.parts }
    requires counts { AreRead plan.assignment.packets.now →
        Counts driven.tally.lost driven.tally.shares (driven.journal.outcomes ++ served_from driven.journal.node 0 (all_handled workers.items)) }
    ensures ended { let asked = asked_in plan.entry.assignment in
        let rules = rules_for (λ s z. S.pick s z) (λ h. H.plain h) asked.setup asked.catalogue in
        IfOk result (λ d. IsEnded rules asked.packets asked.commands asked.node asked.ring from d.at d.journal) }
    ensures judged { let asked = asked_in plan.entry.assignment in
        let drained = drained_at asked.commands driven.at in
        JudgesEnd (λ a b. S.eq a b) asked.setup asked.catalogue drained driven.journal workers.items result }
    ensures parts { IfOk result (λ d. d.tally.shares.parts ≡ driven.tally.shares.parts) }
    ensures unmarked { AreUnmarked driven.journal.events → IfOk result (λ d. AreUnmarked d.journal.events) }
    ensures counts { AreRead plan.entry.assignment.packets.now → IfOk result (λ d. Counts d.tally.lost d.tally.shares d.journal.outcomes) }
{
    let _ = from;
    let Progress {
        journal,
        newest,
        at,
        tally,
    } = driven;
    let mut journal = journal;
    let mut tally = tally;
    if at < plan.assignment.commands.len() {
        let drained = !stops_at(plan.assignment.commands, at);
        let lost = end_life(
            &mut journal,
            plan.assignment.setup,
            plan.assignment.catalogue,
            workers,
            drained,
        )?;
        tally.lose(rt, plan.book, lost);
        return Ok(Progress {
            journal,
            newest,
            at,
            tally,
        });
    }
    end(
        &mut journal,
        plan.assignment.setup,
        plan.assignment.catalogue,
        workers,
    )?;
    Ok(Progress {
        journal,
        newest,
        at,
        tally,
    })
}
