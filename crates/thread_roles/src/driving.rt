//! What the driver does in one life.
ghost use Rattle.std.specs.Prelude.{◌≡◌, ◌≤◌, ◌<◌, ◌++◌, ◌∷◌, [], ℕ, Bool, true, false, List, Some, take, length, IfOk, IfErr, OnOk, MatchResult, is_some};
ghost use Rattle.std.specs.Prelude.{slice_get};
ghost use Rattle.std.specs.Arc.{arc_value};
ghost use Rattle.version_board.specs.Seats.{published_by};
ghost use Rattle.pool_versions.specs.Pool.{version_at};
ghost use Rattle.cluster_core.specs.Setups.{rules_for};
ghost use Rattle.cluster_node.specs.declared.packets.Packet.{Packet};
ghost use Rattle.thread_records.specs.declared.command.Command.{Command};
ghost use Rattle.thread_records.specs.declared.command.Command.TheVariants.{Publish, Offer};
ghost use Rattle.thread_records.specs.Arrivals.{ArrivesAs};
ghost use Rattle.thread_records.specs.Histories.{commands_of};
ghost use Rattle.thread_records.specs.Losses.{losses};
ghost use Rattle.thread_records.specs.Journals.{Drives};
ghost use Rattle.thread_records.specs.Paced.{AreUnmarked};
ghost use Rattle.stats_book.specs.Counts.{Counted};
ghost use Rattle.thread_roles.specs.Assigned.{asked_in};
ghost use Rattle.thread_roles.specs.Counts.{AreRead, Counts, with_came, with_drop};
ghost use Rattle.thread_roles.specs.Going.{Going, IsDriven, stops};
ghost use Rattle.thread_roles.specs.Shown.{number_of, last_published};
ghost use Rattle.thread_roles.specs.declared.fault.RunFault.TheVariants.{Memory};

use crate::fault::RunFault;
use crate::gate::Gate;
use crate::plan::{NodePlan, Progress};
use crate::post::Desk;
use crate::ring::{Inputs, PacedInputs};
use crate::tally::ThreadShares;
use cluster_node::{Outcome, Packet};
use hash_laws::FlowHash;
use pool_versions::{Catalogue, Version};
use selection::Scheme;
use shared_versions::{Shared, prepare_after};
use stats_book::{Names, StatsBook};
use std::alloc::{AllocError, Global};
use std::sync::{Arc, Mutex, Wait};
use thread_records::{Command, Journal};

// Whether the catalogue has a version of this number.
fn knows(catalogue: &Catalogue, number: u32) -> bool
    ensures { result ≡ is_some (version_at number catalogue.now.versions) }
{
    catalogue.get(number).is_some()
}

// A version that was installed, prepared: the one that all nodes share, or one that is prepared after the newest.
fn next_of<S: Scheme, H: FlowHash, G, B: Names>(
    alloc: Global,
    plan: NodePlan<'_, S, H, G, B>,
    newest: &Option<Shared<S>>,
    version: &Version,
) -> Result<Shared<S>, AllocError>
    ensures { IfOk result (λ p. (arc_value p).number ≡ version.now.number) }
{
    match plan.prepared.find(version.number) {
        Some(shared) => Arc::try_clone(shared),
        None => prepare_after(alloc, plan.assignment.setup, version, newest),
    }
}

// A version that was installed is had prepared, and shown to the workers. Of one that the catalogue has, and that is above the
// last one published, only Memory is answered.
fn show_next<S: Scheme, H: FlowHash, G: Gate, B: Names, R: Wait + Drop>(
    alloc: Global,
    plan: NodePlan<'_, S, H, G, B>,
    desk: &mut Desk<'_, S, R>,
    newest: &mut Option<Shared<S>>,
    number: u32,
) -> Result<(), RunFault>
    ensures published { OnOk result (published_by desk.new.seat ≡ published_by desk.old.seat ++ number ∷ []) }
    ensures newest { OnOk result (number_of arc_value newest.new ≡ number) }
    ensures newer { is_some (version_at number plan.entry.assignment.catalogue.now.versions) ≡ true → last_published desk.old.seat < number →
        IfErr result (λ fault. fault ≡ Memory) }
{
    // Only a version that the catalogue has is installed.
    let Some(version) = plan.assignment.catalogue.get(number) else {
        return Err(RunFault::Foreign);
    };
    plan.gate.preparing(plan.assignment.node, number);
    let next = next_of(alloc, plan, newest, version)?;
    desk.publish(&next)?;
    *newest = Some(next);
    Ok(())
}

// A version is installed, and then prepared and shown. One that isn't installed is neither. Where the board has the number
// of the version installed last, it has it afterwards, and nothing but Memory is answered.
fn publish<S: Scheme, H: FlowHash, G: Gate, B: Names, R: Wait + Drop>(
    alloc: Global,
    plan: NodePlan<'_, S, H, G, B>,
    journal: &mut Journal,
    desk: &mut Desk<'_, S, R>,
    newest: &mut Option<Shared<S>>,
    number: u32,
) -> Result<(), RunFault>
    ensures going { let rules = rules_for (λ s z. S.pick s z) (λ h. H.plain h) plan.entry.assignment.setup.now plan.entry.assignment.catalogue.now in
        (packets : List Packet) (cs : List Command) (n : ℕ) (places : ℕ) → Going rules packets cs n places journal.old →
        OnOk result (Going rules packets (cs ++ Publish number ∷ []) n places journal.new) }
    ensures counts { (lost : Bool) (shares : Counted) → Counts lost shares journal.old.outcomes → OnOk result (Counts lost shares journal.new.outcomes) }
    ensures published { last_published desk.old.seat ≡ journal.old.newest →
        MatchResult result (λ _. last_published desk.new.seat ≡ journal.new.newest) (λ fault. fault ≡ Memory) }
    ensures unmarked { AreUnmarked journal.old.events → OnOk result (AreUnmarked journal.new.events) }
    ensures newest { number_of arc_value newest.old ≡ journal.old.newest → OnOk result (number_of arc_value newest.new ≡ journal.new.newest) }
{
    let _ = plan.assignment.setup.workers();
    match journal.install(knows(plan.assignment.catalogue, number), number) {
        Ok(Outcome::Installed) => match show_next(alloc, plan, desk, newest, number) {
            Ok(()) => Ok(()),
            Err(fault) => Err(fault),
        },
        Ok(_) => Ok(()),
        Err(_) => Err(RunFault::Memory),
    }
}

// Counts that a packet came, if it is there.
fn count_arrival<B: Names, R: Wait>(
    rt: &R,
    book: &Mutex<StatsBook<B>>,
    tally: &mut ThreadShares<B>,
    packets: &[Packet],
    packet: u32,
)
    requires { 0 < tally.old.shares.parts }
    ensures parts { tally.new.shares.parts ≡ tally.old.shares.parts }
    ensures lost { tally.new.lost ≡ false → (tally.old.lost ≡ false) × (tally.new.shares ≡ with_came (slice_get packets.now packet) tally.old.shares) }
{
    match packets.get(packet as usize) {
        None => (),
        Some(_) => tally.receive(rt, book),
    }
}

// Counts the outcome of an arrival, if that is a drop.
fn count_drop<B: Names, R: Wait>(
    rt: &R,
    book: &Mutex<StatsBook<B>>,
    tally: &mut ThreadShares<B>,
    outcome: &Outcome,
)
    requires { 0 < tally.old.shares.parts }
    ensures parts { tally.new.shares.parts ≡ tally.old.shares.parts }
    ensures lost { tally.new.lost ≡ false → (tally.old.lost ≡ false) × (tally.new.shares ≡ with_drop outcome.now tally.old.shares) }
{
    if let Outcome::Dropped { cause, .. } = *outcome {
        tally.drop_one(rt, book, cause);
    }
}

// A packet is offered to the rings. A paced driver waits at the ring of its home worker while that is full.
fn arrive<S: Scheme, H: FlowHash, G, B: Names, R: Wait>(
    rt: &R,
    plan: NodePlan<'_, S, H, G, B>,
    journal: &mut Journal,
    inputs: &mut Inputs,
    packet: u32,
) -> Result<Outcome, AllocError>
    ensures drives { let rules = rules_for (λ s z. S.pick s z) (λ h. H.plain h) plan.entry.assignment.setup.now plan.entry.assignment.catalogue.now in
        Drives rules plan.entry.assignment.packets.now journal.old → OnOk result (Drives rules plan.entry.assignment.packets.now journal.new) }
    ensures command { OnOk result (commands_of journal.new.events ≡ commands_of journal.old.events ++ Offer packet ∷ []) }
    ensures lost { OnOk result (losses journal.new.outcomes ≡ losses journal.old.outcomes) }
    ensures told { IfOk result (λ o. journal.new.outcomes ≡ journal.old.outcomes ++ o ∷ []) }
    ensures arrives { IfOk result (λ o. ArrivesAs (slice_get plan.entry.assignment.packets.now packet) o) }
    ensures kept { OnOk result ((journal.new.node ≡ journal.old.node) × (journal.new.ring ≡ journal.old.ring)) }
    ensures newest { OnOk result (journal.new.newest ≡ journal.old.newest) }
    ensures unmarked { plan.entry.assignment.paced ≡ true → AreUnmarked journal.old.events → OnOk result (AreUnmarked journal.new.events) }
{
    let hash = plan.assignment.setup.hash();
    if plan.assignment.paced {
        let mut rings = PacedInputs { rt, inputs };
        return journal.arrive(&hash, plan.assignment.packets, packet, &mut rings);
    }
    journal.arrive(&hash, plan.assignment.packets, packet, inputs)
}

// A packet arrives. Where it is there it is counted first, and as dropped once it is.
fn offer<S: Scheme, H: FlowHash, G, B: Names, R: Wait>(
    rt: &R,
    plan: NodePlan<'_, S, H, G, B>,
    journal: &mut Journal,
    tally: &mut ThreadShares<B>,
    inputs: &mut Inputs,
    packet: u32,
) -> Result<(), RunFault>
    requires { 0 < tally.old.shares.parts }
    ensures going { let rules = rules_for (λ s z. S.pick s z) (λ h. H.plain h) plan.entry.assignment.setup.now plan.entry.assignment.catalogue.now in
        (cs : List Command) (n : ℕ) (places : ℕ) → Going rules plan.entry.assignment.packets.now cs n places journal.old →
        OnOk result (Going rules plan.entry.assignment.packets.now (cs ++ Offer packet ∷ []) n places journal.new) }
    ensures parts { tally.new.shares.parts ≡ tally.old.shares.parts }
    ensures counts { AreRead plan.entry.assignment.packets.now → Counts tally.old.lost tally.old.shares journal.old.outcomes →
        OnOk result (Counts tally.new.lost tally.new.shares journal.new.outcomes) }
    ensures unmarked { plan.entry.assignment.paced ≡ true → AreUnmarked journal.old.events → OnOk result (AreUnmarked journal.new.events) }
    ensures newest { OnOk result (journal.new.newest ≡ journal.old.newest) }
    ensures fault { IfErr result (λ fault. fault ≡ Memory) }
{
    let _ = plan.assignment.catalogue.size();
    count_arrival(rt, plan.book, tally, plan.assignment.packets, packet);
    match arrive(rt, plan, journal, inputs, packet) {
        Ok(outcome) => {
            count_drop(rt, plan.book, tally, &outcome);
            Ok(())
        }
        Err(_) => Err(RunFault::Memory),
    }
}

/// Whether the command at a place is there and is a stop.
pub fn stops_at(commands: &[Command], at: usize) -> bool
    ensures { result ≡ stops (slice_get commands.now at) }
{
    matches!(commands.get(at), Some(Command::Stop))
}

// The command at a place.
fn command_at(commands: &[Command], at: usize) -> Command
    requires { at < length commands.now }
    ensures { slice_get commands.now at ≡ Some result }
{
    commands[at]
}

/// Obeys the commands from one place on, up to one that ends the life or the end of the list. A version is shown when it is
/// installed. One that isn't shared is prepared then, after the newest one. Where the board has the number of the version installed last, only
/// Memory is answered.
pub fn drive<S: Scheme, H: FlowHash, G: Gate, B: Names, R: Wait, W: Wait + Drop>(
    rt: &R,
    alloc: Global,
    plan: NodePlan<'_, S, H, G, B>,
    progress: Progress<S, B>,
    desk: &mut Desk<'_, S, W>,
    inputs: &mut Inputs,
) -> Result<Progress<S, B>, RunFault>
    requires within { progress.at ≤ length plan.assignment.commands.now }
    requires going { let asked = asked_in plan.assignment in
        let rules = rules_for (λ s z. S.pick s z) (λ h. H.plain h) asked.setup asked.catalogue in
        Going rules asked.packets (take progress.at asked.commands) asked.node asked.ring progress.journal }
    requires some { 0 < progress.tally.shares.parts }
    requires counts { AreRead plan.assignment.packets.now → Counts progress.tally.lost progress.tally.shares progress.journal.outcomes }
    ensures driven { let asked = asked_in plan.entry.assignment in
        let rules = rules_for (λ s z. S.pick s z) (λ h. H.plain h) asked.setup asked.catalogue in
        IfOk result (λ d. IsDriven rules asked.packets asked.commands asked.node asked.ring progress.at d.at d.journal) }
    ensures parts { IfOk result (λ d. d.tally.shares.parts ≡ progress.tally.shares.parts) }
    ensures counts { AreRead plan.entry.assignment.packets.now → IfOk result (λ d. Counts d.tally.lost d.tally.shares d.journal.outcomes) }
    ensures unmarked { plan.entry.assignment.paced ≡ true → AreUnmarked progress.journal.events → IfOk result (λ d. AreUnmarked d.journal.events) }
    ensures published { last_published desk.old.seat ≡ progress.journal.newest →
        MatchResult result (λ d. last_published desk.new.seat ≡ d.journal.newest) (λ fault. fault ≡ Memory) }
{
    let Progress {
        journal,
        newest,
        at: from,
        tally,
    } = progress;
    let mut journal = journal;
    let mut newest = newest;
    let mut tally = tally;
    for at in from..plan.assignment.commands.len() {
        match command_at(plan.assignment.commands, at) {
            Command::Publish(number) => {
                publish(alloc, plan, &mut journal, desk, &mut newest, number)?;
            }
            Command::Offer(packet) => {
                offer(rt, plan, &mut journal, &mut tally, inputs, packet)?;
            }
            Command::Restart | Command::Stop => {
                return Ok(Progress {
                    journal,
                    newest,
                    at,
                    tally,
                });
            }
        }
    }
    Ok(Progress {
        journal,
        newest,
        at: plan.assignment.commands.len(),
        tally,
    })
}
