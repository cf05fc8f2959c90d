//! A scenario is played.
ghost use Rattle.std.specs.Prelude.{◌≡◌, ◌≤◌, [], ◌∷◌, ℕ, true, List, None, IfSome, IfOk, IfErr, string_bytes, length};
ghost use Rattle.hash_laws.specs.Any.{plain_of};
ghost use Rattle.event_trace.specs.Steps.{below};
ghost use Rattle.cluster_core.specs.Deployed.{cluster_of};
ghost use Rattle.simulation.specs.Plans.{planned};
ghost use Rattle.simulation.specs.Simulated.{Stopped};
ghost use Rattle.run_report.specs.Causes.{lookups_of};
ghost use Rattle.simulate_scenario.specs.Described.{StoppedIn, cluster_in, choice_in, plan_in, lookups_in};
ghost use Rattle.named_scheme.specs.Picking.{pick_of};
ghost use Rattle.named_spread.specs.Choosing.{choice_by, choice_of, live_of};
ghost use Rattle.simulate_scenario.specs.Answers.{AnswersIn, CountedIn};
ghost use Rattle.simulate_scenario.specs.Asked.{is_summary};
ghost use Rattle.simulate_scenario.specs.Told.{AnswersBy, IsToldAnswer, ToldIn};
ghost use Rattle.simulation.specs.declared.fault.SimulationFault.TheVariants as SimulationFault;
ghost use Rattle.simulate_scenario.specs.Kept.{KeepsPromises};
ghost use Rattle.node_part.specs.Parts.{part_of, part_trace};
ghost use Rattle.simulate_scenario.specs.Parts.{PartToldIn, PartStoppedIn, PartKeeps};
ghost use Rattle.simulate_scenario.specs.Turned.{IsTurnedAnswer, TurnedToldIn};
ghost use Rattle.simulate_scenario.specs.declared.asking.Query.TheVariants.{Report};

use crate::answering::{Answering, Asking};
use crate::asking::{Answer, Query, Wanted};
use crate::ended::Ended;
use crate::notes::Notebook;
use crate::paging::{Listing, PagedNotes, asking_paged};
use crate::summing::SummaryNotes;
use crate::turned::{TurnedListing, TurnedNotes, asking_turned};
use cluster_core::{Deployment, Setup};
use connection_table::{PlaceTable, TableKey};
use event_trace::{Balancers, Task};
use hash_laws::AnyHash;
use named_scheme::{NamedScheme, scheme_of};
use named_spread::{NamedSpread, spread_of};
use node_part::{NodePart, PartSetup};
use pcap_file::Source;
use scenario::{Scenario, SpreadKind};
use simulation::{Outlet, Plan, RunContext, SimulationFault, play_capture};
use std::alloc::Global;
use text_pages::Pages;

/// A run that was given up, with its notes, if there were any yet.
#[derive(Drop)]
pub(crate) struct GivenUp<N> {
    pub(crate) fault: SimulationFault,
    pub(crate) notes: Option<N>,
}

impl<N> GivenUp<N> {
    // Memory was refused before there were notes.
    fn of_memory() -> GivenUp<N>
        ensures { result.fault ≡ SimulationFault.Memory }
    {
        GivenUp {
            fault: SimulationFault::Memory,
            notes: None,
        }
    }
}

// Plays the steps of a part with this spreader, and answers.
fn play_with<N: Answering, I: Source, O: Outlet>(
    run: &RunContext<'_, PartSetup<Task<NamedScheme, AnyHash, N::Query>>>,
    notes: N,
    spread: NamedSpread,
    input: &mut I,
    output: &mut O,
) -> Result<(Answer, N), GivenUp<N>>
    requires fresh { N.are_of run.now.setup.now.whole.asked [] notes }
    requires live { live_of spread ≡ below (length run.now.plan.nodes.now) }
    requires nodes { length run.now.plan.nodes.now ≤ 64 }
    requires steps { length run.now.plan.steps.now ≤ 100000 }
    requires cluster { length run.now.setup.now.whole.deployment.setup.nodes ≡ length run.now.plan.nodes.now }
    requires workers { run.now.setup.now.whole.deployment.setup.workers ≤ 16 }
    ensures ok { let part = run.now.setup.now in let d = part.whole.deployment in let k = cluster_of (λ s z. pick_of s z) (λ h. plain_of h) d in
        let lookups = lookups_of (plain_of d.setup.hash) d.setup.size d.catalogue in
        IfOk result (λ r. AnswersBy (λ l i t p e. N.is_answered part.whole.asked r.1 r.0 l i (part_trace part.only t) p e)
        (part_of part.only k) (choice_of spread) (planned run.now.plan) lookups d.setup.idle
        (I.tape input.old) (I.tape input.new) (O.tape output.old) (O.tape output.new)) }
    ensures stopped { let part = run.now.setup.now in let k = cluster_of (λ s z. pick_of s z) (λ h. plain_of h) part.whole.deployment in
        IfErr result (λ g. Stopped (part_of part.only k) (choice_of spread) (planned run.now.plan)
        (I.tape input.old) (I.tape input.new) (O.tape output.old) (O.tape output.new) g.fault) }
{
    let part = run.setup;
    let task = &part.whole;
    let deployment = &task.deployment;
    let Ok(balancers) = Balancers::<NamedScheme, AnyHash, PlaceTable, N>::make(
        run.alloc, deployment, notes,
    ) else {
        return Err(GivenUp::of_memory());
    };
    let mut core = NodePart::new(balancers);
    deployment.keep_order();
    let outcome = play_capture(run, &mut core, spread, input, output);
    let balancers = core.into_core();
    balancers.keep_balance(deployment);
    let (_, mut notes) = balancers.into_parts();
    let played = match outcome {
        Ok(played) => played,
        Err(fault) => {
            let notes = Some(notes);
            return Err(GivenUp { fault, notes });
        }
    };
    let ended = Ended::of(&played, part.only);
    match notes.answer(run.alloc, task, &ended) {
        Ok(answer) => Ok((answer, notes)),
        Err(_) => {
            let notes = Some(notes);
            Err(GivenUp {
                fault: SimulationFault::Memory,
                notes,
            })
        }
    }
}

// Plays with the spreader that the scenario names.
fn play_over<N: Answering, I: Source, O: Outlet>(
    run: &RunContext<'_, PartSetup<Task<NamedScheme, AnyHash, N::Query>>>,
    notes: N,
    spread: SpreadKind,
    input: &mut I,
    output: &mut O,
) -> Result<(Answer, N), GivenUp<N>>
    requires fresh { N.are_of run.now.setup.now.whole.asked [] notes }
    requires nodes { length run.now.plan.nodes.now ≤ 64 }
    requires steps { length run.now.plan.steps.now ≤ 100000 }
    requires cluster { length run.now.setup.now.whole.deployment.setup.nodes ≡ length run.now.plan.nodes.now }
    requires workers { run.now.setup.now.whole.deployment.setup.workers ≤ 16 }
    ensures ok { let part = run.now.setup.now in let d = part.whole.deployment in let k = cluster_of (λ s z. pick_of s z) (λ h. plain_of h) d in
        let lookups = lookups_of (plain_of d.setup.hash) d.setup.size d.catalogue in
        IfOk result (λ r. AnswersBy (λ l i t p e. N.is_answered part.whole.asked r.1 r.0 l i (part_trace part.only t) p e)
        (part_of part.only k) (choice_by spread (plain_of d.setup.hash)) (planned run.now.plan) lookups d.setup.idle
        (I.tape input.old) (I.tape input.new) (O.tape output.old) (O.tape output.new)) }
    ensures stopped { let part = run.now.setup.now in let d = part.whole.deployment in let k = cluster_of (λ s z. pick_of s z) (λ h. plain_of h) d in
        IfErr result (λ g. Stopped (part_of part.only k) (choice_by spread (plain_of d.setup.hash)) (planned run.now.plan)
        (I.tape input.old) (I.tape input.new) (O.tape output.old) (O.tape output.new) g.fault) }
{
    let hash = run.setup.whole.deployment.setup().hash();
    let Ok(spread) = spread_of(run.alloc, spread, hash, run.plan.nodes.len() as u16) else {
        return Err(GivenUp::of_memory());
    };
    play_with(run, notes, spread, input, output)
}

// Plays a part with the scheme that the scenario names.
fn play_named<N: Answering, I: Source, O: Outlet>(
    alloc: Global,
    key: TableKey,
    part: PartSetup<Scenario>,
    asking: Asking<N::Query, N>,
    input: &mut I,
    output: &mut O,
) -> Result<(Answer, N), GivenUp<N>>
where
    N::Query: Drop,
    requires fresh { N.are_of asking.asked [] asking.notes }
    ensures ok { let s = part.whole in
        IfOk result (λ r. AnswersBy (λ l i t p e. N.is_answered asking.asked r.1 r.0 l i (part_trace part.only t) p e)
        (part_of part.only (cluster_in s)) (choice_in s) (plan_in s) (lookups_in s) s.idle
        (I.tape input.old) (I.tape input.new) (O.tape output.old) (O.tape output.new)) }
    ensures stopped { let s = part.whole in IfErr result (λ g. Stopped (part_of part.only (cluster_in s)) (choice_in s) (plan_in s)
        (I.tape input.old) (I.tape input.new) (O.tape output.old) (O.tape output.new) g.fault) }
{
    let PartSetup { only, whole } = part;
    let Scenario {
        size,
        hash,
        scheme: kind,
        spread,
        workers,
        capacity,
        ring: _,
        check,
        idle,
        nodes,
        catalogue,
        steps,
    } = whole;
    let scheme = scheme_of(kind, hash);
    let Ok(setup) = Setup::new(hash, scheme, size, nodes, workers, capacity, idle) else {
        unreachable!()
    };
    let Some(deployment) = Deployment::new(setup.keyed(key), catalogue) else {
        unreachable!()
    };
    let Asking { asked, notes } = asking;
    let whole = Task { deployment, asked };
    let setup = PartSetup { only, whole };
    let plan = Plan {
        nodes: setup.whole.deployment.setup().nodes(),
        check,
        steps: steps.as_slice(),
    };
    let run = RunContext {
        alloc,
        plan,
        setup: &setup,
    };
    match play_over(&run, notes, spread, input, output) {
        Ok(answered) => Ok(answered),
        Err(given_up) => Err(given_up),
    }
}

// Plays a scenario, and notes all that may be asked of its run.
fn play_noted<I: Source, O: Outlet>(
    alloc: Global,
    key: TableKey,
    scenario: Scenario,
    asked: Query,
    input: &mut I,
    output: &mut O,
) -> Result<Answer, SimulationFault>
    ensures counts { IfOk result (λ a. CountedIn scenario asked (I.tape input.old) (I.tape input.new) (O.tape output.old) (O.tape output.new)
        (string_bytes a.text) a.counts) }
    ensures stopped { IfErr result (StoppedIn scenario (I.tape input.old) (I.tape input.new) (O.tape output.old) (O.tape output.new)) }
{
    let Ok(notes) = Notebook::make(alloc, key, &asked) else {
        return Err(SimulationFault::Memory);
    };
    let asking = Asking { asked, notes };
    let part = PartSetup {
        only: None,
        whole: scenario,
    };
    match play_named(alloc, key, part, asking, input, output) {
        Ok((answer, _)) => Ok(answer),
        Err(given_up) => Err(given_up.fault),
    }
}

// What is wanted, where it is a report with a summary alone and there is no idle limit.
fn summed_by(asked: Query, idle: Option<u64>) -> Option<Wanted>
    ensures { IfSome result (λ w. (asked ≡ Report w) × (is_summary w ≡ true) × (idle ≡ None)) }
{
    match asked {
        Query::Report(wanted) if wanted.is_summary() && idle.is_none() => Some(wanted),
        _ => None,
    }
}

// Plays a scenario without an idle limit for a report with a summary alone.
fn play_summed<I: Source, O: Outlet>(
    alloc: Global,
    key: TableKey,
    scenario: Scenario,
    wanted: Wanted,
    input: &mut I,
    output: &mut O,
) -> Result<Answer, SimulationFault>
    requires wanted { is_summary wanted ≡ true }
    requires idle { scenario.idle ≡ None }
    ensures counts { IfOk result (λ a. CountedIn scenario (Report wanted) (I.tape input.old) (I.tape input.new) (O.tape output.old) (O.tape output.new)
        (string_bytes a.text) a.counts) }
    ensures stopped { IfErr result (StoppedIn scenario (I.tape input.old) (I.tape input.new) (O.tape output.old) (O.tape output.new)) }
{
    let asking = Asking {
        asked: wanted,
        notes: SummaryNotes::new(alloc, key),
    };
    let part = PartSetup {
        only: None,
        whole: scenario,
    };
    match play_named(alloc, key, part, asking, input, output) {
        Ok((answer, _)) => Ok(answer),
        Err(given_up) => Err(given_up.fault),
    }
}

/// Plays a scenario over a capture, and answers what is asked of the run. What the cluster sends goes to the
/// outlet, whose capture is begun once the input's header was accepted. Whatever goes wrong but a write, the output is cut between
/// records. The connection tables and the books of splits and changes hash by the key. The memory of a run is given back before its answer
/// is made. A step `stop`, which no scenario has that was read as one played in turn, is played as the restart that it is in a
/// trace.
///
/// By the clause `kept` the run keeps the promises. For a scheme to which the turn doesn't matter, two packets of one flow
/// that were sent to different backends were chosen under versions that pick these backends. Where the scheme is Maglev,
/// their tables name the two backends at the flow's slot. A forwarder keeps a flow's backend while its entry stands and the
/// backend is up or drains. Every slot of Maglev's tables names an up backend, never one that drains, and backends' slot
/// counts are in proportion to their weights. The two versions of each split pick its two backends, for such a scheme, and for Maglev name them at the flow's
/// slot.
///
/// By the clause `counts` the counts are those of a run that the text answers for.
pub fn play_scenario<I: Source, O: Outlet>(
    alloc: Global,
    key: TableKey,
    scenario: Scenario,
    asked: Query,
    input: &mut I,
    output: &mut O,
) -> Result<Answer, SimulationFault>
    ensures ok { IfOk result (λ a. AnswersIn scenario asked (I.tape input.old) (I.tape input.new) (O.tape output.old) (O.tape output.new)
        (string_bytes a.text)) }
    ensures counts { IfOk result (λ a. CountedIn scenario asked (I.tape input.old) (I.tape input.new) (O.tape output.old) (O.tape output.new)
        (string_bytes a.text) a.counts) }
    ensures kept { IfOk result (λ a.
        (answers : AnswersIn scenario asked (I.tape input.old) (I.tape input.new) (O.tape output.old) (O.tape output.new) (string_bytes a.text)) →
        KeepsPromises scenario answers.trace) }
    ensures stopped { IfErr result (StoppedIn scenario (I.tape input.old) (I.tape input.new) (O.tape output.old) (O.tape output.new)) }
{
    let _slots = scenario.size.slots();
    scenario.catalogue.keeps_doubles_out();
    match summed_by(asked, scenario.idle) {
        Some(wanted) => play_summed(alloc, key, scenario, wanted, input, output),
        None => play_noted(alloc, key, scenario, asked, input, output),
    }
}

/// A listing that was given up, with its pages, unless memory was refused before the run.
#[derive(Debug, Drop)]
pub struct ListingGivenUp<P> {
    pub fault: SimulationFault,
    pub pages: Option<P>,
}

// The pages of notes, if there are any.
fn pages_of<P: Pages>(given_up: GivenUp<PagedNotes<P>>) -> ListingGivenUp<P>
    ensures { result.fault ≡ given_up.fault }
{
    ListingGivenUp {
        fault: given_up.fault,
        pages: given_up.notes.map(PagedNotes::into_pages),
    }
}

// Plays a part for a report whose listing goes to pages as the run goes.
fn play_paged<P: Pages, I: Source, O: Outlet>(
    alloc: Global,
    key: TableKey,
    part: PartSetup<Scenario>,
    listing: Listing<P>,
    input: &mut I,
    output: &mut O,
) -> Result<(Answer, P), ListingGivenUp<P>>
    ensures ok { let s = part.whole in
        IfOk result (λ r. AnswersBy (λ l i t p e.
        IsToldAnswer (λ first pages text whole. P.told first pages text whole) listing.wanted (listing.pages ∷ []) r.1 r.0 l i (part_trace part.only t) p e)
        (part_of part.only (cluster_in s)) (choice_in s) (plan_in s) (lookups_in s) s.idle
        (I.tape input.old) (I.tape input.new) (O.tape output.old) (O.tape output.new)) }
    ensures stopped { let s = part.whole in IfErr result (λ g. Stopped (part_of part.only (cluster_in s)) (choice_in s) (plan_in s)
        (I.tape input.old) (I.tape input.new) (O.tape output.old) (O.tape output.new) g.fault) }
{
    let asking = match asking_paged(alloc, key, listing) {
        Ok(asking) => asking,
        Err(_) => {
            return Err(ListingGivenUp {
                fault: SimulationFault::Memory,
                pages: None,
            });
        }
    };
    match play_named(alloc, key, part, asking, input, output) {
        Ok((answer, notes)) => Ok((answer, notes.into_pages())),
        Err(given_up) => Err(pages_of(given_up)),
    }
}

/// The same of a report whose listing goes to pages as the run goes, so that memory doesn't grow with it. The whole report is
/// what the pages were told, with the answer's text behind it. Where a page can't be turned the fault is Memory. The run keeps
/// the promises too.
pub fn play_listed<P: Pages, I: Source, O: Outlet>(
    alloc: Global,
    key: TableKey,
    scenario: Scenario,
    listing: Listing<P>,
    input: &mut I,
    output: &mut O,
) -> Result<(Answer, P), ListingGivenUp<P>>
    ensures ok { IfOk result (λ r. ToldIn scenario listing.wanted (λ text whole. P.told listing.pages r.1 text whole)
        (I.tape input.old) (I.tape input.new) (O.tape output.old) (O.tape output.new) (string_bytes r.0.text) r.0.counts) }
    ensures kept { IfOk result (λ r. (whole : List ℕ)
        (answers : AnswersIn scenario (Report listing.wanted) (I.tape input.old) (I.tape input.new) (O.tape output.old) (O.tape output.new) whole) →
        KeepsPromises scenario answers.trace) }
    ensures stopped { IfErr result (λ g. StoppedIn scenario (I.tape input.old) (I.tape input.new) (O.tape output.old) (O.tape output.new) g.fault) }
{
    let _slots = scenario.size.slots();
    scenario.catalogue.keeps_doubles_out();
    let part = PartSetup {
        only: None,
        whole: scenario,
    };
    match play_paged(alloc, key, part, listing, input, output) {
        Ok(told) => Ok(told),
        Err(given_up) => Err(given_up),
    }
}

/// One node's part of the same run: the same steps and the same choices of the spreader, but only that node's events are
/// judged and told. Its sends, its events and their outcomes are those of the whole run; events are numbered from 0 within the
/// part. What is said of the capture's records is the whole run's. Where no node is named all are played.
///
/// By the clause `kept` the whole run, of which this is the part, keeps the promises.
pub fn play_part<P: Pages, I: Source, O: Outlet>(
    alloc: Global,
    key: TableKey,
    part: PartSetup<Scenario>,
    listing: Listing<P>,
    input: &mut I,
    output: &mut O,
) -> Result<(Answer, P), ListingGivenUp<P>>
    ensures ok { IfOk result (λ r. PartToldIn part.only part.whole listing.wanted (λ text whole. P.told listing.pages r.1 text whole)
        (I.tape input.old) (I.tape input.new) (O.tape output.old) (O.tape output.new) (string_bytes r.0.text) r.0.counts) }
    ensures kept { IfOk result (λ r. PartKeeps part.only part.whole (I.tape input.old) (I.tape input.new) (O.tape output.old) (O.tape output.new)) }
    ensures stopped { IfErr result (λ g.
        PartStoppedIn part.only part.whole (I.tape input.old) (I.tape input.new) (O.tape output.old) (O.tape output.new) g.fault) }
{
    let PartSetup { only, whole } = part;
    let _slots = whole.size.slots();
    whole.catalogue.keeps_doubles_out();
    let part = PartSetup { only, whole };
    match play_paged(alloc, key, part, listing, input, output) {
        Ok(told) => Ok(told),
        Err(given_up) => Err(given_up),
    }
}

// The pages of notes by which connections are told, if there are any.
fn turned_pages_of<P: Pages>(given_up: GivenUp<TurnedNotes<P>>) -> ListingGivenUp<P>
    ensures { result.fault ≡ given_up.fault }
{
    ListingGivenUp {
        fault: given_up.fault,
        pages: given_up.notes.map(TurnedNotes::into_pages),
    }
}

// Plays a part for a report in which connections are told by the ordinals.
fn play_turned_part<P: Pages, I: Source, O: Outlet>(
    alloc: Global,
    key: TableKey,
    part: PartSetup<Scenario>,
    listing: TurnedListing<P>,
    input: &mut I,
    output: &mut O,
) -> Result<(Answer, P), ListingGivenUp<P>>
    ensures ok { let s = part.whole in
        IfOk result (λ r. AnswersBy (λ l i t p e.
        IsTurnedAnswer (λ first pages text whole. P.told first pages text whole) listing.listing.wanted (listing.listing.pages ∷ []) (listing.ordinals
        ∷ []) r.1 r.0 l i (part_trace part.only t) p e)
        (part_of part.only (cluster_in s)) (choice_in s) (plan_in s) (lookups_in s) s.idle
        (I.tape input.old) (I.tape input.new) (O.tape output.old) (O.tape output.new)) }
    ensures stopped { let s = part.whole in IfErr result (λ g. Stopped (part_of part.only (cluster_in s)) (choice_in s) (plan_in s)
        (I.tape input.old) (I.tape input.new) (O.tape output.old) (O.tape output.new) g.fault) }
{
    let asking = match asking_turned(alloc, key, listing) {
        Ok(asking) => asking,
        Err(_) => {
            return Err(ListingGivenUp {
                fault: SimulationFault::Memory,
                pages: None,
            });
        }
    };
    match play_named(alloc, key, part, asking, input, output) {
        Ok((answer, notes)) => Ok((answer, notes.into_pages())),
        Err(given_up) => Err(turned_pages_of(given_up)),
    }
}

/// One node's part of the same run as in [`play_part`], or the whole where no node is named. In what is told of connections, which
/// are the splits and the summary, a flow that begins again is another connection: which one of its flow a packet belongs to is
/// the ordinal of its record.
///
/// By the clause `kept` the whole run, of which this is the part, keeps the promises.
pub fn play_turned<P: Pages, I: Source, O: Outlet>(
    alloc: Global,
    key: TableKey,
    part: PartSetup<Scenario>,
    listing: TurnedListing<P>,
    input: &mut I,
    output: &mut O,
) -> Result<(Answer, P), ListingGivenUp<P>>
    ensures ok { IfOk result (λ r. TurnedToldIn listing.ordinals part.only part.whole listing.listing.wanted
        (λ text whole. P.told listing.listing.pages r.1 text whole)
        (I.tape input.old) (I.tape input.new) (O.tape output.old) (O.tape output.new) (string_bytes r.0.text) r.0.counts) }
    ensures kept { IfOk result (λ r. PartKeeps part.only part.whole (I.tape input.old) (I.tape input.new) (O.tape output.old) (O.tape output.new)) }
    ensures stopped { IfErr result (λ g.
        PartStoppedIn part.only part.whole (I.tape input.old) (I.tape input.new) (O.tape output.old) (O.tape output.new) g.fault) }
{
    let PartSetup { only, whole } = part;
    let _slots = whole.size.slots();
    whole.catalogue.keeps_doubles_out();
    let part = PartSetup { only, whole };
    match play_turned_part(alloc, key, part, listing, input, output) {
        Ok(told) => Ok(told),
        Err(given_up) => Err(given_up),
    }
}
