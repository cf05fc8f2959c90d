//! Reads a scenario.
ghost use Rattle.std.specs.Prelude.{◌≡◌, ◌≤◌, ℕ, List, length, map, string_bytes, option_map, IfOk, IfErr, Ok, None};
ghost use Rattle.toml.specs.View.{table_view};
ghost use Rattle.pool_versions.specs.declared.backend.Member.{Member};
ghost use Rattle.version_drafts.specs.Plain.{PlainVersion, plain_version};
ghost use Rattle.version_drafts.specs.Drafts.{plain_version_draft};
ghost use Rattle.scenario_pools.specs.Writing.{versions_of};
ghost use Rattle.scenario_places.specs.MemberPlaces.{word_place};
ghost use Rattle.scenario_places.specs.Catalogues.{IsCatalogueOf, IsPoolRefused, IsPoolAt};
ghost use Rattle.scenario.specs.Steps.{plain_timed};
ghost use Rattle.scenario.specs.Told.{steps_of};
ghost use Rattle.scenario.specs.declared.playing.Played.{Played};
ghost use Rattle.scenario.specs.declared.playing.Played.TheVariants.{OnThreads};
ghost use Rattle.scenario.specs.Meaning.{IsDocument, IsRefused, IsDraftRefused, IsLimited, IsSupported, AreVersionsRefused, AreStepsRefused, Means};
ghost use Rattle.scenario.specs.Meaning.{plan_of, plan_of_draft, plan_view, plain_draft, pool_refused, pools_refused};
ghost use Rattle.scenario.specs.Places.{IsAt, IsDraftAt, AreVersionsAt, AreRefusedAt};

use crate::draft::{Draft, draft_in};
use crate::fault::ScenarioFault;
use crate::plan::Scenario;
use crate::playing::Played;
use crate::refused::Refused;
use crate::threads::ThreadScenario;
use crate::told::{StepRules, add_told, told_of};
use backend_names::TableSize;
use pool_versions::{Catalogue, PoolFault, Version};
use scenario_keys::{Format, MOST_STEPS, format_of};
use scenario_places::{RefusedPools, catalogue_of, word_place};
use scenario_pools::{BadWord, PoolsFault, versions_of, word_of_member};
use std::alloc::Global;
use timed_steps::TimedStep;
use toml::Table;
use version_drafts::{Place, VersionDraft};

// The most bytes of a scenario's text.
const LONGEST: usize = 1_048_576;

// The document that a text is.
fn document(alloc: Global, text: &[u8]) -> Result<Table, ScenarioFault>
    ensures ok { IfOk result (λ t. IsDocument text.now (table_view t)) }
    ensures refused { IfErr result (λ fault. (played : Played) → IsRefused played text.now fault) }
    ensures place { IfErr result (λ fault. IsAt text.now fault None) }
{
    if text.len() > LONGEST {
        return Err(ScenarioFault::TooLong);
    }
    match toml::table_from_slice(alloc, text) {
        Ok(table) => Ok(table),
        Err(e) if e.is_memory() => Err(ScenarioFault::Memory),
        Err(_) => Err(ScenarioFault::BadToml),
    }
}

// The steps that some texts say.
fn steps_of(
    alloc: Global,
    rules: StepRules,
    texts: &[String],
) -> Result<Vec<TimedStep>, ScenarioFault>
    requires { length texts.now ≤ 100000 }
    ensures ok { IfOk result (λ v. steps_of rules 100000 (map string_bytes texts.now) ≡ Ok (map plain_timed v.items)) }
    ensures few { IfOk result (λ v. length v.items ≤ 100000) }
    ensures refused { IfErr result (AreStepsRefused rules (map string_bytes texts.now)) }
{
    let mut steps: Vec<TimedStep> = Vec::new(alloc);
    for (n, text) in texts.iter().enumerate() {
        let room = MOST_STEPS - steps.len();
        let Some(told) = told_of(alloc, rules, room, text.as_bytes())? else {
            return Err(ScenarioFault::BadStep(n as u32));
        };
        let Ok(()) = add_told(&mut steps, told, rules.nodes) else {
            return Err(ScenarioFault::Memory);
        };
    }
    Ok(steps)
}

fn pools_refused(fault: PoolsFault) -> ScenarioFault
    ensures { result ≡ pools_refused fault }
{
    match fault {
        PoolsFault::BadMember => ScenarioFault::BadMember,
        PoolsFault::TooMany => ScenarioFault::Pool(PoolFault::TooMany),
        PoolsFault::Memory => ScenarioFault::Memory,
    }
}

// The place of a word of a document, by the number of its version.
fn place_of_word(table: &Table, word: Option<(usize, BadWord)>) -> Option<Place>
    ensures { result ≡ option_map (λ w. word_place (table_view table.now) w.0 w.1) word }
{
    match word {
        Some((version, word)) => Some(word_place(table, version, word)),
        None => None,
    }
}

// The versions that some drafts of a document mean.
fn written(alloc: Global, table: &Table, drafts: &[VersionDraft]) -> Result<Vec<Version>, Refused>
    ensures ok { IfOk result (λ v. versions_of (map plain_version_draft drafts.now) ≡ Ok (map plain_version v.items)) }
    ensures refused { IfErr result (λ r. AreVersionsRefused (map plain_version_draft drafts.now) r.fault) }
    ensures place { IfErr result (λ r. AreVersionsAt (table_view table.now) (map plain_version_draft drafts.now) r.fault r.place) }
{
    match versions_of(alloc, drafts) {
        Ok(versions) => Ok(versions),
        Err(unwritten) => Err(Refused {
            fault: pools_refused(unwritten.fault),
            place: place_of_word(table, unwritten.word),
        }),
    }
}

fn pool_refused(fault: PoolFault) -> ScenarioFault
    ensures { result ≡ pool_refused fault }
{
    match fault {
        PoolFault::Memory => ScenarioFault::Memory,
        fault => ScenarioFault::Pool(fault),
    }
}

// What is told of versions that a catalogue refused. The place is told in the drafts, which are written out again for that.
fn drafted(alloc: Global, drafts: &[VersionDraft], refused: RefusedPools) -> Refused
    ensures { let ds = map plain_version_draft drafts.now in (size : ℕ) (vs : List (PlainVersion Member)) → versions_of ds ≡ Ok vs →
        IsPoolRefused size vs refused.fault → IsPoolAt size vs refused.fault refused.place → AreRefusedAt size ds vs result }
{
    let RefusedPools { fault, place } = refused;
    match (versions_of(alloc, drafts), place) {
        (Ok(versions), Some(place)) => Refused {
            fault: pool_refused(fault),
            place: Some(word_of_member(drafts, versions.as_slice(), place)),
        },
        _ => Refused {
            fault: ScenarioFault::Memory,
            place: None,
        },
    }
}

// The catalogue of the versions of some drafts.
fn catalogue_for(
    alloc: Global,
    size: TableSize,
    drafts: &[VersionDraft],
    versions: Vec<Version>,
) -> Result<Catalogue, Refused>
    ensures ok { IfOk result (IsCatalogueOf size (map plain_version versions.items)) }
    ensures refused { let ds = map plain_version_draft drafts.now in let vs = map plain_version versions.items in
        versions_of ds ≡ Ok vs → IfErr result (AreRefusedAt size ds vs) }
{
    match catalogue_of(alloc, size, versions) {
        Ok(catalogue) => Ok(catalogue),
        Err(refused) => Err(drafted(alloc, drafts, refused)),
    }
}

// The scenario of a draft of a format, which is played so.
#[tactic(auto, unfolding(crate::specs::Meaning::plan_of_draft))]
fn scenario_of(
    alloc: Global,
    format: Format,
    played: Played,
    table: &Table,
    draft: Draft,
) -> Result<Scenario, Refused>
    requires { IsLimited draft }
    ensures ok { IfOk result (λ s. plan_of_draft format played (plain_draft draft) ≡ Ok (plan_view s)) }
    ensures refused { IfErr result (λ r. IsDraftRefused format played (plain_draft draft) r.fault) }
    ensures place { IfErr result (λ r. IsDraftAt (table_view table.now) (plain_draft draft) r.fault r.place) }
{
    let Draft {
        choices,
        limits,
        nodes,
        versions,
        steps,
    } = draft;
    let drafts = versions.as_slice();
    let versions = written(alloc, table, drafts)?;
    let catalogue = catalogue_for(alloc, choices.size, drafts, versions)?;
    let rules = StepRules {
        format,
        played,
        nodes: nodes.len() as u16,
        workers: limits.workers,
    };
    let steps = match steps_of(alloc, rules, steps.as_slice()) {
        Ok(steps) => steps,
        Err(fault) => return Err(Refused { fault, place: None }),
    };
    Ok(Scenario {
        size: choices.size,
        hash: choices.hash,
        scheme: choices.scheme,
        spread: choices.spread,
        workers: limits.workers,
        capacity: limits.capacity,
        ring: limits.ring,
        check: limits.check,
        idle: limits.idle,
        nodes,
        catalogue,
        steps,
    })
}

/// Reads a scenario that is played so. Where it is refused because of a key, of a word or of a version, it says at which place.
#[tactic(auto, unfolding(crate::specs::Meaning::plan_of))]
pub fn read_placed(alloc: Global, played: Played, text: &[u8]) -> Result<Scenario, Refused>
    ensures means { IfOk result (Means played text.now) }
    ensures supported { IfOk result (IsSupported played) }
    ensures refused { IfErr result (λ r. IsRefused played text.now r.fault) }
    ensures place { IfErr result (λ r. IsAt text.now r.fault r.place) }
{
    let table = match document(alloc, text) {
        Ok(table) => table,
        Err(fault) => return Err(Refused { fault, place: None }),
    };
    let Some(format) = format_of(&table) else {
        let fault = ScenarioFault::BadFormat;
        return Err(Refused { fault, place: None });
    };
    let draft = match draft_in(alloc, format, &table) {
        Ok(Ok(draft)) => draft,
        Ok(Err(place)) => {
            let fault = ScenarioFault::BadKey;
            return Err(Refused {
                fault,
                place: Some(place),
            });
        }
        Err(_) => {
            let fault = ScenarioFault::Memory;
            return Err(Refused { fault, place: None });
        }
    };
    match scenario_of(alloc, format, played, &table, draft) {
        Ok(scenario) => Ok(scenario),
        Err(refused) => Err(refused),
    }
}

/// Reads a scenario that is played so: a TOML 1.1 document in UTF-8 of format 1, 2 or 3.
pub fn read(alloc: Global, played: Played, text: &[u8]) -> Result<Scenario, ScenarioFault>
    ensures means { IfOk result (Means played text.now) }
    ensures supported { IfOk result (IsSupported played) }
    ensures refused { IfErr result (IsRefused played text.now) }
{
    match read_placed(alloc, played, text) {
        Ok(scenario) => Ok(scenario),
        Err(refused) => Err(refused.fault),
    }
}

/// Reads a scenario that is played on threads. A step that a cluster on threads doesn't know is refused as BadStep, as a text is
/// that is no step.
pub fn read_for_threads(alloc: Global, text: &[u8]) -> Result<ThreadScenario, Refused>
    ensures means { IfOk result (λ t. Means OnThreads text.now t.scenario) }
    ensures refused { IfErr result (λ r. IsRefused OnThreads text.now r.fault) }
    ensures place { IfErr result (λ r. IsAt text.now r.fault r.place) }
{
    match read_placed(alloc, Played::OnThreads, text) {
        Ok(scenario) => Ok(ThreadScenario { scenario }),
        Err(refused) => Err(refused),
    }
}
