//! What a scenario's steps do, as far as warnings go by it.
ghost use Rattle.std.specs.Prelude.{◌≡◌, true};
ghost use Rattle.std.specs.List.{list_any};
ghost use Rattle.scenario_diagnostics.specs.Warnings.{is_known, gives, live_after, delivers, comes, lacking};

use event_trace::ScenarioStep;
use pool_versions::Catalogue;
use scenario::TimedStep;

// Whether the catalogue has a version.
fn is_known(catalogue: &Catalogue, version: u32) -> bool
    ensures { result ≡ is_known catalogue.now version }
{
    catalogue.get(version).is_some()
}

// Whether a step installs a version of the catalogue on a node.
fn gives(catalogue: &Catalogue, node: u16, step: &TimedStep) -> bool
    ensures { result ≡ gives catalogue.now node step.now }
{
    match step {
        TimedStep::Counted(ScenarioStep::Install { node: at, version }) => {
            *at == node && is_known(catalogue, *version)
        }
        _ => false,
    }
}

/// Whether one of the steps installs a version of the catalogue on a node.
pub(crate) fn give(catalogue: &Catalogue, node: u16, steps: &[TimedStep]) -> bool
    ensures { result ≡ list_any (λ s. gives catalogue.now node s) steps.now }
{
    steps.iter().any(|step| gives(catalogue, node, step))
}

// Whether a node is live behind a step.
fn live_after(node: u16, is_live: bool, step: &TimedStep) -> bool
    ensures { result ≡ live_after node is_live step.now }
{
    match step {
        TimedStep::Counted(ScenarioStep::Live(nodes)) => nodes.contains(&node),
        _ => is_live,
    }
}

// Whether a step delivers packets.
fn delivers(step: &TimedStep) -> bool
    ensures { result ≡ delivers step.now }
{
    matches!(
        step,
        TimedStep::Counted(ScenarioStep::Take(_) | ScenarioStep::Again(_)) | TimedStep::Until(_)
    )
}

/// Whether a node is live at a step that delivers packets.
pub(crate) fn comes(node: u16, steps: &[TimedStep]) -> bool
    ensures { result ≡ comes node true steps.now }
{
    let mut is_live = true;
    for step in steps {
        if is_live && delivers(step) {
            return true;
        }
        is_live = live_after(node, is_live, step);
    }
    false
}

/// The version that a step installs, where the catalogue lacks it.
pub(crate) fn lacking(catalogue: &Catalogue, step: &TimedStep) -> Option<u32>
    ensures { result ≡ lacking catalogue.now step.now }
{
    match *step {
        TimedStep::Counted(ScenarioStep::Install { version, .. }) => {
            if is_known(catalogue, version) {
                None
            } else {
                Some(version)
            }
        }
        _ => None,
    }
}
