//! What may not be as it was meant in a scenario that is one.
ghost use Rattle.std.specs.Prelude.{◌≡◌, ◌++◌, IfOk, OnOk};
ghost use Rattle.std.specs.List.{list_any, flat_map};
ghost use Rattle.scenario_diagnostics.specs.Warnings.{tells, told_of, told_after, unknown_after, bare_at, bare_below, empty_at, empty_in, warnings_of};

use crate::step_facts::{comes, give, lacking};
use pool_versions::{Catalogue, Service, ServiceKey, Version};
use scenario::{Scenario, TimedStep};
use std::alloc::{AllocError, Global};

/// What a scenario may not mean as it was meant.
#[derive(Clone, Copy, Debug, PartialEq, Eq)]
pub enum Warning {
    /// A step installs a version that the catalogue lacks.
    UnknownVersion { version: u32 },
    /// A node is live when packets come, and no step installs a version of the catalogue on it.
    NoVersion { node: u16 },
    /// A service of a version has no members.
    NoMembers { version: u32, service: ServiceKey },
}

// Whether a version was warned of.
fn is_told(version: u32, warnings: &[Warning]) -> bool
    ensures { result ≡ list_any (tells version) warnings.now }
{
    warnings.iter().any(|warning| {
        matches!(warning, Warning::UnknownVersion { version: told } if *told == version)
    })
}

// Warns of a version, unless that was done.
fn warn_of_version(version: u32, warnings: &mut Vec<Warning>) -> Result<(), AllocError>
    ensures { OnOk result (warnings.new.items ≡ told_of version warnings.old.items) }
{
    if !is_told(version, warnings.as_slice()) {
        warnings.push(Warning::UnknownVersion { version })?;
    }
    Ok(())
}

// Warns of the version that a step installs so.
fn warn_at(
    catalogue: &Catalogue,
    step: &TimedStep,
    warnings: &mut Vec<Warning>,
) -> Result<(), AllocError>
    ensures { OnOk result (warnings.new.items ≡ told_after catalogue.now step.now warnings.old.items) }
{
    match lacking(catalogue, step) {
        None => Ok(()),
        Some(version) => warn_of_version(version, warnings),
    }
}

// Warns of the versions that all steps install so.
fn warn_of_steps(
    catalogue: &Catalogue,
    steps: &[TimedStep],
    warnings: &mut Vec<Warning>,
) -> Result<(), AllocError>
    ensures { OnOk result (warnings.new.items ≡ unknown_after catalogue.now steps.now warnings.old.items) }
{
    for step in steps {
        warn_at(catalogue, step, warnings)?;
    }
    Ok(())
}

// Warns of a node to which packets come, and which never has a version.
fn warn_of_node(
    catalogue: &Catalogue,
    steps: &[TimedStep],
    node: u16,
    warnings: &mut Vec<Warning>,
) -> Result<(), AllocError>
    ensures { OnOk result (warnings.new.items ≡ warnings.old.items ++ bare_at catalogue.now steps.now node) }
{
    if comes(node, steps) && !give(catalogue, node, steps) {
        warnings.push(Warning::NoVersion { node })?;
    }
    Ok(())
}

// Warns of all nodes below one that are so.
fn warn_of_nodes(
    catalogue: &Catalogue,
    steps: &[TimedStep],
    nodes: u16,
    warnings: &mut Vec<Warning>,
) -> Result<(), AllocError>
    ensures { OnOk result (warnings.new.items ≡ warnings.old.items ++ bare_below catalogue.now steps.now nodes) }
{
    for node in 0..nodes {
        warn_of_node(catalogue, steps, node, warnings)?;
    }
    Ok(())
}

// Warns of a service without members.
fn warn_of_service(
    version: u32,
    service: &Service,
    warnings: &mut Vec<Warning>,
) -> Result<(), AllocError>
    ensures { OnOk result (warnings.new.items ≡ warnings.old.items ++ empty_at version service.now) }
{
    if service.members.is_empty() {
        warnings.push(Warning::NoMembers {
            version,
            service: service.key(),
        })?;
    }
    Ok(())
}

// Warns of all services of a version that are so.
fn warn_of_services(version: &Version, warnings: &mut Vec<Warning>) -> Result<(), AllocError>
    ensures { OnOk result (warnings.new.items ≡ warnings.old.items ++ empty_in version.now) }
{
    for service in version.services.as_slice() {
        warn_of_service(version.number, service, warnings)?;
    }
    Ok(())
}

// Warns of those of all versions.
fn warn_of_versions(versions: &[Version], warnings: &mut Vec<Warning>) -> Result<(), AllocError>
    ensures { OnOk result (warnings.new.items ≡ warnings.old.items ++ flat_map empty_in versions.now) }
{
    for version in versions {
        warn_of_services(version, warnings)?;
    }
    Ok(())
}

/// What a scenario may not mean as it was meant. First come the versions that steps install and that the catalogue lacks, each
/// once. Then come the nodes to which packets may come, and which never have a version, and the services without members.
pub fn warnings(alloc: Global, scenario: &Scenario) -> Result<Vec<Warning>, AllocError>
    ensures { IfOk result (λ ws. ws.items ≡ warnings_of scenario.now) }
{
    let mut warnings = Vec::new(alloc);
    let catalogue = &scenario.catalogue;
    let steps = scenario.steps.as_slice();
    warn_of_steps(catalogue, steps, &mut warnings)?;
    warn_of_nodes(catalogue, steps, scenario.nodes.len() as u16, &mut warnings)?;
    warn_of_versions(catalogue.versions(), &mut warnings)?;
    Ok(warnings)
}
