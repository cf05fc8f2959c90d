//! Warnings as text.
ghost use Rattle.std.specs.Prelude.{◌≡◌, IfOk, string_bytes};
ghost use Rattle.scenario_diagnostics.specs.Texts.{unknown_text, bare_text, empty_text, warning_text};

use crate::warned::Warning;
use pool_versions::ServiceKey;
use rollout_plan::ServiceText;
use std::alloc::{AllocError, Global};

fn unknown_text(alloc: Global, version: u32) -> Result<String, AllocError>
    ensures { IfOk result (λ s. string_bytes s ≡ unknown_text version) }
{
    format!(in alloc; "a step installs version {version}, which the catalogue lacks")
}

fn bare_text(alloc: Global, node: u16) -> Result<String, AllocError>
    ensures { IfOk result (λ s. string_bytes s ≡ bare_text node) }
{
    format!(in alloc; "node {node} is live when packets come, and never has a version")
}

fn empty_text(alloc: Global, version: u32, key: ServiceKey) -> Result<String, AllocError>
    ensures { IfOk result (λ s. string_bytes s ≡ empty_text version key) }
{
    let service = ServiceText(key);
    format!(in alloc; "service {service} of version {version} has no members")
}

/// A warning as text.
pub fn warning_text(alloc: Global, warning: &Warning) -> Result<String, AllocError>
    ensures { IfOk result (λ s. string_bytes s ≡ warning_text warning.now) }
{
    match *warning {
        Warning::UnknownVersion { version } => unknown_text(alloc, version),
        Warning::NoVersion { node } => bare_text(alloc, node),
        Warning::NoMembers { version, service } => empty_text(alloc, version, service),
    }
}
