//! Which service of a scenario is asked for.
ghost use Rattle.std.specs.Prelude.{◌≡◌, ◌++◌, map, option_map, IfOk, IfErr, OnOk, Some, None};
ghost use Rattle.pool_versions.specs.Pool.{key_of};
ghost use Rattle.rollout_plan.specs.Text.{services_gone};
ghost use Rattle.scenario_tables.specs.Services.{is_named, key_named, asked_key, keys_of_both, KeyFails};

use command_faults::CliFault;
use pool_versions::{Service, ServiceKey, Version};
use rollout_plan::{ServiceText, has_service};
use std::alloc::{AllocError, Global};

// Whether a word names a service.
fn is_named(alloc: Global, key: ServiceKey, word: &str) -> Result<bool, AllocError>
    ensures { IfOk result (λ b. b ≡ is_named word.now key) }
{
    let service = ServiceText(key);
    let text = format!(in alloc; "{service}")?;
    Ok(text.as_str() == word)
}

// The service that a word names.
fn key_named(
    alloc: Global,
    keys: &[ServiceKey],
    word: &str,
) -> Result<Option<ServiceKey>, AllocError>
    ensures { IfOk result (λ k. k ≡ key_named word.now keys.now) }
{
    for key in keys {
        if is_named(alloc, *key, word)? {
            return Ok(Some(*key));
        }
    }
    Ok(None)
}

// The only service.
fn only_key(keys: &[ServiceKey]) -> Option<ServiceKey>
    ensures { result ≡ asked_key None keys.now }
{
    match keys {
        [key] => Some(*key),
        _ => None,
    }
}

/// The service that is asked for: that of the word `ADDRESS:PORT/PROTOCOL`, or where there is no word the only one. Else
/// BadService.
pub(crate) fn key_for(
    alloc: Global,
    keys: &[ServiceKey],
    word: Option<&str>,
) -> Result<ServiceKey, CliFault>
    ensures found { IfOk result (λ k. asked_key (option_map (λ w. w.now) word.entry) keys.now ≡ Some k) }
    ensures missing { IfErr result (λ fault. KeyFails fault (asked_key (option_map (λ w. w.now) word.entry) keys.now)) }
{
    let found = match word {
        None => only_key(keys),
        Some(word) => key_named(alloc, keys, word)?,
    };
    match found {
        Some(key) => Ok(key),
        None => Err(CliFault::BadService),
    }
}

fn push_keys(keys: &mut Vec<ServiceKey>, services: &[Service]) -> Result<(), AllocError>
    ensures { OnOk result (keys.new.items ≡ keys.old.items ++ map key_of services.now) }
{
    for service in services {
        keys.push(service.key())?;
    }
    Ok(())
}

// Those of services that another version lacks.
fn push_gone(
    keys: &mut Vec<ServiceKey>,
    services: &[Service],
    after: &Version,
) -> Result<(), AllocError>
    ensures { OnOk result (keys.new.items ≡ keys.old.items ++ map key_of (services_gone services.now after.now)) }
{
    for service in services {
        let key = service.key();
        if !has_service(after, key) {
            keys.push(key)?;
        }
    }
    Ok(())
}

/// The services of a version.
pub(crate) fn keys_of(alloc: Global, version: &Version) -> Result<Vec<ServiceKey>, AllocError>
    ensures { IfOk result (λ v. v.items ≡ map key_of version.now.services.items) }
{
    let mut keys = Vec::new(alloc);
    push_keys(&mut keys, version.services.as_slice())?;
    Ok(keys)
}

/// The services of two versions: those of the later one, and then those that it lacks.
pub(crate) fn keys_of_both(
    alloc: Global,
    before: &Version,
    after: &Version,
) -> Result<Vec<ServiceKey>, AllocError>
    ensures { IfOk result (λ v. v.items ≡ keys_of_both before.now after.now) }
{
    let mut keys = keys_of(alloc, after)?;
    push_gone(&mut keys, before.services.as_slice(), after)?;
    Ok(keys)
}
