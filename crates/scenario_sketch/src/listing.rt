//! The destinations that are services.
ghost use Rattle.std.specs.Prelude.{◌≡◌, filter, not, IfOk};
ghost use Rattle.scenario_sketch.specs.Hops.{destinations_in, is_other_direction};

use crate::counted::Counted;
use crate::origins::{Origins, outranks};
use crate::tally::{HANDFUL, Tally};
use std::alloc::{AllocError, Global};

// Whether a destination is the other direction of another one.
fn is_other_direction(tally: &Tally, origins: &Origins, counted: &Counted) -> bool
    requires { tally.now ≡ destinations_in origins.now }
    ensures { result ≡ is_other_direction origins.now counted.now }
{
    let Some(origin) = origins.of(counted.service) else {
        return false;
    };
    if tally.packets(origin.first) <= HANDFUL {
        return false;
    }
    match origins.of(origin.first) {
        Some(service) => outranks(service, origin),
        None => false,
    }
}

/// The destinations that aren't the other direction of another one, in the same order.
pub(crate) fn listed(
    alloc: Global,
    tally: &Tally,
    origins: &Origins,
    ranked: &[Counted],
) -> Result<Vec<Counted>, AllocError>
    requires { tally.now ≡ destinations_in origins.now }
    ensures { IfOk result (λ v. v.items ≡ filter (λ c. not (is_other_direction origins.now c)) ranked.now) }
{
    let mut services = Vec::new(alloc);
    for counted in ranked {
        if !is_other_direction(tally, origins, counted) {
            services.push(*counted)?;
        }
    }
    Ok(services)
}
