//! The catalogue of some versions, or where it refuses them.
ghost use Rattle.std.specs.Prelude.{map, IfOk, IfErr};
ghost use Rattle.version_drafts.specs.Plain.{plain_version};
ghost use Rattle.scenario_places.specs.Catalogues.{IsCatalogueOf, IsPoolRefused, IsPoolAt};
ghost use Rattle.scenario_places.specs.PrivatePlacing.{IsPlaced};

use crate::pools::version_place;
use backend_names::TableSize;
use pool_versions::{Catalogue, PoolFault, RefusedVersion, Version};
use std::alloc::Global;
use version_drafts::Place;

/// Why versions can't be those of a catalogue, and where.
#[derive(Clone, Copy, Debug, PartialEq, Eq)]
pub struct RefusedPools {
    /// The fault of the first version that has one.
    pub fault: PoolFault,
    /// A number, a service or a member that an earlier one has, or the first past a limit. None where memory was refused.
    pub place: Option<Place>,
}

// What is told of a version that a catalogue refused.
fn placed(alloc: Global, catalogue: &Catalogue, refused: &RefusedVersion) -> RefusedPools
    ensures { IsPlaced catalogue.now refused.now.version refused.now.fault result.fault result.place }
{
    let size = catalogue.size();
    let fault = refused.fault;
    match (
        fault,
        version_place(alloc, size, catalogue.versions(), &refused.version),
    ) {
        (PoolFault::Memory, _) | (_, Err(_)) => RefusedPools {
            fault: PoolFault::Memory,
            place: None,
        },
        (fault, Ok(place)) => RefusedPools { fault, place },
    }
}

/// The catalogue of some versions, added in order. Else the fault of the first that it refuses, and where that one has it.
pub fn catalogue_of(
    alloc: Global,
    size: TableSize,
    mut versions: Vec<Version>,
) -> Result<Catalogue, RefusedPools>
    ensures ok { IfOk result (IsCatalogueOf size (map plain_version versions.items)) }
    ensures refused { IfErr result (λ r. IsPoolRefused size (map plain_version versions.items) r.fault) }
    ensures place { IfErr result (λ r. IsPoolAt size (map plain_version versions.items) r.fault r.place) }
{
    let mut catalogue = Catalogue::new(alloc, size);
    versions.reverse();
    while let Some(version) = versions.pop() {
        match catalogue.offer(version) {
            Ok(()) => {}
            Err(refused) => return Err(placed(alloc, &catalogue, &refused)),
        }
    }
    Ok(catalogue)
}
