//! Backends that ascend by name are sought by halves.
ghost use Rattle.std.specs.Prelude.{◌≡◌, ◌<◌, ◌≤◌, ℕ, true, false, length, nat_eq, slice_index_or};
ghost use Rattle.std.specs.Cmp.Lexicographic.{pointwise};
ghost use Rattle.std.specs.List.{list_any};
ghost use Rattle.std.specs.List.Sorted.{IsPartitionPoint};
ghost use Rattle.pool_versions.specs.declared.backend.Backend.{Backend};
ghost use Rattle.pool_versions.specs.Pool.{AscendsByName, is_below};
ghost use Rattle.selection.specs.PrivateHalves.{is_at_head};
ghost use Rattle.selection.specs.Readied.{same_backend};

use pool_versions::Backend;

/// From the first of some places to before their end.
#[derive(Clone, Copy, Debug)]
pub struct PlaceRange {
    pub first: usize,
    pub end: usize,
}

// Whether a backend is among those of its name that a list begins with.
fn is_at_head(ups: &[Backend], backend: &Backend) -> bool
    ensures { result ≡ is_at_head backend.now ups.now }
{
    for other in ups {
        if backend.name != other.name {
            return false;
        }
        if backend.addr == other.addr {
            return true;
        }
    }
    false
}

// The first place whose backend isn't below a backend's name.
fn first_of_name(ups: &[Backend], backend: &Backend) -> usize
    requires { AscendsByName ups.now }
    ensures within { result ≤ length ups.now }
    ensures parted { IsPartitionPoint (λ c. is_below c.name backend.now.name ≡ true) (λ c. is_below c.name backend.now.name ≡ false) ups.now result }
{
    ups.partition_point(|other| other.name < backend.name)
}

// The first place from a place on whose backend has another name.
fn end_of_name(ups: &[Backend], first: usize, backend: &Backend) -> usize
    requires { first ≤ length ups.now }
    ensures low { first ≤ result }
    ensures within { result ≤ length ups.now }
    ensures other { (d : Backend) → result < length ups.now → pointwise nat_eq backend.now.name (slice_index_or ups.now result d).name ≡ false }
{
    for place in first..ups.len() {
        if backend.name != ups[place].name {
            return place;
        }
    }
    ups.len()
}

/// Whether a backend, name and address, is in a list that ascends by name.
pub fn is_among(ups: &[Backend], backend: &Backend) -> bool
    requires { AscendsByName ups.now }
    ensures { result ≡ list_any (same_backend backend.now) ups.now }
{
    let first = first_of_name(ups, backend);
    is_at_head(&ups[first..], backend)
}

/// The places of the backends of a backend's name in a list that ascends by name.
pub fn places_of_name(ups: &[Backend], backend: &Backend) -> PlaceRange
    requires { AscendsByName ups.now }
    ensures first { result.first ≤ length ups.now }
    ensures end { result.end ≤ length ups.now }
    ensures before { (k : ℕ) (d : Backend) → k < result.first → same_backend backend.now (slice_index_or ups.now k d) ≡ false }
    ensures behind { (k : ℕ) (d : Backend) → result.end ≤ k → k < length ups.now → same_backend backend.now (slice_index_or ups.now k d) ≡ false }
{
    let first = first_of_name(ups, backend);
    let end = end_of_name(ups, first, backend);
    PlaceRange { first, end }
}
