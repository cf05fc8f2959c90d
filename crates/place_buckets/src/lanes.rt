//! Where something stands in a group's lanes. Several lanes are compared at once, and mostly no branch asks each of them: which
//! lane it is can't be foretold, and a processor that guesses wrong loses more than the comparisons take.
ghost use Rattle.std.specs.Prelude.{◌≡◌, ◌<◌, ◌≤◌, ◌+◌, ℕ, length, get_or, IfSome, IfNone};
ghost use Rattle.place_buckets.specs.PrivateLanes.{first_set, IsFirst};

use std::simd::prelude::*;

/// How many places a group has lanes for.
pub(crate) const LANES: usize = 12;

/// The number of the lowest bit that is set, and `lanes` where none is.
#[inline(always)]
fn first_set(mask: u64, lanes: usize) -> usize
    ensures { result ≡ first_set mask lanes }
{
    if mask == 0 {
        lanes
    } else {
        mask.trailing_zeros() as usize
    }
}

/// Which of eight tags from a lane on is the first that is this one, 8 where none is.
#[inline(always)]
fn first_of_eight(tags: &[u8], from: usize, tag: u8) -> usize
    requires { from + 8 ≤ length tags.now }
    ensures { IsFirst tags.now from 8 tag result }
{
    let same = u8x8::from_slice(&tags[from..]).simd_eq(u8x8::splat(tag));
    first_set(same.to_bitmask(), 8)
}

/// Which of four places from a lane on is the first that is this one, 4 where none is.
#[inline(always)]
fn first_of_four(places: &[u32], from: usize, place: u32) -> usize
    requires { from + 4 ≤ length places.now }
    ensures { IsFirst places.now from 4 place result }
{
    let same = u32x4::from_slice(&places[from..]).simd_eq(u32x4::splat(place));
    first_set(same.to_bitmask(), 4)
}

/// The first lane with this tag, `LANES` where none has it. Of the twelve the first eight are compared, and then the last eight.
#[inline(always)]
pub(crate) fn lane_with(tags: &[u8; LANES], tag: u8) -> usize
    ensures { IsFirst tags.now 0 LANES tag result }
{
    let lane = first_of_eight(tags, 0, tag);
    if lane < 8 {
        lane
    } else {
        4 + first_of_eight(tags, 4, tag)
    }
}

/// The first lane that is free, `LANES` where none is.
#[inline(always)]
fn first_free(places: &[u32; LANES]) -> usize
    ensures { IsFirst places.now 0 LANES 0 result }
{
    let lane = first_of_four(places, 0, 0);
    if lane < 4 {
        return lane;
    }
    let next = first_of_four(places, 4, 0);
    if next < 4 {
        return 4 + next;
    }
    8 + first_of_four(places, 8, 0)
}

/// A lane that is free.
#[inline(always)]
pub(crate) fn free_lane(places: &[u32; LANES]) -> Option<usize>
    ensures found { IfSome result (λ i. (i < LANES) × (get_or places.now i 0 ≡ 0)) }
    ensures absent { IfNone result ((i : ℕ) → i < LANES → get_or places.now i 0 ≡ 0 → ⊥) }
{
    let lane = first_free(places);
    if lane < LANES { Some(lane) } else { None }
}

/// The lane of a place, which is mostly the first that has the place's tag.
#[inline(always)]
pub(crate) fn lane_of(
    tags: &[u8; LANES],
    places: &[u32; LANES],
    tag: u8,
    place: u32,
) -> Option<usize>
    ensures found { IfSome result (λ i. (i < LANES) × (get_or places.now i 0 ≡ place)) }
    ensures absent { IfNone result ((i : ℕ) → i < LANES → get_or places.now i 0 ≡ place → ⊥) }
{
    let lane = lane_with(tags, tag);
    if lane < LANES && places[lane] == place {
        return Some(lane);
    }
    places.iter().position(|other| *other == place)
}
