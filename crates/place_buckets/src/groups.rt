//! Places by their hashes in two slices: a group for each bucket, and a link for each place, with its hash.
ghost use Rattle.std.specs.Prelude.{◌≡◌, ◌<◌, ◌≤◌, ◌-◌, ◌^◌, ◌*◌, max, ℕ, [], ◌∷◌, ◌++◌, map, length, get_or, slice_set, true, false, IfSome, IfNone, IfOk};
ghost use Rattle.std.specs.Prelude.{IsOk, OnOk, OnErr, vec_capacity};
ghost use Rattle.place_buckets.specs.Groups.{hash_of, hash_at, next_at, bucket_of, tag_of, Inside, IsChain, AreGrouped, AreGroupedBut};

use crate::lanes::{LANES, free_lane, lane_of, lane_with};
use std::alloc::{AllocError, Global};

/// How many places come to a group on an average before there are twice as many groups. At that load one place in sixty finds
/// all lanes taken, and one in twenty is in a chain in a full table that evicts, since a place stays where it was put.
const LOAD: usize = 8;

/// The places of a bucket: some in lanes, the others in a chain. A group has 64 bytes. A search for a place that isn't there
/// mostly reads the first 16 of them and nothing else, where a chain alone leads from one address to another.
#[derive(Clone, Copy)]
pub(crate) struct Group {
    // A byte of the hash of each lane's place, which few others have. Where a lane is free it means nothing.
    tags: [u8; LANES],
    // The first place of the chain, 0 where there is none.
    overflow: u32,
    // The lanes' places, 0 where a lane is free.
    places: [u32; LANES],
}

/// A place's hash, and the next place of its chain, 0 where there is none. For a place in a lane the next one means nothing.
#[derive(Clone, Copy)]
pub(crate) struct Link {
    hash: u32,
    next: u32,
}

/// The bucket of a hash. It is spread well where the number of buckets is a power of two.
#[inline(always)]
#[tactic(auto, unfolding(crate::specs::Groups::bucket_of))]
fn bucket(hash: u32, count: usize) -> usize
    requires { 0 < count }
    ensures value { result ≡ bucket_of count hash }
    ensures within { result < count }
{
    hash as usize & (count - 1)
}

/// The byte of a hash that stands beside a lane's place.
#[inline(always)]
#[tactic(auto, unfolding(crate::specs::Groups::tag_of))]
fn tag(hash: u32) -> u8
    ensures { result ≡ tag_of hash }
{
    (hash >> 24) as u8
}

/// A place in a lane from this one on, with this tag, of which `is_sought` holds.
fn find_from<F: Fn(u32) -> bool>(group: &Group, from: usize, tag: u8, is_sought: &F) -> Option<u32>
    requires callable { (i : ℕ) → i < LANES → 0 < get_or group.now.places i 0 → F.pre is_sought.now (get_or group.now.places i 0) }
    ensures found { IfSome result (λ p. (i : ℕ) × (i < LANES) × (p ≡ get_or group.now.places i 0) × (0 < p) × F.post is_sought.now p true) }
    ensures absent { IfNone result ((i : ℕ) → from ≤ i → i < LANES → get_or group.now.tags i 0 ≡ tag → 0 < get_or group.now.places i 0 →
        F.post is_sought.now (get_or group.now.places i 0) false) }
{
    for lane in from..LANES {
        if group.tags[lane] == tag {
            let place = group.places[lane];
            if place != 0 && is_sought(place) {
                return Some(place);
            }
        }
    }
    None
}

/// A place in a lane with this tag of which `is_sought` holds. Mostly it is in the first lane with the tag, or in none.
#[inline(always)]
fn find_in_lanes<F: Fn(u32) -> bool>(group: &Group, tag: u8, is_sought: &F) -> Option<u32>
    requires callable { (i : ℕ) → i < LANES → 0 < get_or group.now.places i 0 → F.pre is_sought.now (get_or group.now.places i 0) }
    ensures found { IfSome result (λ p. (i : ℕ) × (i < LANES) × (p ≡ get_or group.now.places i 0) × (0 < p) × F.post is_sought.now p true) }
    ensures absent { IfNone result ((i : ℕ) → i < LANES → get_or group.now.tags i 0 ≡ tag → 0 < get_or group.now.places i 0 →
        F.post is_sought.now (get_or group.now.places i 0) false) }
{
    let lane = lane_with(&group.tags, tag);
    if lane == LANES {
        return None;
    }
    let place = group.places[lane];
    if place != 0 && is_sought(place) {
        return Some(place);
    }
    find_from(group, lane + 1, tag, is_sought)
}

/// A place of this hash in the chain from the first one of which `is_sought` holds.
#[inline(always)]
fn find_in_chain<F: Fn(u32) -> bool>(
    links: &[Link],
    first: u32,
    hash: u32,
    is_sought: &F,
) -> Option<u32>
    requires chain { IsChain (next_at links.now) (length links.now) first }
    requires callable { (p : ℕ) → 0 < p → p ≤ length links.now → F.pre is_sought.now p }
    ensures found { IfSome result (λ p. (0 < p) × (p ≤ length links.now) × F.post is_sought.now p true) }
    ensures absent { IfNone result ((p : ℕ) → Inside (next_at links.now) (length links.now) p first → hash_at links.now p ≡ hash →
        F.post is_sought.now p false) }
{
    let mut place = first;
    while place != 0 {
        let link = links[place as usize - 1];
        if link.hash == hash && is_sought(place) {
            return Some(place);
        }
        place = link.next;
    }
    None
}

/// A place of which `is_sought` holds, asked of the places of this hash and perhaps of some others.
#[inline(always)]
pub(crate) fn find<F: Fn(u32) -> bool>(
    groups: &[Group],
    links: &[Link],
    hash: u32,
    is_sought: F,
) -> Option<u32>
    requires some { 0 < length links.now → 0 < length groups.now }
    requires grouped { AreGrouped groups.now links.now (length links.now) }
    requires callable { (p : ℕ) → 0 < p → p ≤ length links.now → F.pre is_sought p }
    ensures found { IfSome result (λ p. (0 < p) × (p ≤ length links.now) × F.post is_sought p true) }
    ensures absent { IfNone result ((p : ℕ) → 0 < p → p ≤ length links.now → hash_at links.now p ≡ hash → F.post is_sought p false) }
{
    if groups.is_empty() {
        return None;
    }
    let group = &groups[bucket(hash, groups.len())];
    if let Some(place) = find_in_lanes(group, tag(hash), &is_sought) {
        return Some(place);
    }
    find_in_chain(links, group.overflow, hash, &is_sought)
}

/// Puts a place into its bucket: in a lane, or in front of the chain where all lanes are taken.
fn put(groups: &mut [Group], links: &mut [Link], place: u32)
    requires buckets { 0 < length groups.old }
    requires some { 0 < place }
    requires within { place ≤ length links.old }
    ensures grouped { (n : ℕ) → place ≤ n → AreGroupedBut groups.old links.old n place → AreGrouped groups.new links.new n }
    ensures hashes { map hash_of links.new ≡ map hash_of links.old }
{
    let link = &mut links[place as usize - 1];
    let group = &mut groups[bucket(link.hash, groups.len())];
    match free_lane(&group.places) {
        Some(lane) => {
            group.tags[lane] = tag(link.hash);
            group.places[lane] = place;
        }
        None => {
            link.next = group.overflow;
            group.overflow = place;
        }
    }
}

/// The place before a place, in the chain from the first one.
fn place_before(links: &[Link], first: u32, place: u32) -> u32
    requires inside { Inside (next_at links.now) (length links.now) place first }
    requires behind { first ≡ place → ⊥ }
    ensures next { next_at links.now result ≡ place }
    ensures some { 0 < result }
    ensures within { result ≤ length links.now }
    ensures among { Inside (next_at links.now) (length links.now) result first }
{
    let mut before = first;
    loop {
        let next = links[before as usize - 1].next;
        if next == place {
            return before;
        }
        before = next;
    }
}

/// Takes a place out of its bucket.
fn unlink(groups: &mut [Group], links: &mut [Link], place: u32)
    requires buckets { 0 < length groups.old }
    requires some { 0 < place }
    requires within { place ≤ length links.old }
    requires grouped { AreGrouped groups.old links.old (length links.old) }
    ensures grouped { AreGroupedBut groups.new links.new (length links.old) place }
    ensures hashes { map hash_of links.new ≡ map hash_of links.old }
{
    let link = links[place as usize - 1];
    let group = &mut groups[bucket(link.hash, groups.len())];
    if let Some(lane) = lane_of(&group.tags, &group.places, tag(link.hash), place) {
        group.places[lane] = 0;
    } else if group.overflow == place {
        group.overflow = link.next;
    } else {
        let before = place_before(links, group.overflow, place);
        links[before as usize - 1].next = link.next;
    }
}

/// Puts all places into their buckets, which are empty.
fn refill(groups: &mut [Group], links: &mut [Link])
    requires buckets { 0 < length groups.old }
    requires few { length links.old < 2 ^ 32 }
    requires grouped { AreGrouped groups.old links.old 0 }
    ensures grouped { AreGrouped groups.new links.new (length links.old) }
    ensures hashes { map hash_of links.new ≡ map hash_of links.old }
{
    for i in 0..links.len() {
        put(groups, links, i as u32 + 1);
    }
}

/// So many new groups, with all places.
fn grown(alloc: Global, links: &mut [Link], count: usize) -> Result<Vec<Group>, AllocError>
    requires some { 0 < count }
    requires few { length links.old < 2 ^ 32 }
    ensures grouped { IfOk result (λ groups. AreGrouped groups.items links.new (length links.old)) }
    ensures count { IfOk result (λ groups. length groups.items ≡ count) }
    ensures hashes { map hash_of links.new ≡ map hash_of links.old }
    ensures err { OnErr result (links.new ≡ links.old) }
{
    let mut groups = vec![in alloc; Group {
        tags: [0; LANES],
        overflow: 0,
        places: [0; LANES]
    }; count]?;
    refill(groups.as_mut_slice(), links);
    Ok(groups)
}

/// Makes the groups twice as many where `LOAD` places have come to each. So their number stays a power of two, as `bucket` wants.
fn make_room(alloc: Global, groups: &mut Vec<Group>, links: &mut [Link]) -> Result<(), AllocError>
    requires few { length links.old < 2 ^ 32 - 1 }
    requires grouped { AreGrouped groups.old.items links.old (length links.old) }
    ensures grouped { AreGrouped groups.new.items links.new (length links.old) }
    ensures hashes { map hash_of links.new ≡ map hash_of links.old }
    ensures doubled { LOAD * length groups.old.items ≤ length links.old → OnOk result (length groups.new.items ≡ max (2 * length groups.old.items) 1) }
    ensures kept { length links.old < LOAD * length groups.old.items → groups.new ≡ groups.old }
    ensures succeeds { length links.old < LOAD * length groups.old.items → IsOk result }
    ensures err { OnErr result (groups.new ≡ groups.old) }
{
    let count = groups.len();
    if links.len() / LOAD < count {
        return Ok(());
    }
    *groups = grown(alloc, links, (2 * count).max(1))?;
    Ok(())
}

/// Room for one more link: for twice as many as there are, or where those are refused for it alone.
fn reserve_link(links: &mut Vec<Link>) -> Result<(), AllocError>
    ensures same { links.new.items ≡ links.old.items }
    ensures ok { OnOk result (length links.new.items < vec_capacity links.new) }
    ensures succeeds { length links.old.items < vec_capacity links.old → IsOk result }
{
    match links.reserve(1) {
        Ok(()) => Ok(()),
        Err(_) => links.reserve_exact(1),
    }
}

/// One more place, with this hash.
fn push(groups: &mut [Group], links: &mut Vec<Link>, hash: u32) -> Result<(), AllocError>
    requires few { length links.old.items < 2 ^ 32 - 1 }
    requires buckets { 0 < length groups.old }
    requires grouped { AreGrouped groups.old links.old.items (length links.old.items) }
    ensures grouped { AreGrouped groups.new links.new.items (length links.new.items) }
    ensures ok { OnOk result (map hash_of links.new.items ≡ map hash_of links.old.items ++ hash ∷ []) }
    ensures err { OnErr result (map hash_of links.new.items ≡ map hash_of links.old.items) }
    ensures succeeds { length links.old.items < vec_capacity links.old → IsOk result }
{
    let place = links.len() as u32 + 1;
    reserve_link(links)?;
    links.push_reserved(Link { hash, next: 0 });
    put(groups, links.as_mut_slice(), place);
    Ok(())
}

/// One more place, with this hash. Where more groups are refused, those that are there have to do, and their chains grow.
pub(crate) fn add(
    alloc: Global,
    groups: &mut Vec<Group>,
    links: &mut Vec<Link>,
    hash: u32,
) -> Result<(), AllocError>
    requires few { length links.old.items < 2 ^ 32 - 1 }
    requires some { 0 < length links.old.items → 0 < length groups.old.items }
    requires grouped { AreGrouped groups.old.items links.old.items (length links.old.items) }
    ensures some { 0 < length links.new.items → 0 < length groups.new.items }
    ensures grouped { AreGrouped groups.new.items links.new.items (length links.new.items) }
    ensures ok { OnOk result (map hash_of links.new.items ≡ map hash_of links.old.items ++ hash ∷ []) }
    ensures err { OnErr result (map hash_of links.new.items ≡ map hash_of links.old.items) }
    ensures succeeds { 0 < length groups.old.items → length links.old.items < vec_capacity links.old → IsOk result }
{
    let _ = make_room(alloc, groups, links.as_mut_slice());
    if groups.is_empty() {
        return Err(AllocError);
    }
    push(groups.as_mut_slice(), links, hash)
}

/// Gives a place another hash.
pub(crate) fn rehash(groups: &mut [Group], links: &mut [Link], place: u32, hash: u32)
    requires buckets { 0 < length groups.old }
    requires some { 0 < place }
    requires within { place ≤ length links.old }
    requires grouped { AreGrouped groups.old links.old (length links.old) }
    ensures grouped { AreGrouped groups.new links.new (length links.new) }
    ensures hashes { map hash_of links.new ≡ slice_set (map hash_of links.old) (place - 1) hash }
{
    unlink(groups, links, place);
    let link = &mut links[place as usize - 1];
    link.hash = hash;
    put(groups, links, place);
}
