//! Rings that take packets, and a packet's way to one of them.
ghost use Rattle.std.specs.Prelude.{◌≡◌, ◌≤◌, ◌<◌, ℕ, Bool, true, false, length, map};
ghost use Rattle.steering.specs.Steering.{home_of, refuses, place_for, cursor_after, IsBelow};
ghost use Rattle.thread_records.specs.Journals.{placed_on, no_marks};

use cluster_node::Item;
use hash_laws::FlowHash;
use steering::{Placed, Steerer};

/// The rings of a node's workers. A ring may refuse what it is offered, and says so. What it says need not be true: that a
/// ring took what it then loses, or refused too early, is found when a life or the run ends.
pub trait Rings {
    /// Whether no ring refuses what it is offered: it takes that once there is room.
    ghost paced: { Bool };

    /// Offers a packet to the ring of a worker, and answers whether the ring took it.
    fn offer(&mut self, worker: u16, item: Item) -> bool
        ensures takes { paced ≡ true → result ≡ true };
}

/// Where a packet went, and the marks of the rings that refused it.
#[derive(Clone, Copy)]
pub(crate) struct Tried {
    pub(crate) refused: [bool; 16],
    pub(crate) placed: Placed,
    pub(crate) early: bool,
}

// Offers a packet to its home, and then to the others from the cursor on, until a ring takes it. `early` says whether a
// ring refused, now or before, that has taken fewer packets than it has places.
pub(crate) fn steer<H: FlowHash, R: Rings>(
    steerer: &mut Steerer,
    hash: &H,
    item: Item,
    rings: &mut R,
    taken: &[Vec<Item>],
    ring: u32,
    was_early: bool,
) -> Tried
    requires some { 0 < steerer.old.workers }
    requires limit { steerer.old.workers ≤ 16 }
    requires lists { length taken.now ≡ steerer.old.workers }
    ensures placed { result.placed ≡ place_for result.refused steerer.old.workers
        (home_of (H.plain hash.now) steerer.old.workers item.flow) steerer.old.cursor }
    ensures below { IsBelow steerer.old.workers result.placed }
    ensures cursor { steerer.new.cursor ≡ cursor_after
        (refuses result.refused (home_of (H.plain hash.now) steerer.old.workers item.flow)) steerer.old.workers steerer.old.cursor }
    ensures workers { steerer.new.workers ≡ steerer.old.workers }
    ensures paced { R.paced ≡ true → result.refused ≡ no_marks }
    ensures due { result.early ≡ false → (was_early ≡ false) × ((w : ℕ) → refuses result.refused w ≡ true →
        ring ≤ length (placed_on (map (λ v. v.items) taken.now) w)) }
{
    let mut refused = [false; 16];
    let mut early = was_early;
    let mut worker = steerer.begin(hash, &item.flow);
    loop {
        if !refused[worker as usize] && rings.offer(worker, item) {
            return Tried {
                refused,
                placed: Placed::Worker(worker),
                early,
            };
        }
        if taken[worker as usize].len() < ring as usize {
            early = true;
        }
        refused[worker as usize] = true;
        match steerer.next_try() {
            Placed::Worker(next) => worker = next,
            Placed::RingsFull => {
                return Tried {
                    refused,
                    placed: Placed::RingsFull,
                    early,
                };
            }
        }
    }
}
