//! What a board of version numbers promises.
ghost use Rattle.std.specs.Prelude.{◌≡◌, ◌++◌, ◌∷◌, [], List, ℕ, ◌<◌, ◌≤◌, All, MatchResult};
ghost use Rattle.version_board.specs.Numbers.{newest};

use thiserror::Error;

/// The number isn't above the one that was published last. Nothing was written.
#[derive(Clone, Copy, Debug, PartialEq, Eq, Drop, Error)]
#[error("the number isn't above the last that was published")]
pub struct NotNewer;

/// A board of version numbers: one seat publishes numbers that ascend, and the other seats look at the newest.
///
/// A seat is handed to its own board. Neither call waits for another thread, and neither takes memory.
pub trait VersionBoard {
    /// The seat of the one that publishes.
    type PublisherSeat;

    /// The seat of a worker, which looks.
    type WorkerSeat;

    // The seat belongs to this board.
    ghost publisher_of: { Self → Self.PublisherSeat → Type 0 };

    ghost worker_of: { Self → Self.WorkerSeat → Type 0 };

    // The board's first number and then those published.
    ghost published: { Self.PublisherSeat → List ℕ };

    // What a worker's seat has seen, the oldest first.
    ghost seen: { Self.WorkerSeat → List ℕ };

    /// Publishes a number, in one atomic step. A number that isn't above the last one is refused.
    fn publish(&self, seat: &mut Self::PublisherSeat, number: u32) -> Result<(), NotNewer>
        requires { publisher_of self.now seat.old }
        ensures own { publisher_of self.now seat.new }
        ensures published { MatchResult result (λ _. (newest (published seat.old) < number)
            × (published seat.new ≡ published seat.old ++ number ∷ [])) (λ _. (number ≤ newest (published seat.old))
            × (published seat.new ≡ published seat.old)) };

    /// Tells the workers to halt, in one atomic step. A board that was told so stays so.
    fn halt(&self, seat: &mut Self::PublisherSeat)
        requires { publisher_of self.now seat.old }
        ensures own { publisher_of self.now seat.new }
        ensures published { published seat.new ≡ published seat.old };

    /// Whether the workers were told to halt, read in one atomic step.
    fn heed(&self, seat: &mut Self::WorkerSeat) -> bool
        requires { worker_of self.now seat.old }
        ensures own { worker_of self.now seat.new }
        ensures seen { seen seat.new ≡ seen seat.old };

    /// The newest number, read in one atomic step. It is never less than the seat saw before.
    fn look(&self, seat: &mut Self::WorkerSeat) -> u32
        requires { worker_of self.now seat.old }
        ensures own { worker_of self.now seat.new }
        ensures seen { seen seat.new ≡ seen seat.old ++ result ∷ [] }
        ensures never_less { All (λ n. n ≤ result) (seen seat.old) };
}
