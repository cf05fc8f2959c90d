//! The steps on the words of a board.
ghost use Rattle.std.specs.Prelude.{◌≡◌, ◌∷◌, [], All, Contains, IfOk, vec_len};
ghost use Rattle.version_board.specs.Seats.{IsPublisherOf, IsWatcherOf, published_by, seen_by};

use super::{Publisher, Watcher, WordBoard};
use crate::board::{NotNewer, VersionBoard};
use crate::rule::{Compares, GivesBack, Keeps, Looks, Publishes, Seats};
use atomic_table::Table;
use std::alloc::{AllocError, Global};

impl WordBoard {
    /// The board, whose newest number is `first` (0: none), with its publisher's seat and a seat for each worker.
    pub fn new(
        alloc: Global,
        workers: u16,
        first: u32,
    ) -> Result<(WordBoard, Publisher, Vec<Watcher>), AllocError>
        ensures publisher { IfOk result (λ t. IsPublisherOf t.0 t.1 × (published_by t.1 ≡ first ∷ [])) }
        ensures watchers { IfOk result (λ t. (vec_len t.2 ≡ workers) × All (λ w. IsWatcherOf t.0 w × (seen_by w ≡ first ∷ [])) t.2.items) }
    {
        let (board, mut publisher) = WordBoard::open(alloc, first)?;
        let mut watchers = Vec::new(alloc);
        for _ in 0..workers {
            let watcher = board.seat(&mut publisher, first);
            watchers.push(watcher)?;
        }
        Ok((board, publisher, watchers))
    }

    // The board with no worker yet.
    fn open(alloc: Global, first: u32) -> Result<(WordBoard, Publisher), AllocError>
        ensures { IfOk result (λ t. IsPublisherOf t.0 t.1 × (published_by t.1 ≡ first ∷ [])) }
    {
        let (table, seat) = Table::of_words(alloc, &[u64::from(first), 0], &first)?;
        Ok((WordBoard { table }, Publisher { last: first, seat }))
    }

    // One more worker's seat, split off the publisher's before it has published anything.
    fn seat(&self, publisher: &mut Publisher, first: u32) -> Watcher
        requires { IsPublisherOf self.now publisher.old × (published_by publisher.old ≡ first ∷ []) }
        ensures publisher { IsPublisherOf self.now publisher.new × (published_by publisher.new ≡ first ∷ []) }
        ensures watcher { IsWatcherOf self.now result × (seen_by result ≡ first ∷ []) }
    {
        let seat = self.table.shared.split_seat::<Seats>(&mut publisher.seat);
        Watcher { seat }
    }

    /// Takes a worker's seat back: each number that it saw is one that was published.
    pub fn gather(&self, publisher: &mut Publisher, watcher: Watcher)
        requires { IsPublisherOf self.now publisher.old × IsWatcherOf self.now watcher }
        ensures own { IsPublisherOf self.now publisher.new }
        ensures published { published_by publisher.new ≡ published_by publisher.old }
        ensures among { All (λ n. Contains (published_by publisher.new) n) (seen_by watcher) }
    {
        let Watcher { seat } = watcher;
        self.table
            .shared
            .join_seat::<GivesBack>(&mut publisher.seat, seat);
        self.table.shared.load::<Compares>(&mut publisher.seat, 0);
    }
}

impl VersionBoard for WordBoard {
    type PublisherSeat = Publisher;

    type WorkerSeat = Watcher;

    ghost publisher_of = { IsPublisherOf };

    ghost worker_of = { IsWatcherOf };

    ghost published = { published_by };

    ghost seen = { seen_by };

    fn publish(&self, seat: &mut Publisher, number: u32) -> Result<(), NotNewer> {
        if number <= seat.last {
            return Err(NotNewer);
        }
        self.table
            .shared
            .store::<Publishes>(&mut seat.seat, 0, u64::from(number));
        seat.last = number;
        Ok(())
    }

    fn halt(&self, seat: &mut Publisher) {
        self.table.shared.store::<Keeps>(&mut seat.seat, 1, 1);
    }

    fn heed(&self, seat: &mut Watcher) -> bool {
        self.table.shared.load::<Keeps>(&mut seat.seat, 1) == 1
    }

    fn look(&self, seat: &mut Watcher) -> u32 {
        self.table.shared.load::<Looks>(&mut seat.seat, 0) as u32
    }
}
