//! A board of version numbers, of which one seat publishes and others look.
ghost use Rattle.version_board.specs.Seats.{IsPublisherOf, IsWatcherOf};

use std::process::Abort;
use version_board::{NotNewer, Publisher, VersionBoard, Watcher, WordBoard};

fn looks(rt: &impl Abort, board: &WordBoard, watcher: &mut Watcher, wanted: u32)
    requires { IsWatcherOf board.now watcher.old }
    ensures { IsWatcherOf board.now watcher.new }
{
    let found = board.look(watcher);
    assert_eq!(rt; found, wanted);
}

fn heeds(rt: &impl Abort, board: &WordBoard, watcher: &mut Watcher, wanted: bool)
    requires { IsWatcherOf board.now watcher.old }
    ensures { IsWatcherOf board.now watcher.new }
{
    let found = board.heed(watcher);
    assert!(rt; found == wanted);
}

fn publishes(
    rt: &impl Abort,
    board: &WordBoard,
    publisher: &mut Publisher,
    number: u32,
    newer: bool,
)
    requires { IsPublisherOf board.now publisher.old }
    ensures { IsPublisherOf board.now publisher.new }
{
    let done = board.publish(publisher, number);
    assert!(rt; done == if newer { Ok(()) } else { Err(NotNewer) });
}

fn publish_beside(
    rt: &impl Abort,
    board: &WordBoard,
    publisher: &mut Publisher,
    watcher: &mut Watcher,
)
    requires publisher { IsPublisherOf board.now publisher.old }
    requires watcher { IsWatcherOf board.now watcher.old }
{
    looks(rt, board, watcher, 0);
    publishes(rt, board, publisher, 2, true);
    looks(rt, board, watcher, 2);
    publishes(rt, board, publisher, 2, false);
    looks(rt, board, watcher, 2);
    publishes(rt, board, publisher, 4_294_967_295, true);
    looks(rt, board, watcher, 4_294_967_295);
}

// What one seat publishes, another of the same thread sees at its next look. A number that isn't newer is refused, and
// the board stays as it was.
#[test]
fn a_look_sees_what_was_published(rt: HostRuntime) {
    let (board, mut publisher, mut watchers) = WordBoard::new(rt.alloc(), 1, 0).expect(
        &rt, "memory",
    );
    let mut watcher = watchers.pop().expect(&rt, "a seat");
    publish_beside(&rt, &board, &mut publisher, &mut watcher);
}

// Once the workers are told to halt each of them heeds it, and the numbers stay.
fn halt_beside(rt: &impl Abort, board: &WordBoard, publisher: &mut Publisher, watcher: &mut Watcher)
    requires publisher { IsPublisherOf board.now publisher.old }
    requires watcher { IsWatcherOf board.now watcher.old }
{
    heeds(rt, board, watcher, false);
    publishes(rt, board, publisher, 3, true);
    heeds(rt, board, watcher, false);
    board.halt(publisher);
    heeds(rt, board, watcher, true);
    looks(rt, board, watcher, 3);
    publishes(rt, board, publisher, 4, true);
    looks(rt, board, watcher, 4);
    heeds(rt, board, watcher, true);
}

#[test]
fn a_halt_is_heeded(rt: HostRuntime) {
    let (board, mut publisher, mut watchers) = WordBoard::new(rt.alloc(), 1, 2).expect(
        &rt, "memory",
    );
    let mut watcher = watchers.pop().expect(&rt, "a seat");
    halt_beside(&rt, &board, &mut publisher, &mut watcher);
}

// A board may begin with a number, which each seat has seen.
#[test]
fn a_board_begins_with_its_first_number(rt: HostRuntime) {
    let (board, mut publisher, mut watchers) = WordBoard::new(rt.alloc(), 16, 7).expect(
        &rt, "memory",
    );
    assert!(rt; watchers.len() == 16);
    publishes(&rt, &board, &mut publisher, 7, false);
    let mut watcher = watchers.pop().expect(&rt, "a seat");
    looks(&rt, &board, &mut watcher, 7);
    board.gather(&mut publisher, watcher);
}
