//! How far the threads of a run are, shown on standard error while they play: packets, the share of INPUT, the rate and the time
//! that is left.
//!
//! The words are for people, and no contract fixes them: these functions are proved safe, and tests compare what they show.
#![tactic(auto)]

use read_progress::{ReadMark, Showing, played_text};
use stats_book::Stats;
use std::sync::atomic::{AtomicBool, AtomicU64, Ordering};
use std::time::{Duration, Instant};
use thread_roles::Gate;

/// How many servings of a worker are counted at once.
const AT_ONCE: u64 = 64;

// A time in milliseconds.
fn millis(time: Duration) -> u64 {
    u64::try_from(time.as_millis()).unwrap_or(u64::MAX)
}

// What is shown of a playing, and when. Times are milliseconds from the start on.
#[derive(Drop)]
struct Progress<'a> {
    rt: &'a HostRuntime,
    showing: Showing<'a>,
    mark: &'a ReadMark,
    start: Instant,
    // When a version was prepared first, and 0 before.
    begun: AtomicU64,
    due: AtomicU64,
    played: AtomicU64,
    // A thread looks whether a status is due, and shows it.
    is_busy: AtomicBool,
    is_shown: AtomicBool,
}

impl<'a> Progress<'a> {
    // Of what will be played. Without a way to show it, or a clock, there is none.
    fn new(
        rt: &'a HostRuntime,
        showing: Option<Showing<'a>>,
        mark: &'a ReadMark,
    ) -> Option<Progress<'a>> {
        let showing = showing?;
        let start = Instant::now(rt).ok()?;
        Some(Progress {
            rt,
            showing,
            mark,
            start,
            begun: AtomicU64::new(0),
            due: AtomicU64::new(0),
            played: AtomicU64::new(0),
            is_busy: AtomicBool::new(false),
            is_shown: AtomicBool::new(false),
        })
    }

    // The time since the start, at least 1. Without a clock it stands still.
    fn now(&self) -> u64 {
        match self.start.elapsed(self.rt) {
            Ok(taken) => millis(taken).max(1),
            Err(_) => 1,
        }
    }

    // The playing begins, unless it has begun.
    fn begin(&self) {
        if self.begun.load(Ordering::SeqCst) > 0 {
            return;
        }
        let now = self.now();
        let due = now.saturating_add(millis(self.showing.delay()));
        self.due.store(due, Ordering::SeqCst);
        self.begun.store(now, Ordering::SeqCst);
    }

    // Shows how far the playing is, which has taken so long.
    fn show(&self, taken: u64) {
        let played = self.played.load(Ordering::SeqCst);
        let taken = Duration::from_millis(taken);
        let text = played_text(self.rt.alloc(), played, self.mark.packets(), taken);
        if let Ok(text) = text
            && self.showing.put(self.rt, text.as_str()).is_ok()
        {
            self.is_shown.store(true, Ordering::SeqCst);
        }
    }

    // Shows it where that is due.
    fn show_due(&self) {
        let (now, begun) = (self.now(), self.begun.load(Ordering::SeqCst));
        if begun > 0 && now >= self.due.load(Ordering::SeqCst) {
            self.show(now.saturating_sub(begun));
            let due = now.saturating_add(millis(self.showing.pause()));
            self.due.store(due, Ordering::SeqCst);
        }
    }

    // More packets were played. Where another thread shows how far it is, this one goes on.
    #[inline(never)]
    fn note(&self) {
        self.played.fetch_add(AT_ONCE, Ordering::SeqCst);
        let taken = self
            .is_busy
            .compare_exchange(false, true, Ordering::SeqCst, Ordering::SeqCst);
        if taken.is_ok() {
            self.show_due();
            self.is_busy.store(false, Ordering::SeqCst);
        }
    }
}

/// A gate that may show how far the workers are. It counts each 64 servings of a worker, and holds no other up.
#[derive(Drop)]
pub struct Playing<'a> {
    progress: Option<Progress<'a>>,
}

impl<'a> Playing<'a> {
    /// Nothing is played yet. Without a way to show it nothing is shown. The mark tells how many packets INPUT has.
    pub fn new(
        rt: &'a HostRuntime,
        showing: Option<Showing<'a>>,
        mark: &'a ReadMark,
    ) -> Playing<'a> {
        Playing {
            progress: Progress::new(rt, showing, mark),
        }
    }

    /// Takes what is shown from a terminal.
    pub fn clear(&self) {
        if let Some(progress) = &self.progress
            && progress.is_shown.load(Ordering::SeqCst)
        {
            progress.showing.clear(progress.rt);
        }
    }
}

impl Gate for Playing<'_> {
    fn preparing(&self, _node: u16, _version: u32) {
        if let Some(progress) = &self.progress {
            progress.begin();
        }
    }

    fn stopping(&self, _node: u16) {}

    fn before(&self, _node: u16, _worker: u16, _nth: u64) {}

    fn counted(&self, _node: u16, _worker: u16, _stats: Stats) {}

    #[inline(always)]
    fn after(&self, _node: u16, _worker: u16, nth: u64) {
        if let Some(progress) = &self.progress
            && nth % AT_ONCE == AT_ONCE - 1
        {
            progress.note();
        }
    }
}
