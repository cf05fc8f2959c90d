//! What goes through the rings, and waiting at them.
ghost use Rattle.std.specs.Prelude.{◌≡◌, ◌++◌, ◌∷◌, [], true, is_some, IsFalse, MatchBool};
ghost use Rattle.rtrb.specs.Ring.{sent};
ghost use Rattle.thread_roles.specs.Pushed.{sent_into, free_in, with_item};

use cluster_node::Item;
use rtrb::{Producer, PushError};
use std::fmt;
use std::hint::spin_loop;
use std::sync::Wait;
use std::thread::{Parker, yield_now};
use std::time::Duration;
use thread_records::Rings;

/// What a driver pushes to a worker.
#[derive(Clone, Copy, Debug)]
pub enum Message {
    /// A packet to be served.
    Serve(Item),
    /// The life's end.
    Close,
}

/// A serving of a life: by which worker, and its number among the worker's servings.
#[derive(Clone, Copy, Debug, PartialEq, Eq)]
pub struct Serving {
    /// The worker's number.
    pub worker: u16,
    /// How many packets the worker served before.
    pub number: u32,
}

/// What a worker pushes to the mux.
#[derive(Clone, Copy, Debug)]
pub enum Output {
    /// A packet that is sent on, by its serving.
    Send(Serving),
    /// The worker's last word.
    Close,
}

// How often an idle thread looks again at once, and how often it has looked when it goes to sleep.
const SPINS: u32 = 64;

const LOOKS: u32 = 128;

// Microseconds of the first sleep of a thread that stays idle, and of the longest.
const SHORTEST: u64 = 50;

const LONGEST: u64 = 6_400;

/// A thread that has nothing to do. It looks again at once for some turns, and for some more it gives its processor up
/// meanwhile. From then on it sleeps at each turn, twice as long as at the one before. A sleep is about as long as the thread
/// was idle until then, and at most 6.4 milliseconds. It ends by itself, so nobody has to wake the thread.
#[derive(Drop)]
pub struct Idle {
    looks: u32,
    sleep: u64,
    parker: Parker,
}

impl fmt::Debug for Idle {
    fn fmt<W: fmt::Write>(&self, f: &mut fmt::Formatter<W>) -> fmt::Result {
        f.debug_struct("Idle")
            .field("looks", &self.looks)
            .field("sleep", &self.sleep)
            .finish_non_exhaustive()
    }
}

impl Idle {
    /// A thread that just had something to do.
    pub fn new() -> Idle {
        Idle {
            looks: 0,
            sleep: SHORTEST,
            parker: Parker::new(),
        }
    }

    /// One turn.
    pub fn wait<R: Wait>(&mut self, rt: &R) {
        if self.looks < LOOKS {
            self.looks += 1;
            if self.looks <= SPINS {
                spin_loop();
            } else {
                yield_now();
            }
            return;
        }
        self.parker
            .park_timeout(rt, Duration::from_micros(self.sleep));
        self.sleep = LONGEST.min(self.sleep.saturating_mul(2));
    }
}

/// Pushes the item, and tries again while the ring is full.
pub fn push_waiting<T, R: Wait>(rt: &R, ring: &mut Producer<T>, item: T)
    ensures { sent ring.new ≡ sent ring.old ++ item ∷ [] }
{
    let mut item = item;
    let mut idle = Idle::new();
    for _ in rt.forever() {
        match ring.push(item) {
            Ok(()) => return,
            Err(PushError::Full(back)) => item = back,
        }
        idle.wait(rt);
    }
    unreachable!()
}

// Offers a message to a worker's ring. The answer is whether the ring is there and took it.
fn push_at_once(ring: &mut Option<Producer<Message>>, message: Message) -> bool
    ensures sent { MatchBool result
        (sent_into ring.new ≡ with_item message (sent_into ring.old))
        (sent_into ring.new ≡ sent_into ring.old) }
    ensures there { result ≡ true → is_some (sent_into ring.old) ≡ true }
    ensures full { IsFalse result → free_in ring.new ≡ 0 }
{
    match ring {
        Some(ring) => match ring.push(message) {
            Ok(()) => true,
            Err(_) => false,
        },
        None => false,
    }
}

// Pushes a message into a worker's ring once that has room, if the ring is there.
fn push_in_time<R: Wait>(rt: &R, ring: &mut Option<Producer<Message>>, message: Message)
    ensures { sent_into ring.new ≡ with_item message (sent_into ring.old) }
{
    match ring {
        Some(ring) => push_waiting(rt, ring, message),
        None => (),
    }
}

/// The driver's ends of the workers' rings.
#[derive(Drop)]
pub struct Inputs {
    /// At each worker's number its ring, if it has one.
    pub rings: Vec<Option<Producer<Message>>>,
}

impl fmt::Debug for Inputs {
    fn fmt<W: fmt::Write>(&self, f: &mut fmt::Formatter<W>) -> fmt::Result {
        f.debug_struct("Inputs").finish_non_exhaustive()
    }
}

impl Rings for Inputs {
    ghost use Rattle.std.specs.Prelude.{◌≡◌, true, false, map, slice_index, IsFalse, MatchBool};
    ghost use Rattle.thread_roles.specs.Pushed.{put_in, sent_into, free_in, is_there};
    ghost use Rattle.thread_roles.specs.declared.ring.Message.TheVariants.{Serve};

    ghost paced = { false };

    fn offer(&mut self, worker: u16, item: Item) -> bool
        ensures sent { MatchBool result
            (map (λ r. sent_into r) self.new.rings.items ≡ put_in (map (λ r. sent_into r) self.old.rings.items) worker (Serve item))
            (map (λ r. sent_into r) self.new.rings.items ≡ map (λ r. sent_into r) self.old.rings.items) }
        ensures there { result ≡ true → is_there (map (λ r. sent_into r) self.old.rings.items) worker ≡ true }
        ensures full { IsFalse result → slice_index (map (λ r. free_in r) self.new.rings.items) worker ≡ 0 }
    {
        let at = worker as usize;
        if at >= self.rings.len() {
            return false;
        }
        let one = &mut self.rings[at];
        push_at_once(one, Message::Serve(item))
    }
}

impl Inputs {
    ghost use Rattle.std.specs.Prelude.{◌≡◌, map};
    ghost use Rattle.thread_roles.specs.Pushed.{sent_into, with_item};
    ghost use Rattle.thread_roles.specs.declared.ring.Message.TheVariants.{Close};

    /// Puts a closing mark into each ring that is there.
    pub fn close<R: Wait>(&mut self, rt: &R)
        ensures { map (λ r. sent_into r) self.new.rings.items ≡ map (λ ms. with_item Close ms) (map (λ r. sent_into r) self.old.rings.items) }
    {
        for at in 0..self.rings.len() {
            let one = &mut self.rings[at];
            push_in_time(rt, one, Message::Close);
        }
    }
}

/// The driver's ends, at which it waits. What is offered to a full ring is pushed once the ring has room.
///
/// A worker takes from its ring until its driver ends the life, also one that was refused memory or can't read a version.
/// So a driver that waits at a full ring goes on, unless the worker's gate doesn't return. A ring that isn't there takes
/// nothing. That is found when the life ends, or counted as lost where it ends with a stop.
#[derive(Drop)]
pub struct PacedInputs<'a, R: Wait> {
    /// By what it waits.
    pub rt: &'a R,
    /// The ends.
    pub inputs: &'a mut Inputs,
}

impl<R: Wait> fmt::Debug for PacedInputs<'_, R> {
    fn fmt<W: fmt::Write>(&self, f: &mut fmt::Formatter<W>) -> fmt::Result {
        f.debug_struct("PacedInputs").finish_non_exhaustive()
    }
}

impl<R: Wait> Rings for PacedInputs<'_, R> {
    ghost use Rattle.std.specs.Prelude.{◌≡◌, true, map};
    ghost use Rattle.thread_roles.specs.Pushed.{put_in, sent_into};
    ghost use Rattle.thread_roles.specs.declared.ring.Message.TheVariants.{Serve};

    ghost paced = { true };

    fn offer(&mut self, worker: u16, item: Item) -> bool
        ensures sent { map (λ r. sent_into r) self.new.inputs.now.rings.items
            ≡ put_in (map (λ r. sent_into r) self.old.inputs.now.rings.items) worker (Serve item) }
        ensures taken { result ≡ true }
    {
        let at = worker as usize;
        if at >= self.inputs.rings.len() {
            return true;
        }
        let one = &mut self.inputs.rings[at];
        push_in_time(self.rt, one, Message::Serve(item));
        true
    }
}
