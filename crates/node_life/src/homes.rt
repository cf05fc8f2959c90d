//! Which workers of a life need rings and threads.
ghost use Rattle.std.specs.Prelude.{◌≡◌, ◌<◌, ◌∷◌, ℕ, Bool, List, true, drop, slice_get};
ghost use Rattle.thread_records.specs.declared.command.Command.{Command};
ghost use Rattle.steering.specs.Steering.{home_of};
ghost use Rattle.node_life.specs.PrivateHomes.{has, HasHome, HaveHomes, Marks, ends_life};

use cluster_node::Packet;
use hash_laws::FlowHash;
use selection::Scheme;
use steering::home;
use thread_records::Command;
use thread_roles::Assignment;

/// The workers on which a life may place packets: the homes of the flows that it offers. Where it offers more packets than a ring
/// has places they are all workers. For a packet whose home is full goes to another one. A worker that is none of them gets no
/// ring and no thread. No promise of a run rests on them: the records are compared whatever they are.
#[derive(Clone, Copy, Debug, PartialEq, Eq)]
pub(crate) struct Homes {
    marks: [bool; 16],
}

// Whether the life that begins at a place of the commands offers more packets than a ring has places. This hashes no flow.
fn offers_many<S: Scheme, H: FlowHash>(assignment: Assignment<'_, S, H>, from: usize) -> bool {
    let mut room = assignment.ring;
    for at in from..assignment.commands.len() {
        let command = assignment.commands[at];
        if ends_life(command) {
            return false;
        }
        match command {
            Command::Offer(_) if room == 0 => return true,
            Command::Offer(_) => room -= 1,
            _ => (),
        }
    }
    false
}

// Whether a command ends the life.
fn ends_life(command: Command) -> bool
    ensures { result ≡ ends_life command }
{
    matches!(command, Command::Restart | Command::Stop)
}

impl Homes {
    // No workers.
    fn none() -> Homes {
        Homes { marks: [false; 16] }
    }

    // All workers.
    fn all() -> Homes
        ensures { (w : ℕ) → has result.marks w ≡ true }
    {
        Homes { marks: [true; 16] }
    }

    // Marks the home of a packet, if it has a flow.
    fn mark<S: Scheme, H: FlowHash>(&mut self, assignment: Assignment<'_, S, H>, packet: u32)
        ensures home { let a = assignment.entry in
            HasHome (λ x. home_of (H.plain a.setup.now.hash) a.setup.now.workers x) self.new.marks (slice_get a.packets.now packet) }
        ensures others { Marks self.old.marks self.new.marks }
    {
        let Some(Packet::Good { flow, .. }) = assignment.packets.get(packet as usize) else {
            return;
        };
        let hash = assignment.setup.hash();
        let at = home(&hash, flow, assignment.setup.workers()) as usize;
        self.marks[at] = true;
    }

    // Marks the home of the packet that a command offers, if it does.
    fn note<S: Scheme, H: FlowHash>(&mut self, assignment: Assignment<'_, S, H>, command: Command)
        ensures step { let a = assignment.entry in (marks : List Bool) (cs : List Command) → Marks self.new.marks marks →
            HaveHomes (λ x. home_of (H.plain a.setup.now.hash) a.setup.now.workers x) a.packets.now marks cs →
            HaveHomes (λ x. home_of (H.plain a.setup.now.hash) a.setup.now.workers x) a.packets.now marks (command ∷ cs) }
        ensures others { Marks self.old.marks self.new.marks }
    {
        let Command::Offer(packet) = command else {
            return;
        };
        self.mark(assignment, packet);
    }

    // Whether each of so many workers is one of them.
    fn have_all(&self, workers: u16) -> bool
        ensures { result ≡ true → (w : ℕ) → w < workers → has self.now.marks w ≡ true }
    {
        for worker in 0..workers {
            if !self.have(worker) {
                return false;
            }
        }
        true
    }

    /// Those of the life that begins at a place of the commands.
    pub(crate) fn of_life<S: Scheme, H: FlowHash>(
        assignment: Assignment<'_, S, H>,
        from: usize,
    ) -> Homes
        ensures { let a = assignment.entry in
            HaveHomes (λ x. home_of (H.plain a.setup.now.hash) a.setup.now.workers x) a.packets.now result.marks (drop from a.commands.now) }
    {
        if offers_many(assignment, from) {
            return Homes::all();
        }
        let mut homes = Homes::none();
        for at in from..assignment.commands.len() {
            let command = assignment.commands[at];
            if ends_life(command) {
                return homes;
            }
            homes.note(assignment, command);
            if homes.have_all(assignment.setup.workers()) {
                return homes;
            }
        }
        homes
    }

    /// Whether a worker is one of them.
    pub(crate) fn have(&self, worker: u16) -> bool
        ensures { result ≡ has self.now.marks worker }
    {
        match self.marks.get(worker as usize) {
            Some(mark) => *mark,
            None => true,
        }
    }
}
