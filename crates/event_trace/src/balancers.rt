//! The run of a cluster as it is deployed.
ghost use Rattle.std.specs.Prelude.{◌≡◌, ◌≤◌, [], List, reverse, false, IfOk, OnOk};
ghost use Rattle.cluster_node.specs.declared.packets.Packet.{Packet};
ghost use Rattle.cluster_node.specs.declared.events.Event.TheVariants.{Serve};
ghost use Rattle.cluster_node.specs.Records.{with_told};
ghost use Rattle.cluster_node.specs.declared.events.LogEntry.{LogEntry};
ghost use Rattle.cluster_core.specs.Runs.{RunStands};
ghost use Rattle.cluster_core.specs.Totals.{came_of, went_of};
ghost use Rattle.cluster_core.specs.Deployed.{rules_of, cluster_of, IsBalanced};

use crate::machine::Core;
use crate::notes::Notes;
use crate::task::Task;
use cluster_core::{Deployment, Run};
use cluster_node::{Event, Outcome, Packet, Passed};
use connection_table::ConnTable;
use hash_laws::FlowHash;
use selection::Scheme;
use std::alloc::{AllocError, Global};
use std::fmt;
use std::marker::PhantomData;

/// The balancers of a cluster, under events that are learnt one by one, and what is kept of these. The deployment, and what
/// is asked, are the same in every step.
#[derive(Drop)]
pub struct Balancers<S: Scheme, H: FlowHash, T: ConnTable, N: Notes> {
    run: Run<S, T>,
    notes: N,
    hash: PhantomData<H>,
}

impl<S: Scheme, H: FlowHash, T: ConnTable, N: Notes> fmt::Debug for Balancers<S, H, T, N> {
    fn fmt<W: fmt::Write>(&self, f: &mut fmt::Formatter<W>) -> fmt::Result {
        f.debug_struct("Balancers")
            .field("run", &self.run)
            .finish_non_exhaustive()
    }
}

// The node at which a packet is served, and the version under which it is.
#[derive(Clone, Copy)]
struct Under {
    node: u16,
    version: u32,
}

// What came of a packet's arrival, and of its serving where it was placed, is noted.
#[inline(always)]
fn note_passed<N: Notes>(
    notes: &mut N,
    asked: &N::Query,
    event: &Event,
    body: &Packet,
    under: Under,
    passed: &Passed,
) -> Result<(), AllocError>
    ensures { (past : List LogEntry) → N.are_of asked.now past notes.old →
        OnOk result (N.are_of asked.now (with_told past event.now body.now (λ w. Serve under.node w under.version false) passed.now) notes.new) }
{
    match passed {
        Passed::Unplaced(outcome) => notes.note(asked, event, Some(body), outcome),
        Passed::Through {
            worker,
            floor,
            outcome,
        } => {
            let placed = Outcome::Placed {
                worker: *worker,
                floor: *floor,
            };
            notes.note(asked, event, Some(body), &placed)?;
            let serving = Event::Serve {
                node: under.node,
                worker: *worker,
                version: under.version,
                refused: false,
            };
            notes.note(asked, &serving, None, outcome)
        }
    }
}

impl<S: Scheme, H: FlowHash, T: ConnTable, N: Notes> Balancers<S, H, T, N> {
    /// Balancers to which nothing has happened, with such notes. They represent the empty record.
    pub fn make(alloc: Global, deployment: &Deployment<S, H>, notes: N) -> Result<Self, AllocError>
        ensures run { IfOk result (λ b. RunStands (λ s z. S.pick s z) (rules_of (λ s z. S.pick s z) (λ h. H.plain h) deployment.now) [] b.run) }
        ensures notes { IfOk result (λ b. b.notes ≡ notes) }
    {
        let run = Run::make(alloc, deployment.setup())?;
        Ok(Balancers {
            run,
            notes,
            hash: PhantomData,
        })
    }

    /// The run, and what was kept of its events.
    pub fn into_parts(self) -> (Run<S, T>, N)
        ensures run { result.0 ≡ self.run }
        ensures notes { result.1 ≡ self.notes }
    {
        let Balancers {
            run,
            notes,
            hash: _,
        } = self;
        (run, notes)
    }

    /// What left the queues is no more than what was placed, by every record that the balancers represent. So it is by their
    /// history, as `Counts::totals` asks. The body does nothing.
    pub fn keep_balance(&self, deployment: &Deployment<S, H>)
        ensures record { (past : List LogEntry) → RunStands (λ s z. S.pick s z) (rules_of (λ s z. S.pick s z)
            (λ h. H.plain h) deployment.now) past self.now.run → went_of past ≤ came_of past }
        ensures history { (past : List LogEntry) →
            RunStands (λ s z. S.pick s z) (rules_of (λ s z. S.pick s z) (λ h. H.plain h) deployment.now) past self.now.run → IsBalanced (reverse past) }
    {
        let _ = deployment;
    }
}

impl<S: Scheme, H: FlowHash, T: ConnTable, N: Notes> Core for Balancers<S, H, T, N> {
    type Setup = Task<S, H, N::Query>;

    ghost cluster = { λ task. cluster_of (λ s z. S.pick s z) (λ h. H.plain h) task.deployment };

    ghost stands = { λ task past balancers. RunStands (λ s z. S.pick s z) (rules_of (λ s z. S.pick s z) (λ h. H.plain h) task.deployment) past balancers.run
        × N.are_of task.asked past balancers.notes };

    #[inline(always)]
    fn step(
        &mut self,
        setup: &Task<S, H, N::Query>,
        event: Event,
        packet: Option<Packet>,
    ) -> Result<Outcome, AllocError> {
        let fixed = &setup.deployment;
        let body = packet.as_ref();
        let outcome = self
            .run
            .step(fixed.setup(), fixed.catalogue(), &event, body)?;
        self.notes.note(&setup.asked, &event, body, &outcome)?;
        Ok(outcome)
    }

    #[inline(always)]
    fn pass(
        &mut self,
        setup: &Task<S, H, N::Query>,
        node: u16,
        packet: u32,
        refused: &[bool; 16],
        body: &Packet,
        passed: &mut Passed,
    ) -> Result<(), AllocError> {
        let version = self.newest(setup, node);
        let fixed = &setup.deployment;
        self.run
            .pass(fixed.setup(), node, packet, refused, body, passed)?;
        let event = Event::Arrive {
            node,
            packet,
            refused: *refused,
        };
        let under = Under { node, version };
        note_passed(&mut self.notes, &setup.asked, &event, body, under, passed)
    }

    fn workers(setup: &Task<S, H, N::Query>) -> u16 {
        setup.deployment.setup().workers()
    }

    #[inline(always)]
    fn newest(&self, setup: &Task<S, H, N::Query>, node: u16) -> u32 {
        let _ = setup;
        self.run.newest(node)
    }

    fn waiting(&self, setup: &Task<S, H, N::Query>, node: u16, worker: u16) -> u64 {
        let _ = setup;
        self.run.waiting(node, worker) as u64
    }
}
