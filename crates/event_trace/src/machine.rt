//! What a cluster's core owes to the steps of a scenario.
ghost use Rattle.std.specs.Prelude.{◌≡◌, ◌<◌, ◌^◌, ◌∷◌, ℕ, List, length, Some, false, IfOk, OnOk};
ghost use Rattle.cluster_node.specs.declared.events.Event.TheVariants.{Arrive, Serve};
ghost use Rattle.cluster_node.specs.declared.events.LogEntry.{LogEntry};
ghost use Rattle.cluster_core.specs.Cluster.{Cluster, newest_on, waiting_on};
ghost use Rattle.cluster_node.specs.Records.{AreTold, WasRead, said, with_told};

use cluster_node::{Event, Outcome, Packet, Passed};
use std::alloc::AllocError;

/// A cluster's core: a state machine over events. What it answers is read off the record of all events before.
pub trait Core {
    /// What is fixed for a run.
    type Setup;

    /// The outcome of an event after a record of others, how many nodes there are, and how many workers each has.
    ghost cluster: { Self.Setup → Cluster };

    /// The core represents the record, which has the newest event in front.
    ghost stands: { Self.Setup → List LogEntry → Self → Type 0 };

    /// One event, with the packet that it names where it is an arrival. After a refusal of memory nothing is said of the
    /// core any more.
    fn step(
        &mut self,
        setup: &Self::Setup,
        event: Event,
        packet: Option<Packet>,
    ) -> Result<Outcome, AllocError>
        requires { WasRead packet }
        ensures { (past : List LogEntry) → length past < 2 ^ 64 → stands setup.now past self.old →
            IfOk result (λ o. (o ≡ (cluster setup.now).judge past event packet)
            × stands setup.now (said (cluster setup.now).judge past event packet ∷ past) self.new) };

    /// A packet arrives at a node, and where it is placed its worker serves at once under the node's newest version. That is
    /// two steps, one after the other. What became of the packet is written into `passed`, which is the caller's room: so it
    /// is written once and not copied on the way out. After a refusal of memory nothing is said of the core any more, nor of
    /// `passed`.
    fn pass(
        &mut self,
        setup: &Self::Setup,
        node: u16,
        packet: u32,
        refused: &[bool; 16],
        body: &Packet,
        passed: &mut Passed,
    ) -> Result<(), AllocError>
        requires { WasRead (Some body.now) }
        ensures { let k = cluster setup.now in let come = Arrive node packet refused.now in
            (past : List LogEntry) → length past < 2 ^ 64 → stands setup.now past self.old →
            let serving = (λ (u : ℕ). Serve node u (newest_on k node past) false) in
            OnOk result (AreTold k.judge past come body.now serving passed.new × stands setup.now (with_told past come body.now serving passed.new) self.new) };

    /// How many workers a node has.
    fn workers(setup: &Self::Setup) -> u16
        ensures { result ≡ (cluster setup.now).workers };

    /// The version installed last on a node, 0 where there is none.
    fn newest(&self, setup: &Self::Setup, node: u16) -> u32
        ensures { (past : List LogEntry) → stands setup.now past self.now → result ≡ newest_on (cluster setup.now) node past };

    /// How many packets wait for a worker.
    fn waiting(&self, setup: &Self::Setup, node: u16, worker: u16) -> u64
        ensures { (past : List LogEntry) → stands setup.now past self.now → result ≡ waiting_on (cluster setup.now) node worker past };
}
