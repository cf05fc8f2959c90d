//! A core of which one node is played.
ghost use Rattle.std.specs.Prelude.{◌≡◌};
ghost use Rattle.cluster_node.specs.Records.{node_of};

use crate::setup::PartSetup;
use cluster_node::{Event, Outcome, Packet, Passed, Reason};
use event_trace::Core;
use std::alloc::AllocError;
use std::fmt;

// What is answered for an event of a node that is left out.
const LEFT_OUT: Outcome = Outcome::Refused(Reason::NoNode);

// The node that an event names.
#[inline(always)]
fn node_of(event: &Event) -> u16
    ensures { result ≡ node_of event.now }
{
    match event {
        Event::Install { node, .. }
        | Event::Arrive { node, .. }
        | Event::Serve { node, .. }
        | Event::Restart { node } => *node,
    }
}

/// A core of which one node is played: its own events go to the core. An event of any other node is refused as if there were
/// no such node; no table is touched, and nothing is sent. Where no node is named all are played.
#[derive(Drop)]
pub struct NodePart<C> {
    core: C,
}

impl<C> fmt::Debug for NodePart<C> {
    fn fmt<W: fmt::Write>(&self, f: &mut fmt::Formatter<W>) -> fmt::Result {
        f.debug_struct("NodePart").finish_non_exhaustive()
    }
}

impl<C> NodePart<C> {
    /// The core, of which a part is played from now on.
    pub fn new(core: C) -> NodePart<C>
        ensures { result.core ≡ core }
    {
        NodePart { core }
    }

    /// The core.
    pub fn into_core(self) -> C
        ensures { result ≡ self.core }
    {
        self.core
    }
}

impl<C: Core> Core for NodePart<C> {
    type Setup = PartSetup<C::Setup>;

    ghost use Rattle.node_part.specs.Parts.{of_part, part_of, LeavesOthers};

    ghost cluster = { λ setup. part_of setup.only (C.cluster setup.whole) };

    ghost stands = { λ setup past part. LeavesOthers setup.only past × C.stands setup.whole (of_part setup.only past) part.core };

    #[inline(always)]
    fn step(
        &mut self,
        setup: &PartSetup<C::Setup>,
        event: Event,
        packet: Option<Packet>,
    ) -> Result<Outcome, AllocError> {
        if setup.leaves_out(node_of(&event)) {
            return Ok(LEFT_OUT);
        }
        self.core.step(&setup.whole, event, packet)
    }

    #[inline(always)]
    fn pass(
        &mut self,
        setup: &PartSetup<C::Setup>,
        node: u16,
        packet: u32,
        refused: &[bool; 16],
        body: &Packet,
        passed: &mut Passed,
    ) -> Result<(), AllocError> {
        if setup.leaves_out(node) {
            *passed = Passed::Unplaced(LEFT_OUT);
            return Ok(());
        }
        self.core
            .pass(&setup.whole, node, packet, refused, body, passed)
    }

    fn workers(setup: &PartSetup<C::Setup>) -> u16 {
        C::workers(&setup.whole)
    }

    #[inline(always)]
    fn newest(&self, setup: &PartSetup<C::Setup>, node: u16) -> u32 {
        if setup.leaves_out(node) {
            return 0;
        }
        self.core.newest(&setup.whole, node)
    }

    fn waiting(&self, setup: &PartSetup<C::Setup>, node: u16, worker: u16) -> u64 {
        if setup.leaves_out(node) {
            return 0;
        }
        self.core.waiting(&setup.whole, node, worker)
    }
}
