//! A scenario's steps over a capture.
ghost use Rattle.std.specs.Prelude.{◌≡◌, ◌≤◌, [], IfOk, IfErr, length};
ghost use Rattle.cluster_core.specs.Cluster.{Orderly};
ghost use Rattle.event_trace.specs.Steps.{below};
ghost use Rattle.simulation.specs.Plans.{planned};
ghost use Rattle.simulation.specs.Simulated.{Simulated, Stopped};

use crate::fault::SimulationFault;
use crate::outlet::Outlet;
use crate::plan::RunContext;
use crate::staging::play_records;
use event_trace::{Core, Play};
use pcap_file::{InputEnd, Source, read_start};
use spreader::Spread;
use std::fmt;

/// A run over a capture: the trace of its steps, how many records the capture has, and how it ends.
#[derive(Drop)]
pub struct Played<P: Spread> {
    pub play: Play<P>,
    pub packets: u32,
    pub ending: InputEnd,
}

impl<P: Spread> fmt::Debug for Played<P> {
    fn fmt<W: fmt::Write>(&self, f: &mut fmt::Formatter<W>) -> fmt::Result {
        f.debug_struct("Played")
            .field("play", &self.play)
            .field("packets", &self.packets)
            .field("ending", &self.ending)
            .finish_non_exhaustive()
    }
}

/// Runs a scenario's steps over a capture, record by record. What the cluster sends goes to the outlet, whose capture
/// is begun once the input's header was accepted. Of the records only those are kept that a later step delivers again, and
/// those of packets that wait. A step by time keeps the record that it looked at for the step behind. Whatever goes wrong
/// but a write, the output is cut between records.
pub fn play_capture<C: Core, P: Spread, I: Source, O: Outlet>(
    run: &RunContext<'_, C::Setup>,
    core: &mut C,
    spread: P,
    input: &mut I,
    output: &mut O,
) -> Result<Played<P>, SimulationFault>
    requires fresh { C.stands run.now.setup.now [] core.old }
    requires live { P.live spread ≡ below (length run.now.plan.nodes.now) }
    requires nodes { length run.now.plan.nodes.now ≤ 64 }
    requires steps { length run.now.plan.steps.now ≤ 100000 }
    requires workers { (C.cluster run.now.setup.now).workers ≤ 16 }
    requires cluster { (C.cluster run.now.setup.now).nodes ≡ length run.now.plan.nodes.now }
    requires orderly { Orderly (C.cluster run.now.setup.now) }
    ensures ok { let k = C.cluster run.now.setup.now in let plan = planned run.now.plan in
        let taken = I.tape input.old in let got = O.tape output.old in
        IfOk result (λ p. Simulated k (P.choice spread) plan taken (I.tape input.new) got (O.tape output.new) p.play.trace p.packets p.ending) }
    ensures read { IfOk result (λ p. p.play.trace.read ≤ p.packets) }
    ensures stands { IfOk result (λ p. C.stands run.now.setup.now p.play.trace.past core.new) }
    ensures stopped { let k = C.cluster run.now.setup.now in let plan = planned run.now.plan in
        IfErr result (Stopped k (P.choice spread) plan (I.tape input.old) (I.tape input.new) (O.tape output.old) (O.tape output.new)) }
{
    let head = read_start(input)?;
    output.begin()?;
    play_records(run, core, spread, head, input, output)
}
