//! A run record by record.
ghost use Rattle.std.specs.Prelude.{is_some, None, ◌≡◌, ◌≢◌, ◌<◌, ◌≤◌, ◌+◌, ◌^◌, ◌∷◌, ◌++◌, [], ℕ, List, Some, true, false, length, slice_get, IfOk, IfErr};
ghost use Rattle.std.specs.Prelude.{OnOk};
ghost use Rattle.pcap_file.specs.Device.{Tape};
ghost use Rattle.pcap_file.specs.Format.{Record, packet, max_records};
ghost use Rattle.timed_steps.specs.declared.TimedStep.{TimedStep};
ghost use Rattle.event_trace.specs.Steps.{World, SameChoice, deliver, serve, serve_times, drain_from, after, names_records, says_many, start, below};
ghost use Rattle.event_trace.specs.Room.{Counted};
ghost use Rattle.event_trace.specs.Going.{Goes, GoesBy, GoesWhere};
ghost use Rattle.simulation.specs.Plans.{Planned, planned};
ghost use Rattle.simulation.specs.PrivateSteps.{by_count, take_of, lose_of, again_of, until_of};
ghost use Rattle.spreader.specs.Choices.{Choice};
ghost use Rattle.cluster_core.specs.Cluster.{Cluster, Orderly};
ghost use Rattle.simulation.specs.Sent.{packet_in};
ghost use Rattle.simulation.specs.Simulated.{IsOfRun};
ghost use Rattle.simulation.specs.PrivateGoing.{Shortened};
ghost use Rattle.simulation.specs.Intake.{IsNext, Seen, SeenMore, StandsStill, ReadStops};
ghost use Rattle.simulation.specs.PrivateKeeping.{KeepsNamed};
ghost use Rattle.simulation.specs.PrivateStages.{SoundAt, StaysSound, SentUntil, CutIn, Reached, IsOver, still_to_take, still_to_lose, one_of_until};
ghost use Rattle.simulation.specs.PrivateStages.{still_until};

use crate::fault::SimulationFault;
use crate::intake::Intake;
use crate::keeping::KeptRecords;
use crate::lent::LentRecord;
use crate::outlet::Outlet;
use crate::plan::{Plan, RunContext};
use crate::playing::Played;
use crate::relaying::Relay;
use crate::sending::Wire;
use event_trace::{Core, Delivery, Play, ScenarioStep};
use pcap_file::{Head, Source};
use spreader::Spread;
use std::alloc::{AllocError, Global};
use timed_steps::TimedStep;

/// The trace so far, and what one delivery reports. Beside these: the frames that wait, the records that come again, and
/// those that are read.
#[derive(Drop)]
pub(crate) struct Stage<P: Spread> {
    play: Play<P>,
    delivery: Delivery,
    relay: Relay,
    kept: KeptRecords,
    intake: Intake,
}

impl<P: Spread> Stage<P> {
    // Nothing was read, and nothing has happened.
    fn make(alloc: Global, plan: Plan<'_>, spread: P, head: Head) -> Result<Stage<P>, AllocError>
        requires live { P.live spread ≡ below (length plan.nodes.now) }
        requires nodes { length plan.nodes.now ≤ 64 }
        ensures fresh { IfOk result (λ s. Counted s.intake.given 0 s.play.trace) }
        ensures play { IfOk result (λ s. s.play.trace ≡ start (length plan.entry.nodes.now)) }
        ensures spread { IfOk result (λ s. s.play.spread ≡ spread) }
        ensures head { IfOk result (λ s. s.intake.head ≡ head) }
        ensures reached { (cluster : Cluster) (choice : Choice) (text out : Tape) → cluster.workers ≤ 16 → cluster.nodes ≡ length plan.entry.nodes.now →
            Orderly cluster →
            IfOk result (λ s. Reached cluster choice (planned plan.entry) text out plan.entry.steps.now s text out) }
    {
        let nodes = plan.nodes.len() as u16;
        Ok(Stage {
            play: Play::start(alloc, spread, nodes)?,
            delivery: Delivery::new(),
            relay: Relay::new(alloc, nodes)?,
            kept: KeptRecords::of_steps(alloc, plan.steps)?,
            intake: Intake::new(alloc, head),
        })
    }

    // How frames are read, and the nodes' addresses.
    #[inline(always)]
    fn wire<'a>(&self, plan: Plan<'a>) -> Wire<'a>
        ensures { result ≡ record { nodes = plan.entry.nodes; link = self.now.intake.head.link; check = plan.entry.check } }
    {
        Wire {
            nodes: plan.nodes,
            link: self.intake.link(),
            check: plan.check,
        }
    }

    // Delivers the record that was read last, and sends what is sent then.
    #[inline(always)]
    fn deliver<C: Core, O: Outlet>(
        &mut self,
        run: &RunContext<'_, C::Setup>,
        core: &mut C,
        place: u32,
        output: &mut O,
    ) -> Result<(), SimulationFault>
        requires stands { C.stands run.now.setup.now self.old.play.trace.past core.old }
        requires room { self.old.play.trace.unrouted + 1 < 2 ^ 64 }
        requires many { self.old.play.trace.nth + 1 < 2 ^ 64 }
        ensures stands { OnOk result (C.stands run.now.setup.now self.new.play.trace.past core.new) }
        ensures spread { self.new.play.spread ≡ self.old.play.spread }
        ensures kept { self.new.kept ≡ self.old.kept }
        ensures intake { StandsStill self.old.intake self.new.intake }
        ensures play { let k = C.cluster run.now.setup.now in let p = packet_in self.old.intake.head.link run.now.plan.check self.old.intake.record_read in
            OnOk result (GoesBy k (P.choice self.old.play.spread) (λ w. deliver w place p) self.old.play.trace self.new.play.trace) }
        ensures sound { let k = C.cluster run.now.setup.now in let plan = planned run.now.plan in let link = self.old.intake.head.link in
            (all : List Record) (begun : Tape) → SoundAt k plan link all self.old begun (O.tape output.old) →
            slice_get all place ≡ Some self.old.intake.record_read →
            OnOk result (SoundAt k plan link all self.new begun (O.tape output.new)) }
        ensures named { IfErr result IsOfRun }
        ensures cut { let k = C.cluster run.now.setup.now in let plan = planned run.now.plan in let link = self.old.intake.head.link in
            let p = packet_in link run.now.plan.check self.old.intake.record_read in
            (w : World) (all : List Record) (begun : Tape) → w.cluster ≡ k → SameChoice w.choice (P.choice self.old.play.spread) →
            SoundAt k plan link all self.old begun (O.tape output.old) → slice_get all place ≡ Some self.old.intake.record_read →
            IfErr result (λ fault. SentUntil fault plan link all (deliver w place p self.old.play.trace) begun (O.tape output.new)) }
    {
        let wire = self.wire(run.plan);
        let lent = LentRecord::of(self.intake.frame());
        let packet = wire.packet(lent);
        self.play
            .deliver(core, run.setup, place, &packet, &mut self.delivery)?;
        self.relay
            .settle_delivered(&wire, &packet, &self.delivery, &mut self.intake, output)
    }

    // A worker serves. The event is followed at once, and what it sends is sent.
    #[inline(always)]
    fn serve<C: Core, O: Outlet>(
        &mut self,
        run: &RunContext<'_, C::Setup>,
        core: &mut C,
        node: u16,
        worker: u16,
        output: &mut O,
    ) -> Result<(), SimulationFault>
        requires stands { C.stands run.now.setup.now self.old.play.trace.past core.old }
        ensures stands { OnOk result (C.stands run.now.setup.now self.new.play.trace.past core.new) }
        ensures spread { self.new.play.spread ≡ self.old.play.spread }
        ensures kept { self.new.kept ≡ self.old.kept }
        ensures intake { self.new.intake ≡ self.old.intake }
        ensures play { OnOk result (Goes (C.cluster run.now.setup.now) (λ w. serve w node worker) self.old.play.trace self.new.play.trace) }
        ensures sound { StaysSound result (C.cluster run.now.setup.now) (planned run.now.plan) self.old self.new (O.tape output.old) (O.tape output.new) }
        ensures named { IfErr result IsOfRun }
        ensures cut { let k = C.cluster run.now.setup.now in
            CutIn result k (planned run.now.plan) (λ w. serve w node worker) self.old (O.tape output.old) (O.tape output.new) }
    {
        let wire = self.wire(run.plan);
        let said = self.play.serve(core, run.setup, node, worker)?;
        self.relay.settle(&wire, Some(said), output)
    }

    // A worker serves so many times.
    fn serve_times<C: Core, O: Outlet>(
        &mut self,
        run: &RunContext<'_, C::Setup>,
        core: &mut C,
        node: u16,
        worker: u16,
        times: u64,
        output: &mut O,
    ) -> Result<(), SimulationFault>
        requires stands { C.stands run.now.setup.now self.old.play.trace.past core.old }
        ensures stands { OnOk result (C.stands run.now.setup.now self.new.play.trace.past core.new) }
        ensures spread { self.new.play.spread ≡ self.old.play.spread }
        ensures kept { self.new.kept ≡ self.old.kept }
        ensures intake { self.new.intake ≡ self.old.intake }
        ensures play { OnOk result (Goes (C.cluster run.now.setup.now) (λ w. serve_times w node worker times) self.old.play.trace self.new.play.trace) }
        ensures sound { StaysSound result (C.cluster run.now.setup.now) (planned run.now.plan) self.old self.new (O.tape output.old) (O.tape output.new) }
        ensures named { IfErr result IsOfRun }
        ensures cut { let k = C.cluster run.now.setup.now in
            CutIn result k (planned run.now.plan) (λ w. serve_times w node worker times) self.old (O.tape output.old) (O.tape output.new) }
    {
        for _ in 0..times {
            self.serve(run, core, node, worker, output)?;
        }
        Ok(())
    }

    // So many of a node's workers serve all that waits for them.
    fn drain<C: Core, O: Outlet>(
        &mut self,
        run: &RunContext<'_, C::Setup>,
        core: &mut C,
        node: u16,
        workers: u16,
        output: &mut O,
    ) -> Result<(), SimulationFault>
        requires stands { C.stands run.now.setup.now self.old.play.trace.past core.old }
        ensures stands { OnOk result (C.stands run.now.setup.now self.new.play.trace.past core.new) }
        ensures spread { self.new.play.spread ≡ self.old.play.spread }
        ensures kept { self.new.kept ≡ self.old.kept }
        ensures intake { self.new.intake ≡ self.old.intake }
        ensures play { OnOk result (Goes (C.cluster run.now.setup.now) (λ w. drain_from w node 0 workers) self.old.play.trace self.new.play.trace) }
        ensures sound { StaysSound result (C.cluster run.now.setup.now) (planned run.now.plan) self.old self.new (O.tape output.old) (O.tape output.new) }
        ensures named { IfErr result IsOfRun }
        ensures cut { let k = C.cluster run.now.setup.now in
            CutIn result k (planned run.now.plan) (λ w. drain_from w node 0 workers) self.old (O.tape output.old) (O.tape output.new) }
    {
        for worker in 0..workers {
            let times = core.waiting(run.setup, node, worker);
            self.serve_times(run, core, node, worker, times, output)?;
        }
        Ok(())
    }

    // A step that says one event at most.
    fn alone<C: Core, O: Outlet>(
        &mut self,
        run: &RunContext<'_, C::Setup>,
        core: &mut C,
        step: &ScenarioStep,
        output: &mut O,
    ) -> Result<(), SimulationFault>
        requires stands { C.stands run.now.setup.now self.old.play.trace.past core.old }
        ensures stands { OnOk result (C.stands run.now.setup.now self.new.play.trace.past core.new) }
        ensures choice { SameChoice (P.choice self.old.play.spread) (P.choice self.new.play.spread) }
        ensures kept { self.new.kept ≡ self.old.kept }
        ensures intake { self.new.intake ≡ self.old.intake }
        ensures play { let k = C.cluster run.now.setup.now in
            OnOk result (GoesWhere (says_many step.now ≡ false) k (λ w. after w step.now) self.old.play.trace self.new.play.trace) }
        ensures sound { let k = C.cluster run.now.setup.now in
            says_many step.now ≡ false → StaysSound result k (planned run.now.plan) self.old self.new (O.tape output.old) (O.tape output.new) }
        ensures named { IfErr result IsOfRun }
        ensures cut { let k = C.cluster run.now.setup.now in
            says_many step.now ≡ false → CutIn result k (planned run.now.plan) (λ w. after w step.now) self.old (O.tape output.old) (O.tape output.new) }
    {
        let wire = self.wire(run.plan);
        let said = self.play.step_alone(run.alloc, core, run.setup, step)?;
        self.relay.settle(&wire, said, output)
    }

    // A step that names no record.
    fn settle_without_record<C: Core, O: Outlet>(
        &mut self,
        run: &RunContext<'_, C::Setup>,
        core: &mut C,
        step: &ScenarioStep,
        output: &mut O,
    ) -> Result<(), SimulationFault>
        requires stands { C.stands run.now.setup.now self.old.play.trace.past core.old }
        ensures stands { OnOk result (C.stands run.now.setup.now self.new.play.trace.past core.new) }
        ensures choice { SameChoice (P.choice self.old.play.spread) (P.choice self.new.play.spread) }
        ensures kept { self.new.kept ≡ self.old.kept }
        ensures intake { self.new.intake ≡ self.old.intake }
        ensures play { let k = C.cluster run.now.setup.now in
            OnOk result (GoesWhere (names_records step.now ≡ false) k (λ w. after w step.now) self.old.play.trace self.new.play.trace) }
        ensures sound { let k = C.cluster run.now.setup.now in
            names_records step.now ≡ false → StaysSound result k (planned run.now.plan) self.old self.new (O.tape output.old) (O.tape output.new) }
        ensures named { IfErr result IsOfRun }
        ensures cut { let k = C.cluster run.now.setup.now in
            names_records step.now ≡ false → CutIn result k (planned run.now.plan) (λ w. after w step.now) self.old (O.tape output.old) (O.tape output.new) }
    {
        match step {
            ScenarioStep::Drain(node) => {
                self.play.release(*node);
                self.drain(run, core, *node, C::workers(run.setup), output)
            }
            _ => self.alone(run, core, step, output),
        }
    }

    // Reads a record, and keeps it where a step that is left delivers it again.
    #[inline(always)]
    fn read_one<I: Source>(&mut self, alloc: Global, input: &mut I) -> Result<bool, SimulationFault>
        ensures play { self.new.play ≡ self.old.play }
        ensures relay { self.new.relay ≡ self.old.relay }
        ensures head { self.new.intake.head ≡ self.old.intake.head }
        ensures more { (text : Tape) (seen : List Record) → Seen text seen (I.tape input.old) self.old.intake →
            IfOk result (λ more. SeenMore more text seen (I.tape input.new) self.new.intake) }
        ensures same { let old = self.old.intake in let new = self.new.intake in
            IfOk result (λ more. more ≡ true → (new.ended ≡ old.ended) × (new.given ≡ old.given + 1)) }
        ensures none { IfOk result (λ more. more ≡ false → (self.new.intake.given ≡ self.old.intake.given) × (self.new.kept ≡ self.old.kept)) }
        ensures clear { IfOk result (λ more. more ≡ false → self.old.intake.ahead ≡ None) }
        ensures is_next { IfOk result (λ more. more ≡ true → IsNext self.old.intake.ahead self.new.intake.record_read) }
        ensures keeps { (seen : List Record) (ss : List TimedStep) → self.old.intake.given ≡ length seen → KeepsNamed seen ss self.old.kept →
            IfOk result (λ more. more ≡ true → KeepsNamed (seen ++ self.new.intake.record_read ∷ []) ss self.new.kept) }
        ensures few { self.new.intake.given ≤ max_records }
        ensures unwritten { IfErr result (λ fault. fault ≢ SimulationFault.Write) }
        ensures stops { (text : Tape) (seen : List Record) → Seen text seen (I.tape input.old) self.old.intake →
            IfErr result (ReadStops self.old.intake text seen (I.tape input.new)) }
    {
        let place = self.intake.given();
        let more = self.intake.next(input)?;
        if !more {
            return Ok(false);
        }
        self.kept.note(alloc, place, self.intake.frame())?;
        Ok(true)
    }

    // Takes the next record: reads it and delivers it. Says whether there was one.
    #[inline(always)]
    fn take_one<C: Core, I: Source, O: Outlet>(
        &mut self,
        run: &RunContext<'_, C::Setup>,
        core: &mut C,
        input: &mut I,
        output: &mut O,
    ) -> Result<bool, SimulationFault>
        requires stands { C.stands run.now.setup.now self.old.play.trace.past core.old }
        requires few { (n : ℕ) × (n < 2 ^ 32) × Counted self.old.intake.given n self.old.play.trace }
        ensures stands { OnOk result (C.stands run.now.setup.now self.new.play.trace.past core.new) }
        ensures spread { self.new.play.spread ≡ self.old.play.spread }
        ensures few { (n : ℕ) → Counted self.old.intake.given n self.old.play.trace → OnOk result (Counted self.new.intake.given n self.new.play.trace) }
        ensures head { self.new.intake.head ≡ self.old.intake.head }
        ensures clear { IfOk result (λ more. more ≡ false → self.old.intake.ahead ≡ None) }
        ensures grows { let old = self.old.intake in let new = self.new.intake in
            IfOk result (λ more. more ≡ true → (new.given ≡ old.given + 1) × (new.given ≤ max_records)) }
        ensures reached { let cluster = C.cluster run.now.setup.now in let plan = planned run.now.plan in
            (choice : Choice) (text begun : Tape) (ss : List TimedStep) (k : ℕ) → SameChoice choice (P.choice self.old.play.spread) →
            Reached cluster choice plan text begun (take_of (k + 1) ∷ ss) self.old (I.tape input.old) (O.tape output.old) →
            IfOk result (λ more. Reached cluster choice plan text begun (still_to_take more k ss) self.new (I.tape input.new) (O.tape output.new)) }
        ensures short { let cluster = C.cluster run.now.setup.now in let plan = planned run.now.plan in
            (choice : Choice) (text begun : Tape) (ss : List TimedStep) (k : ℕ) → SameChoice choice (P.choice self.old.play.spread) →
            Reached cluster choice plan text begun (take_of (k + 1) ∷ ss) self.old (I.tape input.old) (O.tape output.old) →
            IfErr result (λ fault. Shortened cluster choice plan self.old.intake.head text (I.tape input.new) begun (O.tape output.new) fault) }
    {
        let more = self.read_one(run.alloc, input)?;
        if !more {
            return Ok(false);
        }
        let place = self.play.next_place();
        self.deliver(run, core, place, output)?;
        Ok(true)
    }

    // Takes so many records, or those that remain.
    fn take<C: Core, I: Source, O: Outlet>(
        &mut self,
        run: &RunContext<'_, C::Setup>,
        core: &mut C,
        count: u32,
        input: &mut I,
        output: &mut O,
    ) -> Result<(), SimulationFault>
        requires stands { C.stands run.now.setup.now self.old.play.trace.past core.old }
        requires few { (n : ℕ) × (n < 2 ^ 32) × Counted self.old.intake.given n self.old.play.trace }
        ensures stands { OnOk result (C.stands run.now.setup.now self.new.play.trace.past core.new) }
        ensures spread { self.new.play.spread ≡ self.old.play.spread }
        ensures few { (n : ℕ) → Counted self.old.intake.given n self.old.play.trace → OnOk result (Counted self.new.intake.given n self.new.play.trace) }
        ensures head { self.new.intake.head ≡ self.old.intake.head }
        ensures reached { let cluster = C.cluster run.now.setup.now in let plan = planned run.now.plan in
            (choice : Choice) (text begun : Tape) (ss : List TimedStep) → SameChoice choice (P.choice self.old.play.spread) →
            Reached cluster choice plan text begun (take_of count ∷ ss) self.old (I.tape input.old) (O.tape output.old) →
            OnOk result (Reached cluster choice plan text begun ss self.new (I.tape input.new) (O.tape output.new)) }
        ensures short { let cluster = C.cluster run.now.setup.now in let plan = planned run.now.plan in
            (choice : Choice) (text begun : Tape) (ss : List TimedStep) → SameChoice choice (P.choice self.old.play.spread) →
            Reached cluster choice plan text begun (take_of count ∷ ss) self.old (I.tape input.old) (O.tape output.old) →
            IfErr result (λ fault. Shortened cluster choice plan self.old.intake.head text (I.tape input.new) begun (O.tape output.new) fault) }
    {
        for _ in 0..count {
            let more = self.take_one(run, core, input, output)?;
            if !more {
                return Ok(());
            }
        }
        Ok(())
    }

    // Reads the next record ahead. Says whether there is one that came less than so long after the first.
    fn comes_early<I: Source>(
        &mut self,
        micros: u64,
        input: &mut I,
    ) -> Result<bool, SimulationFault>
        ensures play { self.new.play ≡ self.old.play }
        ensures given { self.new.intake.given ≡ self.old.intake.given }
        ensures head { self.new.intake.head ≡ self.old.intake.head }
        ensures ahead { IfOk result (λ early. early ≡ true → is_some self.new.intake.ahead ≡ true) }
        ensures reached { (cluster : Cluster) (choice : Choice) (plan : Planned) (text begun out : Tape) (ss : List TimedStep) →
            Reached cluster choice plan text begun (until_of micros ∷ ss) self.old (I.tape input.old) out →
            IfOk result (λ early. Reached cluster choice plan text begun (one_of_until early micros ss) self.new (I.tape input.new) out) }
        ensures short { (cluster : Cluster) (choice : Choice) (plan : Planned) (text begun out : Tape) (ss : List TimedStep) →
            Reached cluster choice plan text begun ss self.old (I.tape input.old) out →
            IfErr result (λ fault. Shortened cluster choice plan self.old.intake.head text (I.tape input.new) begun out fault) }
    {
        self.intake.look(input)?;
        Ok(self.intake.is_early(micros))
    }

    // The same for a step by time. So each of the two has one caller, into whose loop LLVM puts it: a plain run is timed.
    fn take_ahead<C: Core, I: Source, O: Outlet>(
        &mut self,
        run: &RunContext<'_, C::Setup>,
        core: &mut C,
        input: &mut I,
        output: &mut O,
    ) -> Result<bool, SimulationFault>
        requires stands { C.stands run.now.setup.now self.old.play.trace.past core.old }
        requires few { (n : ℕ) × (n < 2 ^ 32) × Counted self.old.intake.given n self.old.play.trace }
        ensures stands { OnOk result (C.stands run.now.setup.now self.new.play.trace.past core.new) }
        ensures spread { self.new.play.spread ≡ self.old.play.spread }
        ensures few { (n : ℕ) → Counted self.old.intake.given n self.old.play.trace → OnOk result (Counted self.new.intake.given n self.new.play.trace) }
        ensures head { self.new.intake.head ≡ self.old.intake.head }
        ensures clear { IfOk result (λ more. more ≡ false → self.old.intake.ahead ≡ None) }
        ensures grows { let old = self.old.intake in let new = self.new.intake in
            IfOk result (λ more. more ≡ true → (new.given ≡ old.given + 1) × (new.given ≤ max_records)) }
        ensures reached { let cluster = C.cluster run.now.setup.now in let plan = planned run.now.plan in
            (choice : Choice) (text begun : Tape) (ss : List TimedStep) (k : ℕ) → SameChoice choice (P.choice self.old.play.spread) →
            Reached cluster choice plan text begun (take_of (k + 1) ∷ ss) self.old (I.tape input.old) (O.tape output.old) →
            IfOk result (λ more. Reached cluster choice plan text begun (still_to_take more k ss) self.new (I.tape input.new) (O.tape output.new)) }
        ensures short { let cluster = C.cluster run.now.setup.now in let plan = planned run.now.plan in
            (choice : Choice) (text begun : Tape) (ss : List TimedStep) (k : ℕ) → SameChoice choice (P.choice self.old.play.spread) →
            Reached cluster choice plan text begun (take_of (k + 1) ∷ ss) self.old (I.tape input.old) (O.tape output.old) →
            IfErr result (λ fault. Shortened cluster choice plan self.old.intake.head text (I.tape input.new) begun (O.tape output.new) fault) }
    {
        let more = self.read_one(run.alloc, input)?;
        if !more {
            return Ok(false);
        }
        let place = self.play.next_place();
        self.deliver(run, core, place, output)?;
        Ok(true)
    }

    // Takes the next record if it came less than so long after the first. Says whether it did.
    fn take_early<C: Core, I: Source, O: Outlet>(
        &mut self,
        run: &RunContext<'_, C::Setup>,
        core: &mut C,
        micros: u64,
        input: &mut I,
        output: &mut O,
    ) -> Result<bool, SimulationFault>
        requires stands { C.stands run.now.setup.now self.old.play.trace.past core.old }
        requires few { (n : ℕ) × (n < 2 ^ 32) × Counted self.old.intake.given n self.old.play.trace }
        ensures stands { OnOk result (C.stands run.now.setup.now self.new.play.trace.past core.new) }
        ensures spread { self.new.play.spread ≡ self.old.play.spread }
        ensures few { (n : ℕ) → Counted self.old.intake.given n self.old.play.trace → OnOk result (Counted self.new.intake.given n self.new.play.trace) }
        ensures head { self.new.intake.head ≡ self.old.intake.head }
        ensures grows { let old = self.old.intake in let new = self.new.intake in
            IfOk result (λ more. more ≡ true → (new.given ≡ old.given + 1) × (new.given ≤ max_records)) }
        ensures reached { let cluster = C.cluster run.now.setup.now in let plan = planned run.now.plan in
            (choice : Choice) (text begun : Tape) (ss : List TimedStep) → SameChoice choice (P.choice self.old.play.spread) →
            Reached cluster choice plan text begun (until_of micros ∷ ss) self.old (I.tape input.old) (O.tape output.old) →
            IfOk result (λ more. Reached cluster choice plan text begun (still_until more micros ss) self.new (I.tape input.new) (O.tape output.new)) }
        ensures short { let cluster = C.cluster run.now.setup.now in let plan = planned run.now.plan in
            (choice : Choice) (text begun : Tape) (ss : List TimedStep) → SameChoice choice (P.choice self.old.play.spread) →
            Reached cluster choice plan text begun (until_of micros ∷ ss) self.old (I.tape input.old) (O.tape output.old) →
            IfErr result (λ fault. Shortened cluster choice plan self.old.intake.head text (I.tape input.new) begun (O.tape output.new) fault) }
    {
        let early = self.comes_early(micros, input)?;
        if !early {
            return Ok(false);
        }
        self.take_ahead(run, core, input, output)
    }

    // Takes the next records, up to the first that came so long after the first of all, or later.
    fn until<C: Core, I: Source, O: Outlet>(
        &mut self,
        run: &RunContext<'_, C::Setup>,
        core: &mut C,
        micros: u64,
        input: &mut I,
        output: &mut O,
    ) -> Result<(), SimulationFault>
        requires stands { C.stands run.now.setup.now self.old.play.trace.past core.old }
        requires few { (n : ℕ) × (n < 2 ^ 32) × Counted self.old.intake.given n self.old.play.trace }
        ensures stands { OnOk result (C.stands run.now.setup.now self.new.play.trace.past core.new) }
        ensures spread { self.new.play.spread ≡ self.old.play.spread }
        ensures few { (n : ℕ) → Counted self.old.intake.given n self.old.play.trace → OnOk result (Counted self.new.intake.given n self.new.play.trace) }
        ensures head { self.new.intake.head ≡ self.old.intake.head }
        ensures reached { let cluster = C.cluster run.now.setup.now in let plan = planned run.now.plan in
            (choice : Choice) (text begun : Tape) (ss : List TimedStep) → SameChoice choice (P.choice self.old.play.spread) →
            Reached cluster choice plan text begun (until_of micros ∷ ss) self.old (I.tape input.old) (O.tape output.old) →
            OnOk result (Reached cluster choice plan text begun ss self.new (I.tape input.new) (O.tape output.new)) }
        ensures short { let cluster = C.cluster run.now.setup.now in let plan = planned run.now.plan in
            (choice : Choice) (text begun : Tape) (ss : List TimedStep) → SameChoice choice (P.choice self.old.play.spread) →
            Reached cluster choice plan text begun (until_of micros ∷ ss) self.old (I.tape input.old) (O.tape output.old) →
            IfErr result (λ fault. Shortened cluster choice plan self.old.intake.head text (I.tape input.new) begun (O.tape output.new) fault) }
    {
        while self.take_early(run, core, micros, input, output)? {}
        Ok(())
    }

    // Reads the next record and loses it. Says whether there was one.
    fn lose_one<I: Source>(&mut self, alloc: Global, input: &mut I) -> Result<bool, SimulationFault>
        requires few { (n : ℕ) × (n < 2 ^ 32) × Counted self.old.intake.given n self.old.play.trace }
        ensures past { OnOk result (self.new.play.trace.past ≡ self.old.play.trace.past) }
        ensures spread { self.new.play.spread ≡ self.old.play.spread }
        ensures few { (n : ℕ) → Counted self.old.intake.given n self.old.play.trace → OnOk result (Counted self.new.intake.given n self.new.play.trace) }
        ensures head { self.new.intake.head ≡ self.old.intake.head }
        ensures reached { (cluster : Cluster) (choice : Choice) (plan : Planned) (text begun out : Tape) (ss : List TimedStep) (k : ℕ) →
            Reached cluster choice plan text begun (lose_of (k + 1) ∷ ss) self.old (I.tape input.old) out →
            IfOk result (λ more. Reached cluster choice plan text begun (still_to_lose more k ss) self.new (I.tape input.new) out) }
        ensures short { (cluster : Cluster) (choice : Choice) (plan : Planned) (text begun out : Tape) (ss : List TimedStep) →
            Reached cluster choice plan text begun ss self.old (I.tape input.old) out →
            IfErr result (λ fault. Shortened cluster choice plan self.old.intake.head text (I.tape input.new) begun out fault) }
    {
        let more = self.read_one(alloc, input)?;
        if !more {
            return Ok(false);
        }
        self.play.lose(1);
        Ok(true)
    }

    // Loses so many records, or those that remain.
    fn lose<I: Source>(
        &mut self,
        alloc: Global,
        count: u32,
        input: &mut I,
    ) -> Result<(), SimulationFault>
        requires few { (n : ℕ) × (n < 2 ^ 32) × Counted self.old.intake.given n self.old.play.trace }
        ensures past { OnOk result (self.new.play.trace.past ≡ self.old.play.trace.past) }
        ensures spread { self.new.play.spread ≡ self.old.play.spread }
        ensures few { (n : ℕ) → Counted self.old.intake.given n self.old.play.trace → OnOk result (Counted self.new.intake.given n self.new.play.trace) }
        ensures head { self.new.intake.head ≡ self.old.intake.head }
        ensures reached { (cluster : Cluster) (choice : Choice) (plan : Planned) (text begun out : Tape) (ss : List TimedStep) →
            Reached cluster choice plan text begun (lose_of count ∷ ss) self.old (I.tape input.old) out →
            OnOk result (Reached cluster choice plan text begun ss self.new (I.tape input.new) out) }
        ensures short { (cluster : Cluster) (choice : Choice) (plan : Planned) (text begun out : Tape) (ss : List TimedStep) →
            Reached cluster choice plan text begun (lose_of count ∷ ss) self.old (I.tape input.old) out →
            IfErr result (λ fault. Shortened cluster choice plan self.old.intake.head text (I.tape input.new) begun out fault) }
    {
        for _ in 0..count {
            let more = self.lose_one(alloc, input)?;
            if !more {
                return Ok(());
            }
        }
        Ok(())
    }

    // Delivers a record again, or skips it where it wasn't read.
    fn again<C: Core, O: Outlet>(
        &mut self,
        run: &RunContext<'_, C::Setup>,
        core: &mut C,
        place: u32,
        output: &mut O,
    ) -> Result<(), SimulationFault>
        requires stands { C.stands run.now.setup.now self.old.play.trace.past core.old }
        requires few { (n : ℕ) × (n < 2 ^ 32) × Counted self.old.intake.given n self.old.play.trace }
        ensures stands { OnOk result (C.stands run.now.setup.now self.new.play.trace.past core.new) }
        ensures spread { self.new.play.spread ≡ self.old.play.spread }
        ensures few { (n : ℕ) → Counted self.old.intake.given n self.old.play.trace → OnOk result (Counted self.new.intake.given (n + 1) self.new.play.trace) }
        ensures head { self.new.intake.head ≡ self.old.intake.head }
        ensures named { IfErr result IsOfRun }
        ensures reached { let cluster = C.cluster run.now.setup.now in let plan = planned run.now.plan in
            (choice : Choice) (text begun left : Tape) (ss : List TimedStep) → SameChoice choice (P.choice self.old.play.spread) →
            Reached cluster choice plan text begun (again_of place ∷ ss) self.old left (O.tape output.old) →
            OnOk result (Reached cluster choice plan text begun ss self.new left (O.tape output.new)) }
        ensures short { let cluster = C.cluster run.now.setup.now in let plan = planned run.now.plan in
            (choice : Choice) (text begun left : Tape) (ss : List TimedStep) → SameChoice choice (P.choice self.old.play.spread) →
            Reached cluster choice plan text begun (again_of place ∷ ss) self.old left (O.tape output.old) →
            IfErr result (λ fault. Shortened cluster choice plan self.old.intake.head text left begun (O.tape output.new) fault) }
    {
        // A capture has few records, so the counts have room.
        let _ = self.intake.given();
        match self.kept.take(place)? {
            Some(frame) => {
                self.intake.lend(frame);
                self.deliver(run, core, place, output)
            }
            None => {
                self.play.skip();
                Ok(())
            }
        }
    }

    // A step that names no record, among the others.
    fn step_without_record<C: Core, O: Outlet>(
        &mut self,
        run: &RunContext<'_, C::Setup>,
        core: &mut C,
        step: &ScenarioStep,
        output: &mut O,
    ) -> Result<(), SimulationFault>
        requires stands { C.stands run.now.setup.now self.old.play.trace.past core.old }
        requires apart { names_records step.now ≡ false }
        ensures stands { OnOk result (C.stands run.now.setup.now self.new.play.trace.past core.new) }
        ensures choice { SameChoice (P.choice self.old.play.spread) (P.choice self.new.play.spread) }
        ensures few { (n : ℕ) → Counted self.old.intake.given n self.old.play.trace → OnOk result (Counted self.new.intake.given (n + 1) self.new.play.trace) }
        ensures head { self.new.intake.head ≡ self.old.intake.head }
        ensures named { IfErr result IsOfRun }
        ensures reached { let cluster = C.cluster run.now.setup.now in let plan = planned run.now.plan in
            (choice : Choice) (text begun left : Tape) (ss : List TimedStep) →
            Reached cluster choice plan text begun (by_count step.now ∷ ss) self.old left (O.tape output.old) →
            OnOk result (Reached cluster choice plan text begun ss self.new left (O.tape output.new)) }
        ensures short { let cluster = C.cluster run.now.setup.now in let plan = planned run.now.plan in
            (choice : Choice) (text begun left : Tape) (ss : List TimedStep) →
            Reached cluster choice plan text begun (by_count step.now ∷ ss) self.old left (O.tape output.old) →
            IfErr result (λ fault. Shortened cluster choice plan self.old.intake.head text left begun (O.tape output.new) fault) }
    {
        self.settle_without_record(run, core, step, output)
    }

    // A step by count.
    fn step_by_count<C: Core, I: Source, O: Outlet>(
        &mut self,
        run: &RunContext<'_, C::Setup>,
        core: &mut C,
        step: &ScenarioStep,
        input: &mut I,
        output: &mut O,
    ) -> Result<(), SimulationFault>
        requires stands { C.stands run.now.setup.now self.old.play.trace.past core.old }
        requires few { (n : ℕ) × (n < 2 ^ 32) × Counted self.old.intake.given n self.old.play.trace }
        ensures stands { OnOk result (C.stands run.now.setup.now self.new.play.trace.past core.new) }
        ensures choice { SameChoice (P.choice self.old.play.spread) (P.choice self.new.play.spread) }
        ensures few { (n : ℕ) → Counted self.old.intake.given n self.old.play.trace → OnOk result (Counted self.new.intake.given (n + 1) self.new.play.trace) }
        ensures head { self.new.intake.head ≡ self.old.intake.head }
        ensures reached { let cluster = C.cluster run.now.setup.now in let plan = planned run.now.plan in
            (choice : Choice) (text begun : Tape) (ss : List TimedStep) → SameChoice choice (P.choice self.old.play.spread) →
            Reached cluster choice plan text begun (by_count step.now ∷ ss) self.old (I.tape input.old) (O.tape output.old) →
            OnOk result (Reached cluster choice plan text begun ss self.new (I.tape input.new) (O.tape output.new)) }
        ensures short { let cluster = C.cluster run.now.setup.now in let plan = planned run.now.plan in
            (choice : Choice) (text begun : Tape) (ss : List TimedStep) → SameChoice choice (P.choice self.old.play.spread) →
            Reached cluster choice plan text begun (by_count step.now ∷ ss) self.old (I.tape input.old) (O.tape output.old) →
            IfErr result (λ fault. Shortened cluster choice plan self.old.intake.head text (I.tape input.new) begun (O.tape output.new) fault) }
    {
        match step {
            ScenarioStep::Take(count) => self.take(run, core, *count, input, output),
            ScenarioStep::Lose(count) => self.lose(run.alloc, *count, input),
            ScenarioStep::Again(place) => self.again(run, core, *place, output),
            _ => self.step_without_record(run, core, step, output),
        }
    }

    // A step.
    fn step<C: Core, I: Source, O: Outlet>(
        &mut self,
        run: &RunContext<'_, C::Setup>,
        core: &mut C,
        step: &TimedStep,
        input: &mut I,
        output: &mut O,
    ) -> Result<(), SimulationFault>
        requires stands { C.stands run.now.setup.now self.old.play.trace.past core.old }
        requires few { (n : ℕ) × (n < 2 ^ 32) × Counted self.old.intake.given n self.old.play.trace }
        ensures stands { OnOk result (C.stands run.now.setup.now self.new.play.trace.past core.new) }
        ensures choice { SameChoice (P.choice self.old.play.spread) (P.choice self.new.play.spread) }
        ensures few { (n : ℕ) → Counted self.old.intake.given n self.old.play.trace → OnOk result (Counted self.new.intake.given (n + 1) self.new.play.trace) }
        ensures head { self.new.intake.head ≡ self.old.intake.head }
        ensures reached { let cluster = C.cluster run.now.setup.now in let plan = planned run.now.plan in
            (choice : Choice) (text begun : Tape) (ss : List TimedStep) → SameChoice choice (P.choice self.old.play.spread) →
            Reached cluster choice plan text begun (step.now ∷ ss) self.old (I.tape input.old) (O.tape output.old) →
            OnOk result (Reached cluster choice plan text begun ss self.new (I.tape input.new) (O.tape output.new)) }
        ensures short { let cluster = C.cluster run.now.setup.now in let plan = planned run.now.plan in
            (choice : Choice) (text begun : Tape) (ss : List TimedStep) → SameChoice choice (P.choice self.old.play.spread) →
            Reached cluster choice plan text begun (step.now ∷ ss) self.old (I.tape input.old) (O.tape output.old) →
            IfErr result (λ fault. Shortened cluster choice plan self.old.intake.head text (I.tape input.new) begun (O.tape output.new) fault) }
    {
        match step {
            TimedStep::Counted(step) => self.step_by_count(run, core, step, input, output),
            TimedStep::Until(micros) => self.until(run, core, *micros, input, output),
        }
    }

    // All steps.
    fn steps<C: Core, I: Source, O: Outlet>(
        &mut self,
        run: &RunContext<'_, C::Setup>,
        core: &mut C,
        input: &mut I,
        output: &mut O,
    ) -> Result<(), SimulationFault>
        requires stands { C.stands run.now.setup.now self.old.play.trace.past core.old }
        requires fresh { Counted self.old.intake.given 0 self.old.play.trace }
        requires some { length run.now.plan.steps.now ≤ 100000 }
        ensures stands { OnOk result (C.stands run.now.setup.now self.new.play.trace.past core.new) }
        ensures head { self.new.intake.head ≡ self.old.intake.head }
        ensures read { OnOk result (self.new.play.trace.read ≤ self.new.intake.given) }
        ensures reached { let cluster = C.cluster run.now.setup.now in let plan = planned run.now.plan in
            (choice : Choice) (text begun : Tape) → SameChoice choice (P.choice self.old.play.spread) →
            Reached cluster choice plan text begun run.now.plan.steps.now self.old (I.tape input.old) (O.tape output.old) →
            OnOk result (Reached cluster choice plan text begun [] self.new (I.tape input.new) (O.tape output.new)) }
        ensures short { let cluster = C.cluster run.now.setup.now in let plan = planned run.now.plan in
            (choice : Choice) (text begun : Tape) → SameChoice choice (P.choice self.old.play.spread) →
            Reached cluster choice plan text begun run.now.plan.steps.now self.old (I.tape input.old) (O.tape output.old) →
            IfErr result (λ fault. Shortened cluster choice plan self.old.intake.head text (I.tape input.new) begun (O.tape output.new) fault) }
    {
        for step in run.plan.steps {
            self.step(run, core, step, input, output)?;
        }
        Ok(())
    }

    // Reads what is left of the input. The run is over then.
    fn finish<I: Source>(self, input: &mut I) -> Result<Played<P>, SimulationFault>
        requires { self.play.trace.read ≤ self.intake.given }
        ensures play { IfOk result (λ p. p.play ≡ self.play) }
        ensures read { IfOk result (λ p. p.play.trace.read ≤ p.packets) }
        ensures over { (cluster : Cluster) (choice : Choice) (plan : Planned) (text begun out : Tape) →
            Reached cluster choice plan text begun [] self (I.tape input.old) out →
            IfOk result (λ p. IsOver cluster choice plan self.intake.head text (I.tape input.new) begun out p.play.trace p.packets p.ending) }
        ensures short { (cluster : Cluster) (choice : Choice) (plan : Planned) (text begun out : Tape) →
            Reached cluster choice plan text begun [] self (I.tape input.old) out →
            IfErr result (λ fault. Shortened cluster choice plan self.intake.head text (I.tape input.new) begun out fault) }
    {
        let Stage {
            play,
            delivery: _,
            relay: _,
            kept: _,
            mut intake,
        } = self;
        let ending = intake.read_rest(input)?;
        Ok(Played {
            play,
            packets: intake.given(),
            ending,
        })
    }
}

/// Runs the steps over the records after a file header, record by record.
pub(crate) fn play_records<C: Core, P: Spread, I: Source, O: Outlet>(
    run: &RunContext<'_, C::Setup>,
    core: &mut C,
    spread: P,
    head: Head,
    input: &mut I,
    output: &mut O,
) -> Result<Played<P>, SimulationFault>
    requires fresh { C.stands run.now.setup.now [] core.old }
    requires live { P.live spread ≡ below (length run.now.plan.nodes.now) }
    requires nodes { length run.now.plan.nodes.now ≤ 64 }
    requires steps { length run.now.plan.steps.now ≤ 100000 }
    requires workers { (C.cluster run.now.setup.now).workers ≤ 16 }
    requires cluster { (C.cluster run.now.setup.now).nodes ≡ length run.now.plan.nodes.now }
    requires orderly { Orderly (C.cluster run.now.setup.now) }
    ensures over { let k = C.cluster run.now.setup.now in let plan = planned run.now.plan in
        let read = I.tape input.old in let begun = O.tape output.old in
        IfOk result (λ p. IsOver k (P.choice spread) plan head read (I.tape input.new) begun (O.tape output.new) p.play.trace p.packets p.ending) }
    ensures read { IfOk result (λ p. p.play.trace.read ≤ p.packets) }
    ensures stands { IfOk result (λ p. C.stands run.now.setup.now p.play.trace.past core.new) }
    ensures short { let k = C.cluster run.now.setup.now in let plan = planned run.now.plan in
        IfErr result (λ fault. Shortened k (P.choice spread) plan head (I.tape input.old) (I.tape input.new) (O.tape output.old) (O.tape output.new) fault) }
{
    let mut stage = Stage::make(run.alloc, run.plan, spread, head)?;
    stage.steps(run, core, input, output)?;
    stage.finish(input)
}
