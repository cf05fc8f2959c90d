//! Records that are kept since a step that is left delivers them again.
ghost use Rattle.std.specs.Prelude.{◌≡◌, ◌==◌, ◌++◌, ◌∷◌, [], ℕ, List, Some, None, IfOk, OnOk, if◌then◌else◌, option_map, length, slice_get};
ghost use Rattle.pcap_file.specs.Format.{Record, packet};
ghost use Rattle.timed_steps.specs.declared.TimedStep.{TimedStep};
ghost use Rattle.simulation.specs.PrivateSteps.{again_of};
ghost use Rattle.simulation.specs.PrivateKeeping.{names_again, names, is_at, kept_of, kept_at, times_in, KeepsNamed};

use event_trace::ScenarioStep;
use pcap_file::Frame;
use std::alloc::{AllocError, Global};
use std::collections::BTreeMap;
use std::rc::Rc;
use timed_steps::TimedStep;

/// How many steps that are left deliver a record again, and the record, once it was read. Its bytes are shared by all that
/// have it.
#[derive(Drop)]
pub(crate) struct Later {
    times: u64,
    frame: Option<Rc<Frame>>,
}

/// The records that steps which are left deliver again, by place in the capture.
#[derive(Drop)]
pub(crate) struct KeptRecords {
    places: BTreeMap<u32, Later>,
}

// The place of the record that a step by count delivers again.
fn again_at(step: &ScenarioStep) -> Option<u32>
    ensures { (place : ℕ) → names_again place step.now ≡ is_at place result }
{
    match step {
        ScenarioStep::Again(place) => Some(*place),
        _ => None,
    }
}

// The place of the record that a step delivers again.
fn named(step: &TimedStep) -> Option<u32>
    ensures { (place : ℕ) → names place step.now ≡ is_at place result }
{
    match step {
        TimedStep::Counted(step) => again_at(step),
        TimedStep::Until(_) => None,
    }
}

// A record once more, to be shared.
fn copy_of(alloc: Global, frame: &Frame) -> Result<Rc<Frame>, AllocError>
    ensures { IfOk result (λ f. packet f.value ≡ packet frame.now) }
{
    let copy = Frame {
        secs: frame.secs,
        micros: frame.micros,
        original: frame.original,
        bytes: Vec::from_slice(alloc, frame.bytes.as_slice())?,
    };
    Ok(Rc::new(alloc, copy)?)
}

// The same record, where there is one.
fn share(frame: &Option<Rc<Frame>>) -> Result<Option<Rc<Frame>>, AllocError>
    ensures { IfOk result (λ o. option_map (λ f. packet f.value) o ≡ option_map (λ f. packet f.value) frame.now) }
{
    match frame {
        Some(frame) => Ok(Some(frame.clone()?)),
        None => Ok(None),
    }
}

impl KeptRecords {
    // How many steps that are left name a place.
    #[inline(always)]
    fn times(&self, place: u32) -> u64
        ensures { result ≡ times_in (kept_at self.now place) }
    {
        match self.places.get(&place) {
            Some(later) => later.times,
            None => 0,
        }
    }

    // This is kept of a place from now on.
    fn set(&mut self, place: u32, later: Later) -> Result<(), AllocError>
        ensures { OnOk result ((q : ℕ) → kept_at self.new q ≡ (if q == place then Some (kept_of later) else kept_at self.old q)) }
    {
        self.places.insert(place, later)?;
        Ok(())
    }

    // Nothing is kept of a place from now on: what was.
    fn let_go(&mut self, place: u32) -> Option<Later>
        ensures was { option_map kept_of result ≡ kept_at self.old place }
        ensures gone { (q : ℕ) → kept_at self.new q ≡ (if q == place then None else kept_at self.old q) }
    {
        self.places.remove(&place)
    }

    // No record was read, and all steps are left.
    pub(crate) fn of_steps(alloc: Global, steps: &[TimedStep]) -> Result<KeptRecords, AllocError>
        ensures { IfOk result (KeepsNamed [] steps.now) }
    {
        let mut kept = KeptRecords {
            places: BTreeMap::new(alloc),
        };
        for step in steps {
            if let Some(place) = named(step) {
                let times = kept.times(place) + 1;
                kept.set(place, Later { times, frame: None })?;
            }
        }
        Ok(kept)
    }

    // The record of the next place was read. It is kept if a step that is left names it.
    #[inline(always)]
    pub(crate) fn note(
        &mut self,
        alloc: Global,
        place: u32,
        frame: &Frame,
    ) -> Result<(), AllocError>
        ensures { (seen : List Record) (ss : List TimedStep) → place ≡ length seen → KeepsNamed seen ss self.old →
            OnOk result (KeepsNamed (seen ++ packet frame.now ∷ []) ss self.new) }
    {
        let times = self.times(place);
        if times == 0 {
            return Ok(());
        }
        let frame = Some(copy_of(alloc, frame)?);
        self.set(place, Later { times, frame })
    }

    // A step that names a place is done: the record, if it was read. With the last of these steps it is let go.
    pub(crate) fn take(&mut self, place: u32) -> Result<Option<Rc<Frame>>, AllocError>
        ensures record { (seen : List Record) (ss : List TimedStep) → KeepsNamed seen (again_of place ∷ ss) self.old →
            IfOk result (λ o. option_map (λ f. packet f.value) o ≡ slice_get seen place) }
        ensures keeps { (seen : List Record) (ss : List TimedStep) → KeepsNamed seen (again_of place ∷ ss) self.old →
            OnOk result (KeepsNamed seen ss self.new) }
    {
        let Some(Later { times, frame }) = self.let_go(place) else {
            return Ok(None);
        };
        if times <= 1 {
            return Ok(frame);
        }
        let shared = share(&frame)?;
        let times = times - 1;
        self.set(place, Later { times, frame })?;
        Ok(shared)
    }
}
