//! The records of a capture, read one by one.
ghost use Rattle.std.specs.Prelude.{◌≡◌, ◌≤◌, ◌+◌, ◌==◌, true, false, None, IfOk, IfErr, OnOk, IsOk, List, is_some, if◌then◌else◌};
ghost use Rattle.pcap_file.specs.Device.{Tape};
ghost use Rattle.pcap_file.specs.Format.{Record, packet, max_records};
ghost use Rattle.pcap_file.specs.Text.{RefusedBehind};
ghost use Rattle.simulation.specs.declared.fault.SimulationFault.TheVariants.{Capture};
ghost use Rattle.simulation.specs.Sent.{time_of};
ghost use Rattle.simulation.specs.Intake.{comes_early, IsNext, Seen, SeenMore, StandsStill, ReadOrEnded, NextRefused, Looked, ReadOn, ReadStops};

use crate::lent::LentRecord;
use ip_headers::Link;
use pcap_file::{Ending, Frame, Head, InputEnd, PcapFault, Source, read_record_into};
use std::alloc::{AllocError, Global};
use std::marker::Model;
use std::mem;
use std::rc::Rc;
use timed_steps::is_before;

/// The record handed out last, or one that was lent since; how many were handed out, and how the input ended, if it did. A
/// record that was read and not handed out yet waits as the next one. The time of the first record is kept.
#[derive(Drop)]
pub(crate) struct Intake {
    head: Head,
    frame: Frame,
    lent: Option<Rc<Frame>>,
    given: u32,
    ended: Option<InputEnd>,
    coming: Frame,
    waits: bool,
    first: u64,
}

impl Model for Intake {
    ghost use Rattle.simulation.specs.Intake.{Taking, lent_or, ahead_if, Within};
    ghost use Rattle.pcap_file.specs.Format.{packet};

    ghost Value = { Taking };

    ghost view = { λ i. record {
      head = i.head;
      record_read = lent_or (λ f. packet f.value) i.lent (packet i.frame);
      given = i.given;
      ended = i.ended;
      ahead = ahead_if i.waits (packet i.coming);
      first = i.first;
    } };

    ghost invariant = { λ i. Within i.given i.waits i.ended };
}

// Reads a record into the frame, or learns how the input ends.
#[inline(always)]
fn read_next<I: Source>(
    input: &mut I,
    head: Head,
    given: u32,
    frame: &mut Frame,
) -> Result<Option<InputEnd>, PcapFault>
    ensures read { IfOk result (λ ending. ReadOrEnded head given (I.tape input.old) (I.tape input.new) (packet frame.new) ending) }
    ensures refused { IfErr result (λ fault. NextRefused head given (I.tape input.old) (I.tape input.new) fault) }
{
    match read_record_into(input, head, given, frame) {
        Ok(()) => Ok(None),
        Err(Ending::End) => Ok(Some(InputEnd::End)),
        Err(Ending::Cut) => Ok(Some(InputEnd::Cut)),
        Err(Ending::Failed(fault)) => Err(fault),
    }
}

// The first record's time, where this frame is read after so many.
#[inline(always)]
fn first_with(first: u64, given: u32, frame: &Frame) -> u64
    ensures { result ≡ (if given == 0 then time_of (packet frame.now) else first) }
{
    if given == 0 {
        LentRecord::of(frame).time()
    } else {
        first
    }
}

impl Intake {
    // Nothing was read after the header.
    pub(crate) fn new(alloc: Global, head: Head) -> Intake
        ensures head { result.head ≡ head }
        ensures fresh { result.ended ≡ None }
        ensures none { result.given ≡ 0 }
        ensures clear { result.ahead ≡ None }
        ensures first { result.first ≡ 0 }
    {
        Intake {
            head,
            frame: Frame::empty(alloc),
            lent: None,
            given: 0,
            ended: None,
            coming: Frame::empty(alloc),
            waits: false,
            first: 0,
        }
    }

    // What the records' bytes begin with.
    #[inline(always)]
    pub(crate) fn link(&self) -> Link
        ensures { result ≡ self.now.head.link }
    {
        self.head.link
    }

    // How many were handed out.
    #[inline(always)]
    pub(crate) fn given(&self) -> u32
        ensures value { result ≡ self.now.given }
        ensures few { self.now.given ≤ max_records }
    {
        self.given
    }

    // The record handed out last, or the one that was lent since.
    #[inline(always)]
    pub(crate) fn frame(&self) -> &Frame
        ensures { packet result.now ≡ self.now.record_read }
    {
        match &self.lent {
            Some(frame) => frame.as_ref(),
            None => &self.frame,
        }
    }

    // Hands out the next record, which is read where none is ahead, unless the input has ended.
    #[inline(always)]
    pub(crate) fn next<I: Source>(&mut self, input: &mut I) -> Result<bool, PcapFault>
        ensures head { self.new.head ≡ self.old.head }
        ensures more { (text : Tape) (seen : List Record) → Seen text seen (I.tape input.old) self.old →
            IfOk result (λ more. SeenMore more text seen (I.tape input.new) self.new) }
        ensures same { IfOk result (λ more. more ≡ true → (self.new.ended ≡ self.old.ended) × (self.new.given ≡ self.old.given + 1)) }
        ensures none { IfOk result (λ more. more ≡ false → (self.new.given ≡ self.old.given) × (is_some self.new.ended ≡ true)) }
        ensures end { is_some self.old.ended ≡ true → IfOk result (λ more. (more ≡ false) × (self.new ≡ self.old)) }
        ensures few { self.new.given ≤ max_records }
        ensures is_next { IfOk result (λ more. more ≡ true → IsNext self.old.ahead self.new.record_read) }
        ensures comes { is_some self.old.ahead ≡ true → IfOk result (λ more. more ≡ true) }
        ensures fault { (text : Tape) (seen : List Record) → Seen text seen (I.tape input.old) self.old →
            IfErr result (λ fault. RefusedBehind self.old.head text (I.tape input.new) seen fault) }
        ensures closed { is_some self.old.ended ≡ true → IsOk result }
        ensures clear { IfErr result (λ _. self.old.ahead ≡ None) }
    {
        if self.ended.is_some() {
            return Ok(false);
        }
        self.lent = None;
        if self.waits {
            mem::swap(&mut self.frame, &mut self.coming);
            self.waits = false;
            self.given += 1;
            return Ok(true);
        }
        match read_next(input, self.head, self.given, &mut self.frame) {
            Ok(None) => {
                self.first = first_with(self.first, self.given, &self.frame);
                self.given += 1;
                Ok(true)
            }
            Ok(Some(ending)) => {
                self.ended = Some(ending);
                Ok(false)
            }
            Err(fault) => Err(fault),
        }
    }

    // Reads the next record ahead, unless one is ahead or the input has ended.
    pub(crate) fn look<I: Source>(&mut self, input: &mut I) -> Result<(), PcapFault>
        ensures head { self.new.head ≡ self.old.head }
        ensures given { self.new.given ≡ self.old.given }
        ensures seen { (text : Tape) (seen : List Record) → Seen text seen (I.tape input.old) self.old →
            OnOk result (Seen text seen (I.tape input.new) self.new) }
        ensures looked { OnOk result (Looked self.old self.new) }
        ensures fault { (text : Tape) (seen : List Record) → Seen text seen (I.tape input.old) self.old →
            IfErr result (λ fault. RefusedBehind self.old.head text (I.tape input.new) seen fault) }
        ensures clear { IfErr result (λ _. self.old.ahead ≡ None) }
    {
        if self.waits {
            return Ok(());
        }
        if self.ended.is_some() {
            return Ok(());
        }
        match read_next(input, self.head, self.given, &mut self.coming) {
            Ok(None) => {
                self.first = first_with(self.first, self.given, &self.coming);
                self.waits = true;
                Ok(())
            }
            Ok(Some(ending)) => {
                self.ended = Some(ending);
                Ok(())
            }
            Err(fault) => Err(fault),
        }
    }

    // Whether a record is ahead that came less than so long after the first.
    pub(crate) fn is_early(&self, micros: u64) -> bool
        ensures { result ≡ comes_early self.now.first micros self.now.ahead }
    {
        if !self.waits {
            return false;
        }
        is_before(self.first, micros, LentRecord::of(&self.coming).time())
    }

    // Reads what is left of the input, and says how it ends.
    pub(crate) fn read_rest<I: Source>(&mut self, input: &mut I) -> Result<InputEnd, PcapFault>
        ensures head { self.new.head ≡ self.old.head }
        ensures told { (text : Tape) (seen : List Record) → Seen text seen (I.tape input.old) self.old →
            IfOk result (λ ending. ReadOn text seen (I.tape input.new) ending self.old self.new) }
        ensures more { OnOk result (self.old.given ≤ self.new.given) }
        ensures fault { (text : Tape) (seen : List Record) → Seen text seen (I.tape input.old) self.old →
            IfErr result (λ fault. ReadStops self.old text seen (I.tape input.new) (Capture fault)) }
    {
        while self.next(input)? {}
        match self.ended {
            Some(ending) => Ok(ending),
            None => unreachable!(),
        }
    }

    // This record stands for the one handed out last, until the next is.
    #[inline(always)]
    pub(crate) fn lend(&mut self, frame: Rc<Frame>)
        ensures { self.new ≡ record self.old { record_read = packet frame.value } }
    {
        self.lent = Some(frame);
    }

    // The record handed out last, or the one that was lent since, to be kept beside it.
    pub(crate) fn share(&mut self, alloc: Global) -> Result<Rc<Frame>, AllocError>
        ensures record { IfOk result (λ f. packet f.value ≡ self.old.record_read) }
        ensures rest { StandsStill self.old self.new }
    {
        match &self.lent {
            Some(frame) => frame.clone(),
            None => {
                let frame = mem::replace(&mut self.frame, Frame::empty(alloc));
                Ok(Rc::new(alloc, frame)?)
            }
        }
    }
}
