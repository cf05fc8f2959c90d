//! Sends one after another, and the changes between them.
ghost use Rattle.std.specs.Prelude.{◌≡◌, ◌++◌, ◌∷◌, [], List, map, reverse, OnOk};
ghost use Rattle.summary_book.specs.declared.sent.Sent.{Sent};
ghost use Rattle.summary_book.specs.Sents.{change_if};
ghost use Rattle.summary_book.specs.Lasts.{IsPlaceOf};
ghost use Rattle.summary_book.specs.Looks.{AreSeen};

use crate::last::Lasts;
use crate::sent::{Sent, change_of};
use connection_changes::Change;
use connection_table::TableKey;
use run_report::Split;
use std::alloc::{AllocError, Global};

/// How many sends are looked up at once.
pub(crate) const AT_ONCE: usize = 32;

/// What was seen of some sends: the last one of each flow, and the changes, in the order of their later sends.
#[derive(Drop)]
pub(crate) struct SeenSends {
    pub(crate) last: Lasts,
    pub(crate) splits: Vec<Split>,
    pub(crate) changes: Vec<Change>,
}

// The hash of each send's flow.
fn hash_all(key: TableKey, sends: &[Sent], places: &mut [u32; AT_ONCE]) {
    for (place, sent) in places.iter_mut().zip(sends.iter()) {
        *place = key.hash_of(&sent.flow);
    }
}

// Where the entry of each send's flow may be, by the flows' hashes, so that their groups are on the way at the same time.
fn guess_all(last: &Lasts, sends: &[Sent], places: &mut [u32; AT_ONCE]) {
    for (place, _) in places.iter_mut().zip(sends.iter()) {
        *place = last.guess(*place);
    }
}

// Strikes out what was guessed wrong, so that the entries are on the way at the same time.
fn check_all(last: &Lasts, sends: &[Sent], places: &mut [u32; AT_ONCE]) {
    for (place, sent) in places.iter_mut().zip(sends.iter()) {
        if !last.is_at(*place, &sent.flow) {
            *place = 0;
        }
    }
}

impl SeenSends {
    /// None was seen. Flows are hashed by the key.
    pub(crate) fn new(alloc: Global, key: TableKey) -> SeenSends
        ensures { AreSeen [] result }
    {
        SeenSends {
            last: Lasts::new(alloc, key),
            splits: Vec::new(alloc),
            changes: Vec::new(alloc),
        }
    }

    // A send after the flow's last one.
    fn compare(&mut self, first: &Sent, later: &Sent) -> Result<(), AllocError>
        ensures changes { OnOk result (self.new.changes.items ≡ self.old.changes.items ++ change_if first.now later.now) }
        ensures splits { OnOk result (self.new.splits.items ≡ self.old.splits.items ++ map (λ c. c.split) (change_if first.now later.now)) }
        ensures rest { self.new ≡ record self.old { splits = self.new.splits; changes = self.new.changes } }
    {
        if first.backend == later.backend {
            return Ok(());
        }
        let change = change_of(first, later);
        let Ok(()) = self.splits.push(change.split) else {
            return Err(AllocError);
        };
        let Ok(()) = self.changes.push(change) else {
            return Err(AllocError);
        };
        Ok(())
    }

    // A send whose flow is new, or whose last one went elsewhere. The place is that of the flow's entry.
    #[inline(never)]
    fn take_anew(&mut self, place: Option<u32>, later: &Sent) -> Result<(), AllocError>
        requires { IsPlaceOf later.now.flow self.old.last place }
        ensures { (done : List Sent) → AreSeen done self.old → OnOk result (AreSeen (later.now ∷ done) self.new) }
    {
        match self.last.put(place, later)? {
            None => Ok(()),
            Some(first) => self.compare(&first, later),
        }
    }

    // A send is its flow's last. Where its entry is may be guessed.
    #[inline(always)]
    fn take(&mut self, guess: u32, later: &Sent) -> Result<(), AllocError>
        ensures { (done : List Sent) → AreSeen done self.old → OnOk result (AreSeen (later.now ∷ done) self.new) }
    {
        let place = self.last.place_by(guess, &later.flow);
        if self.last.renew(place, later) {
            return Ok(());
        }
        self.take_anew(place, later)
    }

    // Sends one after another, whose entries are at these places, or elsewhere.
    fn take_each(&mut self, sends: &[Sent], places: &[u32; AT_ONCE]) -> Result<(), AllocError>
        ensures { (done : List Sent) → AreSeen done self.old → OnOk result (AreSeen (reverse sends.now ++ done) self.new) }
    {
        for number in 0..sends.len() {
            let guess = places.get(number).copied().unwrap_or(0);
            self.take(guess, &sends[number])?;
        }
        Ok(())
    }

    /// Sends one after another. Mostly they are no more than are looked up at once. Where memory is refused nothing more is known
    /// of these.
    pub(crate) fn take_all(&mut self, key: TableKey, sends: &[Sent]) -> Result<(), AllocError>
        ensures { (done : List Sent) → AreSeen done self.old → OnOk result (AreSeen (reverse sends.now ++ done) self.new) }
    {
        let mut places = [0; AT_ONCE];
        hash_all(key, sends, &mut places);
        guess_all(&self.last, sends, &mut places);
        check_all(&self.last, sends, &mut places);
        self.take_each(sends, &places)
    }
}
