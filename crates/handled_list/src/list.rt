//! A list of what a worker handled.
ghost use Rattle.std.specs.Prelude.{◌≡◌, ◌<◌, ◌^◌, ◌==◌, [], ◌∷◌, ◌++◌, length, reverse, Some, IsOk, OnOk, IsTrue, MatchOption, option_map, option_copied, unwrap_or};
ghost use Rattle.std.specs.Prelude.{slice_get, vec_len, vec_capacity};
ghost use Rattle.forwarder.specs.declared.Choice.TheVariants.{Forward, NoBackend};
ghost use Rattle.handled_list.specs.Meant.{told, unstored_of, opened_choice, opened, Tells};

use crate::handled::Handled;
use crate::kept::{Kept, KeptChoice};
use backend_places::Backends;
use forwarder::Choice;
use pool_versions::Backend;
use std::alloc::{AllocError, Global};
use std::fmt;
use std::marker::Model;

/// A list of what a worker handled. It takes 48 bytes for each packet. A backend is kept once, where memory for its place isn't
/// refused. At most 4,294,967,296 are kept without a place; room for one more is refused, as memory is.
#[derive(Drop)]
pub struct HandledList {
    kept: Vec<Kept>,
    known: Backends,
    // The backends that got no place.
    strangers: Vec<Backend>,
}

impl Model for HandledList {
    ghost use Rattle.handled_list.specs.Lists.{HandledItems};
    ghost use Rattle.handled_list.specs.Meant.{meant, is_ready, AreThere};

    // the list that is meant, and whether there is room for one more
    ghost Value = { HandledItems };

    ghost view = { λ l. record { items = meant l.known l.strangers.items l.kept.items; ready = is_ready l.kept l.strangers } };

    ghost invariant = { λ l. AreThere l.known l.strangers.items l.kept.items };
}

impl fmt::Debug for HandledList {
    fn fmt<W: fmt::Write>(&self, f: &mut fmt::Formatter<W>) -> fmt::Result {
        f.debug_struct("HandledList")
            .field("len", &self.kept.len())
            .field("strangers", &self.strangers.len())
            .finish_non_exhaustive()
    }
}

// The backend of a choice, kept at its place. Where it gets none it is put after the strangers.
fn keep_backend(
    known: &mut Backends,
    strangers: &mut Vec<Backend>,
    unstored: bool,
    backend: &Backend,
    origin: u32,
) -> KeptChoice
    requires room { vec_len strangers.old < vec_capacity strangers.old }
    requires few { vec_len strangers.old < 2 ^ 32 }
    ensures choice { told known.new strangers.new.items result ≡ Some (Forward backend.now origin) }
    ensures unstored { unstored_of result ≡ unstored }
    ensures others { Tells known.old strangers.old.items known.new strangers.new.items }
{
    match known.place_of(backend) {
        Ok(place) => KeptChoice::Known {
            unstored,
            place,
            origin,
        },
        Err(_) => {
            let index = strangers.len() as u32;
            strangers.push_reserved(*backend);
            KeptChoice::Stranger {
                unstored,
                index,
                origin,
            }
        }
    }
}

// Keeps a choice.
#[inline(always)]
fn keep(
    known: &mut Backends,
    strangers: &mut Vec<Backend>,
    unstored: bool,
    choice: &Choice,
) -> KeptChoice
    requires room { vec_len strangers.old < vec_capacity strangers.old }
    requires few { vec_len strangers.old < 2 ^ 32 }
    ensures choice { told known.new strangers.new.items result ≡ Some choice.now }
    ensures unstored { unstored_of result ≡ unstored }
    ensures others { Tells known.old strangers.old.items known.new strangers.new.items }
{
    match *choice {
        Choice::Forward { backend, origin } => {
            keep_backend(known, strangers, unstored, &backend, origin)
        }
        Choice::NoService => KeptChoice::NoService { unstored },
        Choice::NoBackend => KeptChoice::NoBackend { unstored },
    }
}

// Forwards to this backend, where there is one.
#[inline(always)]
fn forward(backend: Option<&Backend>, origin: u32) -> Choice
    ensures { result ≡ unwrap_or (option_map (λ b. Forward b origin) (option_copied backend.entry)) NoBackend }
{
    match backend {
        Some(backend) => Choice::Forward {
            backend: *backend,
            origin,
        },
        None => Choice::NoBackend,
    }
}

// The choice that is kept.
#[inline(always)]
fn opened_choice(known: &Backends, strangers: &[Backend], kept: &KeptChoice) -> Choice
    ensures { result ≡ opened_choice known.now strangers.now kept.now }
{
    match *kept {
        KeptChoice::Known { place, origin, .. } => forward(known.at(place), origin),
        KeptChoice::Stranger { index, origin, .. } => {
            forward(strangers.get(index as usize), origin)
        }
        KeptChoice::NoService { .. } => Choice::NoService,
        KeptChoice::NoBackend { .. } => Choice::NoBackend,
    }
}

// Whether a new entry was due and none was made.
#[inline(always)]
fn is_unstored(kept: &KeptChoice) -> bool
    ensures { result ≡ unstored_of kept.now }
{
    match *kept {
        KeptChoice::Known { unstored, .. }
        | KeptChoice::Stranger { unstored, .. }
        | KeptChoice::NoService { unstored }
        | KeptChoice::NoBackend { unstored } => unstored,
    }
}

// What an entry stands for.
#[inline(always)]
fn opened(known: &Backends, strangers: &[Backend], kept: &Kept) -> Handled
    ensures { result ≡ opened known.now strangers.now kept.now }
{
    Handled {
        item: kept.item,
        version: kept.version,
        choice: opened_choice(known, strangers, &kept.choice),
        unstored: is_unstored(&kept.choice),
    }
}

impl HandledList {
    /// A list of nothing. This takes no memory.
    pub fn new(alloc: Global) -> HandledList
        ensures { result.items ≡ [] }
    {
        HandledList {
            kept: Vec::new(alloc),
            known: Backends::new(alloc),
            strangers: Vec::new(alloc),
        }
    }

    /// How many packets were handled.
    #[inline(always)]
    pub fn len(&self) -> usize
        ensures { result ≡ length self.now.items }
    {
        self.kept.len()
    }

    /// Whether no packet was handled.
    #[inline(always)]
    pub fn is_empty(&self) -> bool
        ensures { result ≡ (length self.now.items == 0) }
    {
        self.kept.is_empty()
    }

    /// What stands at a place, from 0 on.
    #[inline(always)]
    pub fn get(&self, at: usize) -> Option<Handled>
        ensures { result ≡ slice_get self.now.items at }
    {
        let kept = self.kept.get(at)?;
        Some(opened(&self.known, self.strangers.as_slice(), kept))
    }

    /// Room for one more. Where memory is refused for it, nothing is lost.
    #[inline(always)]
    pub fn reserve(&mut self) -> Result<(), AllocError>
        ensures items { self.new.items ≡ self.old.items }
        ensures ok { OnOk result (IsTrue self.new.ready) }
        ensures succeeds { IsTrue self.old.ready → IsOk result }
    {
        if u32::try_from(self.strangers.len()).is_err() {
            return Err(AllocError);
        }
        self.strangers.reserve(1)?;
        self.kept.reserve(1)
    }

    /// Puts one more at the end, for which there is room.
    #[inline(always)]
    pub fn push_reserved(&mut self, handled: Handled)
        requires { IsTrue self.old.ready }
        ensures { self.new.items ≡ self.old.items ++ handled ∷ [] }
    {
        let choice = keep(
            &mut self.known,
            &mut self.strangers,
            handled.unstored,
            &handled.choice,
        );
        self.kept.push_reserved(Kept {
            item: handled.item,
            version: handled.version,
            choice,
        });
    }

    /// Turns the list round.
    pub fn reverse(&mut self)
        ensures { self.new.items ≡ reverse self.old.items }
    {
        self.kept.reverse();
    }

    /// Takes the last one away, where there is one.
    #[inline(always)]
    pub fn pop(&mut self) -> Option<Handled>
        ensures { MatchOption result ((self.old.items ≡ []) × (self.new.items ≡ [])) (λ last. self.old.items ≡ self.new.items ++ last ∷ []) }
    {
        let kept = self.kept.pop()?;
        Some(opened(&self.known, self.strangers.as_slice(), &kept))
    }

    /// Gives back the memory of what was taken away.
    pub fn shrink(&mut self)
        ensures { self.new.items ≡ self.old.items }
    {
        self.kept.shrink_to_fit();
    }
}
