//! The last send of each flow, as far as a cause depends on it.
ghost use Rattle.std.specs.Prelude.{◌≡◌, ◌+◌, length, true, false, Option, None, IfOk, OnOk, is_some, option_map, if◌then◌else◌};
ghost use Rattle.five_tuple.specs.declared.Flow.{Flow};
ghost use Rattle.summary_book.specs.declared.sent.Sent.{Sent};
ghost use Rattle.summary_book.specs.Lasts.{told, with_sent, AreLast, IsPlaceOf, RenewedAs};
ghost use Rattle.summary_book.specs.Sents.{unversioned};

use crate::sent::Sent;
use backend_places::Backends;
use connection_table::TableKey;
use five_tuple::Flow;
use flow_map::FlowMap;
use std::alloc::{AllocError, Global};

/// A flow's last send: its backend's place, the version under which the backend was chosen, and who sent it. With its flow it
/// takes 32 bytes.
#[derive(Clone, Copy)]
struct Last {
    place: u32,
    origin: u32,
    node: u16,
    worker: u16,
    life: u32,
}

/// The last send of each flow.
#[derive(Drop)]
pub(crate) struct Lasts {
    sends: FlowMap<Last>,
    backends: Backends,
}

impl Lasts {
    /// Those of no sends. Flows are hashed by the key.
    pub(crate) fn new(alloc: Global, key: TableKey) -> Lasts
        ensures last { AreLast (λ x. None) result }
        ensures flows { length result.sends ≡ 0 }
    {
        Lasts {
            sends: FlowMap::new(alloc, key),
            backends: Backends::new(alloc),
        }
    }

    /// How many flows there are.
    pub(crate) fn len(&self) -> usize
        ensures { result ≡ length self.now.sends }
    {
        self.sends.len()
    }

    /// A place where the entry of a flow of this hash may be.
    #[inline(always)]
    pub(crate) fn guess(&self, hash: u32) -> u32 {
        self.sends.guess(hash)
    }

    /// Whether the entry of a flow is at a place.
    #[inline(always)]
    pub(crate) fn is_at(&self, place: u32, flow: &Flow) -> bool {
        self.sends.is_at(place, flow)
    }

    /// Where the entry of a flow is, where one is guessed.
    #[inline(always)]
    pub(crate) fn place_by(&self, guess: u32, flow: &Flow) -> Option<u32>
        ensures { IsPlaceOf flow.now self.now result }
    {
        self.sends.place_by(guess, flow)
    }

    // The send that a flow's entry represents, without its version.
    fn told(&self, flow: &Flow, last: &Last) -> Option<Sent>
        ensures { result ≡ told self.now.backends flow.now last.now }
    {
        let backend = self.backends.at(last.place)?;
        Some(Sent {
            flow: *flow,
            backend: *backend,
            version: 0,
            origin: last.origin,
            node: last.node,
            worker: last.worker,
            life: last.life,
        })
    }

    /// Takes a send as its flow's last where the one before it went to the same backend. Whether it did. The place is that of the
    /// flow's entry.
    #[inline(always)]
    pub(crate) fn renew(&mut self, place: Option<u32>, later: &Sent) -> bool
        requires { IsPlaceOf later.now.flow self.old place }
        ensures last { (sent : Flow → Option Sent) → result ≡ true → AreLast sent self.old → RenewedAs sent later.now self.old self.new }
        ensures same { result ≡ false → self.new ≡ self.old }
    {
        let Some(at) = place else {
            return false;
        };
        let there = self.sends.value_at(at, &later.flow).place;
        if !self.backends.is_at(there, &later.backend) {
            return false;
        }
        let last = Last {
            place: there,
            origin: later.origin,
            node: later.node,
            worker: later.worker,
            life: later.life,
        };
        self.sends.set(at, later.flow, last);
        true
    }

    /// A send is its flow's last. The answer is the one before it, without its version. The place is that of the flow's entry.
    /// Where memory is refused nothing more is known of these.
    pub(crate) fn put(
        &mut self,
        place: Option<u32>,
        later: &Sent,
    ) -> Result<Option<Sent>, AllocError>
        requires { IsPlaceOf later.now.flow self.old place }
        ensures first { (sent : Flow → Option Sent) → AreLast sent self.old → IfOk result (λ first. first ≡ option_map unversioned (sent later.now.flow)) }
        ensures last { (sent : Flow → Option Sent) → AreLast sent self.old → OnOk result (AreLast (with_sent sent later.now) self.new) }
        ensures flows { (sent : Flow → Option Sent) → AreLast sent self.old →
            OnOk result (length self.new.sends ≡ length self.old.sends + (if is_some (sent later.now.flow) then 0 else 1)) }
    {
        let there = self.backends.place_of(&later.backend)?;
        let last = Last {
            place: there,
            origin: later.origin,
            node: later.node,
            worker: later.worker,
            life: later.life,
        };
        match place {
            None => {
                self.sends.push(later.flow, last)?;
                Ok(None)
            }
            Some(at) => {
                let first = *self.sends.value_at(at, &later.flow);
                self.sends.set(at, later.flow, last);
                Ok(self.told(&later.flow, &first))
            }
        }
    }
}
