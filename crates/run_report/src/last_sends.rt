//! The last send of each flow.
ghost use Rattle.std.specs.Prelude.{◌≡◌, ◌+◌, length, true, false, Option, None, IfSome, IfOk, OnOk, is_some, if◌then◌else◌};
ghost use Rattle.five_tuple.specs.declared.Flow.{Flow};
ghost use Rattle.run_report.specs.declared.noted.Noted.{Noted};
ghost use Rattle.run_report.specs.Splits.{sent_by};
ghost use Rattle.run_report.specs.Books.{told, with_send, AreLast, IsPlaceOf, RenewedAs};

use crate::noted::Noted;
use crate::sending::{Sending, version_of};
use backend_places::Backends;
use cluster_node::{Event, Outcome};
use connection_table::TableKey;
use five_tuple::Flow;
use flow_map::FlowMap;
use std::alloc::{AllocError, Global};

/// A send of a flow, with its backend's place, and what is kept beside it.
#[derive(Clone, Copy)]
struct LastSend<T> {
    number: u64,
    place: u32,
    version: u32,
    origin: u32,
    beside: T,
}

/// The last send of each flow, with what is kept beside it. An entry takes 24 bytes beside that and its flow, since a backend is
/// kept once for all of them.
#[derive(Drop)]
pub(crate) struct LastSends<T> {
    sends: FlowMap<LastSend<T>>,
    backends: Backends,
}

impl<T: Copy> LastSends<T> {
    /// Those of no sends. Flows are hashed by the key.
    pub(crate) fn new(alloc: Global, key: TableKey) -> LastSends<T>
        ensures last { AreLast (λ x. None) result }
        ensures flows { length result.sends ≡ 0 }
    {
        LastSends {
            sends: FlowMap::new(alloc, key),
            backends: Backends::new(alloc),
        }
    }

    /// How many flows there are.
    pub(crate) fn len(&self) -> usize
        ensures { result ≡ length self.now.sends }
    {
        self.sends.len()
    }

    /// Where the entry of a flow is.
    #[inline(always)]
    pub(crate) fn place_of(&self, flow: &Flow) -> Option<u32>
        ensures { IsPlaceOf flow.now self.now result }
    {
        self.sends.place_of(flow)
    }

    // The send that a flow's entry represents.
    fn told(&self, flow: &Flow, last: &LastSend<T>) -> Option<Noted<T>>
        ensures { result ≡ told self.now.backends flow.now last.now }
    {
        let backend = self.backends.at(last.place)?;
        let sending = Sending {
            number: last.number,
            flow: *flow,
            version: last.version,
            backend: *backend,
            origin: last.origin,
        };
        Some(Noted {
            sending,
            beside: last.beside,
        })
    }

    /// Takes what was sent at the event of a number as its flow's last send where the one before it went to the same backend.
    /// Whether it did. The place is that of the flow's entry.
    #[inline(always)]
    pub(crate) fn renew(
        &mut self,
        place: Option<u32>,
        number: u64,
        event: &Event,
        outcome: &Outcome,
        beside: T,
    ) -> bool
        requires { IfSome (sent_by number event.now outcome.now) (λ s. IsPlaceOf s.flow self.old place) }
        ensures last { (sent : Flow → Option (Noted T)) → result ≡ true → AreLast sent self.old →
            RenewedAs sent (sent_by number event.now outcome.now) beside self.old self.new }
        ensures same { result ≡ false → self.new ≡ self.old }
    {
        let Some(at) = place else {
            return false;
        };
        let Outcome::Forward {
            flow,
            backend,
            origin,
            ..
        } = outcome
        else {
            return false;
        };
        let there = self.sends.value_at(at, flow).place;
        if !self.backends.is_at(there, backend) {
            return false;
        }
        let version = version_of(event);
        let send = LastSend {
            number,
            place: there,
            version,
            origin: *origin,
            beside,
        };
        self.sends.set(at, *flow, send);
        true
    }

    /// A send is its flow's last. The answer is the one before it. The place is that of the flow's entry. Where memory is
    /// refused nothing more is known of these.
    pub(crate) fn put(
        &mut self,
        place: Option<u32>,
        later: &Noted<T>,
    ) -> Result<Option<Noted<T>>, AllocError>
        requires { IsPlaceOf later.now.sending.flow self.old place }
        ensures first { (sent : Flow → Option (Noted T)) → AreLast sent self.old → IfOk result (λ first. first ≡ sent later.now.sending.flow) }
        ensures last { (sent : Flow → Option (Noted T)) → AreLast sent self.old → OnOk result (AreLast (with_send sent later.now) self.new) }
        ensures flows { (sent : Flow → Option (Noted T)) → AreLast sent self.old →
            OnOk result (length self.new.sends ≡ length self.old.sends + (if is_some (sent later.now.sending.flow) then 0 else 1)) }
    {
        let sending = &later.sending;
        let there = self.backends.place_of(&sending.backend)?;
        let send = LastSend {
            number: sending.number,
            place: there,
            version: sending.version,
            origin: sending.origin,
            beside: later.beside,
        };
        match place {
            None => {
                self.sends.push(sending.flow, send)?;
                Ok(None)
            }
            Some(at) => {
                let first = *self.sends.value_at(at, &sending.flow);
                self.sends.set(at, sending.flow, send);
                Ok(self.told(&sending.flow, &first))
            }
        }
    }
}
