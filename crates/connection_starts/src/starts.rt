//! How often each flow has begun again.
ghost use Rattle.std.specs.Prelude.{◌≡◌, ◌+◌, ◌∷◌, [], List, Option, IfOk, OnOk};
ghost use Rattle.connection_starts.specs.declared.segment.Segment.{Segment};
ghost use Rattle.connection_starts.specs.Ordinals.{is_late, starts_of, newest_ordinal, with_segment};
ghost use Rattle.connection_starts.specs.Known.{AreStartsOf, known_at};

use crate::segment::Segment;
use connection_table::TableKey;
use five_tuple::Flow;
use std::alloc::{AllocError, Global};
use std::collections::HashMap;

/// When a flow begins again.
#[derive(Clone, Copy, Debug, PartialEq, Eq)]
pub struct StartRules {
    /// Whether the checksum of IPv4 headers is tested. A record where it is wrong carries no segment then.
    pub check: bool,
    /// After how many microseconds without a segment of the flow a SYN without ACK begins it again. None: only after FIN or RST.
    pub idle: Option<u64>,
}

/// What is known of a flow: how often it began again, whether it is over, and when its last segment came.
#[derive(Clone, Copy)]
struct Known {
    ordinal: u32,
    is_over: bool,
    at: u64,
}

/// What is known of each flow.
#[derive(Drop)]
pub(crate) struct Starts {
    idle: Option<u64>,
    flows: HashMap<Flow, Known, TableKey>,
}

// Whether a segment came at least so long after the one before it.
fn is_late(idle: Option<u64>, before: u64, now: u64) -> bool
    ensures { result ≡ is_late idle (Option.Some before) now }
{
    match idle {
        None => false,
        Some(idle) => !(now.saturating_sub(before) < idle),
    }
}

// The ordinal of the next connection. Where it has no room it is refused, as memory is.
fn next(ordinal: u32) -> Result<u32, AllocError>
    ensures { IfOk result (λ n. n ≡ ordinal + 1) }
{
    match ordinal.checked_add(1) {
        Some(next) => Ok(next),
        None => Err(AllocError),
    }
}

impl Starts {
    /// Nothing came. Flows are hashed by the key.
    pub(crate) fn new(alloc: Global, key: TableKey, idle: Option<u64>) -> Starts
        ensures starts { AreStartsOf [] result }
        ensures idle { result.idle ≡ idle }
    {
        Starts {
            idle,
            flows: HashMap::with_hasher(alloc, key),
        }
    }

    // What is known of a flow after a segment more.
    fn after(&self, segment: &Segment) -> Result<Known, AllocError>
        ensures { (past : List Segment) → AreStartsOf past self.now →
            IfOk result (λ k. k ≡ known_at self.now.idle (segment.now ∷ past) segment.now.flow segment.now.at) }
    {
        let Segment { at, .. } = *segment;
        let Some(known) = self.flows.get(&segment.flow) else {
            let is_over = segment.closes();
            return Ok(Known {
                ordinal: 0,
                is_over,
                at,
            });
        };
        let Known {
            ordinal,
            is_over,
            at: before,
        } = *known;
        if segment.opens() && (is_over || is_late(self.idle, before, at)) {
            let ordinal = next(ordinal)?;
            let is_over = segment.closes();
            return Ok(Known {
                ordinal,
                is_over,
                at,
            });
        }
        let is_over = segment.closes() || (is_over && !segment.opens());
        Ok(Known {
            ordinal,
            is_over,
            at,
        })
    }

    // A segment more. The answer is the ordinal of its connection.
    fn put(&mut self, segment: &Segment) -> Result<u32, AllocError>
        ensures ordinal { (past : List Segment) → AreStartsOf past self.old →
            IfOk result (λ n. n ≡ starts_of self.old.idle (segment.now ∷ past) segment.now.flow) }
        ensures starts { (past : List Segment) → AreStartsOf past self.old → OnOk result (AreStartsOf (segment.now ∷ past) self.new) }
        ensures idle { self.new.idle ≡ self.old.idle }
    {
        let known = self.after(segment)?;
        let Ok(_) = self.flows.insert(segment.flow, known) else {
            return Err(AllocError);
        };
        Ok(known.ordinal)
    }

    /// A record more, with its segment, if it has one. The answer is the ordinal of its connection. Where memory is refused
    /// nothing more is known of these.
    pub(crate) fn note(&mut self, segment: Option<Segment>) -> Result<u32, AllocError>
        ensures ordinal { (past : List Segment) → AreStartsOf past self.old → IfOk result (λ n. n ≡ newest_ordinal self.old.idle segment past) }
        ensures starts { (past : List Segment) → AreStartsOf past self.old → OnOk result (AreStartsOf (with_segment segment past) self.new) }
        ensures idle { self.new.idle ≡ self.old.idle }
    {
        match segment {
            None => Ok(0),
            Some(segment) => self.put(&segment),
        }
    }
}
