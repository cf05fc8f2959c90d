//! Why two packets went where they went.
ghost use Rattle.std.specs.Prelude.{◌≡◌, ◌<◌, true};
ghost use Rattle.selection.specs.Picks.{slot_of_flow};
ghost use Rattle.cluster_core.specs.Setups.{rules_for};
ghost use Rattle.cluster_core.specs.Explain.{send_of, explained, PickedSend, Explains};

use crate::fixed::Setup;
use cluster_node::Outcome;
use five_tuple::Flow;
use hash_laws::FlowHash;
use pool_versions::{Backend, Catalogue};
use selection::Scheme;

/// How two outcomes differ.
#[derive(Clone, Copy, Debug, PartialEq, Eq)]
pub enum Verdict {
    /// One of them isn't a packet that was sent.
    NotSent,
    /// Packets of two flows.
    OtherFlow,
    /// One flow, one backend.
    Same,
    /// One flow was sent to two backends: its slot, the versions under which they were chosen, and the backends.
    Split {
        slot: u32,
        v1: u32,
        v2: u32,
        b1: Backend,
        b2: Backend,
    },
}

/// Compares two outcomes of a list that was judged. Each packet that was sent went to the scheme's pick under its origin, as
/// `replay` promises for a scheme to which the turn doesn't matter. For such a scheme the two versions of a split pick
/// different backends for the flow (`why`). No memory is taken.
pub fn explain<S: Scheme, H: FlowHash>(
    setup: &Setup<S, H>,
    catalogue: &Catalogue,
    one: &Outcome,
    other: &Outcome,
) -> Verdict
    requires size { catalogue.now.size ≡ setup.now.size }
    requires one { let rules = rules_for (λ s z. S.pick s z) (λ h. H.plain h) setup.now catalogue.now in
        S.STEADY ≡ true → PickedSend rules (send_of one.now) }
    requires other { let rules = rules_for (λ s z. S.pick s z) (λ h. H.plain h) setup.now catalogue.now in
        S.STEADY ≡ true → PickedSend rules (send_of other.now) }
    ensures verdict { result ≡ explained (λ x. slot_of_flow (H.plain setup.now.hash) setup.now.size x) (send_of one.now) (send_of other.now) }
    ensures why { let rules = rules_for (λ s z. S.pick s z) (λ h. H.plain h) setup.now catalogue.now in
        S.STEADY ≡ true → Explains rules (λ x. slot_of_flow (H.plain setup.now.hash) setup.now.size x) (send_of one.now) result }
{
    let _ = catalogue;
    compare(setup, one, other)
}

// The slot of a flow.
fn slot_at<S: Scheme, H: FlowHash>(setup: &Setup<S, H>, flow: &Flow) -> u32
    ensures { result ≡ slot_of_flow (H.plain setup.now.hash) setup.now.size flow.now }
{
    let size = setup.size().slots();
    (setup.hash().hash(b'f', &flow.bytes()) % u64::from(size)) as u32
}

fn compare<S: Scheme, H: FlowHash>(setup: &Setup<S, H>, one: &Outcome, other: &Outcome) -> Verdict
    ensures { result ≡ explained (λ x. slot_of_flow (H.plain setup.now.hash) setup.now.size x) (send_of one.now) (send_of other.now) }
{
    match (*one, *other) {
        (
            Outcome::Forward {
                flow,
                backend: b1,
                origin: v1,
                ..
            },
            Outcome::Forward {
                flow: flow2,
                backend: b2,
                origin: v2,
                ..
            },
        ) => {
            if flow != flow2 {
                Verdict::OtherFlow
            } else if b1 == b2 {
                Verdict::Same
            } else {
                Verdict::Split {
                    slot: slot_at(setup, &flow),
                    v1,
                    v2,
                    b1,
                    b2,
                }
            }
        }
        _ => Verdict::NotSent,
    }
}
