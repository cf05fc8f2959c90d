//! All nodes of a run are audited at once, on versions that were prepared once.
ghost use Rattle.std.specs.Prelude.{◌≡◌, ◌↔◌, ◌<◌, [], true, ℕ, Ok, Some, IfOk, IsTrue, All, length, slice_get, slice_index_or};
ghost use Rattle.cluster_core.specs.Deployed.{rules_of};
ghost use Rattle.cluster_core.specs.Runs.{verdicts};
ghost use Rattle.cluster_node.specs.declared.packets.Packet.{Packet};
ghost use Rattle.cluster_node.specs.Records.{WasRead};
ghost use Rattle.shared_versions.specs.PrivateAudits.{IsGiven};

use crate::auditor::Auditor;
use cluster_node::Packet;
use connection_table::ConnTable;
use hash_laws::FlowHash;
use selection::Scheme;
use std::alloc::{AllocError, Global};
use std::thread;
use std::thread::Threads;
use thread_records::Recorded;

// Whether all audits agreed. Memory is refused where one of them was refused it.
fn all_agree(audits: Vec<Result<bool, AllocError>>) -> Result<bool, AllocError>
    ensures given { IfOk result (λ b. All IsGiven audits.items) }
    ensures agree { IfOk result (λ b. IsTrue b ↔ All (λ a. a ≡ Ok true) audits.items) }
{
    let mut agree = true;
    for audit in audits {
        if !audit? {
            agree = false;
        }
    }
    Ok(agree)
}

/// Whether each node's outcomes are those of its events in the auditor's cluster: each history is replayed by itself on
/// connection tables of its own, all at once where threads can be had. The packets were read.
pub fn audit_nodes<
    S: Scheme + Send + Sync,
    H: FlowHash + Send + Sync,
    T: ConnTable + Send,
    R: Threads + Sync,
    N: Recorded + Sync,
>(
    rt: &R,
    alloc: Global,
    nodes: &[N],
    auditor: &Auditor<'_, S, H>,
    packets: &[Packet],
) -> Result<bool, AllocError>
where
    S::Prepared: Send + Sync,
    requires read { (k : ℕ) (p : Packet) → slice_get packets.now k ≡ Some p → WasRead (Some p) }
    ensures { let rules = rules_of (λ s z. S.pick s z) (λ h. H.plain h) auditor.now in
        IfOk result (λ b. IsTrue b ↔ All (λ r. N.outcomes_of r ≡ verdicts rules [] packets.now (N.events_of r)) nodes.now) }
{
    let audits = thread::map_indices(
        rt,
        alloc,
        nodes.len(),
        &|at| -> Result<bool, AllocError>
            requires { (at < length nodes.now) × ((k : ℕ) (p : Packet) → slice_get packets.now k ≡ Some p → WasRead (Some p)) }
            ensures { let rules = rules_of (λ s z. S.pick s z) (λ h. H.plain h) auditor.entry.now in
                (d : N) → IfOk result (λ b. IsTrue b ↔ (N.outcomes_of (slice_index_or nodes.entry.now at d)
                ≡ verdicts rules [] packets.entry.now (N.events_of (slice_index_or nodes.entry.now at d)))) }
        { auditor.agrees::<T, N>(alloc, &nodes[at], packets) },
    )?;
    all_agree(audits)
}
