//! What a node's run answers.
ghost use Rattle.std.specs.Prelude.{◌≡◌, ◌↔◌, [], ℕ, Some, IfOk, IsTrue, slice_get};
ghost use Rattle.cluster_node.specs.declared.packets.Packet.{Packet};
ghost use Rattle.cluster_node.specs.Records.{WasRead};
ghost use Rattle.cluster_core.specs.Setups.{rules_for};
ghost use Rattle.cluster_core.specs.Runs.{verdicts};

use cluster_core::Setup;
use cluster_node::{Event, Outcome, Packet};
use connection_table::ConnTable;
use hash_laws::FlowHash;
use pool_versions::Catalogue;
use selection::Scheme;
use stats_book::{Names, Shares, Stats};
use std::alloc::{AllocError, Global};
use std::fmt;
use thread_records::{LeanRecord, NodeRecord};

/// A node's record, and the shares of a book on which its run was counted.
#[derive(Drop)]
pub struct CountedRun<B: Names> {
    /// What the node did.
    pub record: LeanRecord,
    /// What its threads counted.
    pub shares: Shares<B>,
}

impl<B: Names> fmt::Debug for CountedRun<B> {
    fn fmt<W: fmt::Write>(&self, f: &mut fmt::Formatter<W>) -> fmt::Result {
        f.debug_struct("CountedRun")
            .field("record", &self.record)
            .finish_non_exhaustive()
    }
}

/// A node's record as it is kept, and what its threads counted meanwhile.
#[derive(Debug, Drop)]
pub struct LeanRun {
    /// What the node did.
    pub record: LeanRecord,
    /// The counts of its run.
    pub stats: Stats,
}

/// What a node did, and what its threads counted meanwhile.
#[derive(Debug, Drop)]
pub struct NodeRun {
    /// What the node did.
    pub record: NodeRecord,
    /// The counts of its run.
    pub stats: Stats,
}

impl NodeRun {
    /// The node's events: in each life the driver's steps, then the servings of worker 0, 1 and so on, then the restart.
    pub fn history(&self) -> &[Event]
        ensures { result.now ≡ self.now.record.events.items }
    {
        self.record.events.as_slice()
    }

    /// The outcome of each event.
    pub fn outcomes(&self) -> &[Outcome]
        ensures { result.now ≡ self.now.record.outcomes.items }
    {
        self.record.outcomes.as_slice()
    }

    /// For each life the packets that were sent, in the order in which they were gathered.
    pub fn sent(&self) -> &[Vec<Outcome>]
        ensures { result.now ≡ self.now.record.sent.items }
    {
        self.record.sent.as_slice()
    }

    /// The counts of the run.
    pub fn stats(&self) -> Stats
        ensures { result ≡ self.now.stats }
    {
        self.stats
    }

    /// Whether the outcomes are those of the events in this cluster, one after another: the events are replayed on tables of
    /// their own. The packets were read, and the catalogue is one for the cluster's table size.
    pub fn audit<S: Scheme, H: FlowHash, T: ConnTable>(
        &self,
        alloc: Global,
        setup: &Setup<S, H>,
        catalogue: &Catalogue,
        packets: &[Packet],
    ) -> Result<bool, AllocError>
        requires size { catalogue.now.size ≡ setup.now.size }
        requires read { (k : ℕ) (p : Packet) → slice_get packets.now k ≡ Some p → WasRead (Some p) }
        ensures { let rules = rules_for (λ s z. S.pick s z) (λ h. H.plain h) setup.now catalogue.now in
            IfOk result (λ b. IsTrue b ↔ (self.now.record.outcomes.items ≡ verdicts rules [] packets.now self.now.record.events.items)) }
    {
        let NodeRun { record, .. } = self;
        record.audit::<S, H, T>(alloc, setup, catalogue, packets)
    }
}
