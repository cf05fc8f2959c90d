//! What the splits of a record are. The clauses are the laws; the bodies do nothing.
ghost use Rattle.run_report.specs.Pairs.{RecordsHaveSplits, RecordsHaveFlows, HistoriesTellSends, SplitsAreExplained};
ghost use Rattle.run_report.specs.Agreeing.{SplitsFollowPicks, SplitsFollowTables};

/// The splits of every record are all pairs of sends of one flow to different backends with no send of that flow between
/// them. Each is there once, in the order of the later sends. The flows are all of which a packet was sent, each once. What
/// was sent at the event of a number is what the history has there.
pub fn splits_are_all_pairs()
    ensures splits { RecordsHaveSplits }
    ensures flows { RecordsHaveFlows }
    ensures sends { HistoriesTellSends }
{}

/// The two events of every split are explained as one: with the flow's slot, and the version and the backend of each.
pub fn splits_are_explained()
    ensures { SplitsAreExplained }
{}

/// A law about every record whose outcomes are the verdicts, for a scheme to which the turn doesn't matter. The two versions
/// of a split pick its two backends for its flow; for Maglev their tables name these backends at the flow's slot.
pub fn splits_follow_picks()
    ensures picks { SplitsFollowPicks }
    ensures tables { SplitsFollowTables }
{}
