//! What a worker's servings depend on: its own packets and servings, and the versions installed on its node. So the
//! servings of different workers may be written one worker after another. The clauses are the laws; the bodies do nothing.
ghost use Rattle.cluster_core.specs.Laws.{ServesDependOnOwnLines, ServesStandInBlocks, BlocksLeaveOthers, BlocksLeaveArrivals, EventsLeaveOtherNodes};
ghost use Rattle.cluster_core.specs.Laws.{ServesFollowPackets};
ghost use Rattle.cluster_core.specs.Promises.{HistoriesKeepPromises, MaglevKeepsPromises, ListsKeepPromises};
ghost use Rattle.cluster_core.specs.Histories.{ServesWhatWasPlaced, SendsWhatWaitsFirst, SendsFollowPicks, HistoriesCount, RecordsAreBalanced};
ghost use Rattle.cluster_core.specs.Histories.{ListsAreBalanced};

/// The outcome of a serving is the same after every two records with the same lines of that worker and the same versions
/// installed on its node. Servings of one worker, one after another, result in what its own lines say. They leave the lines
/// of every other worker and what arrivals are judged by. Events leave the record of every node that none of them names.
pub fn servings_stand_apart()
    ensures own { ServesDependOnOwnLines }
    ensures blocks { ServesStandInBlocks }
    ensures others { BlocksLeaveOthers }
    ensures arrivals { BlocksLeaveArrivals }
    ensures nodes { EventsLeaveOtherNodes }
{}

/// All packets of a life may be placed before all of its servings. Then a worker that took the first packets in order
/// answers as its forwarder does after its own servings.
pub fn servings_follow_packets()
    ensures { ServesFollowPackets }
{}

/// In every record whose outcomes are the verdicts no worker serves more than was placed on it. What is sent is the packet
/// that waits first for the worker.
pub fn queues_are_in_order()
    ensures sound { ServesWhatWasPlaced }
    ensures first { SendsWhatWaitsFirst }
{}

/// The same of a history, which has the oldest event in front. For a scheme to which the turn doesn't matter each packet
/// that was sent went to the pick under its origin, as `explain` asks. Its outcomes put into the queues, and take out, what
/// its record says, as `totals` asks.
pub fn histories_are_told()
    ensures picked { SendsFollowPicks }
    ensures counts { HistoriesCount }
{}

/// The promises hold of every record whose outcomes are the verdicts, and of every list of events. For a scheme to which the
/// turn doesn't matter, two packets of one flow that were sent to different backends were chosen under versions that pick
/// these backends. So those versions differ for the flow. Where the scheme is Maglev, their tables name these backends at
/// the flow's slot. A forwarder keeps a flow's backend while its entry stands and the backend is up or drains. Every slot of
/// Maglev's tables names an up backend, and none a member that drains. Backends' slot counts are in proportion to their
/// weights; of equal weights they differ by at most one.
pub fn promises_are_kept()
    ensures histories { HistoriesKeepPromises }
    ensures maglev { MaglevKeepsPromises }
    ensures lists { ListsKeepPromises }
{}

/// In every record whose outcomes are the verdicts, and in every list of events, no more left the queues than came into
/// them, as `totals` asks.
pub fn queues_are_balanced()
    ensures records { RecordsAreBalanced }
    ensures lists { ListsAreBalanced }
{}
