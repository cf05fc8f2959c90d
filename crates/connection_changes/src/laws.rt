//! What is true of the changes of every record. The clauses are the laws; the bodies do nothing.
ghost use Rattle.connection_changes.specs.Laws.{CausesAddUp, MovesAreEvictions};

/// The counts of the causes add up to the number of changes, and there is one change for each split.
pub fn causes_add_up()
    ensures { CausesAddUp }
{}

/// A law about records in which all was sent by one worker of one node, which was never restarted. Where the first server of
/// each split is up or drains, and there is no idle limit, each cause is `Evicted`.
pub fn moves_of_one_worker_are_evictions()
    ensures { MovesAreEvictions }
{}
