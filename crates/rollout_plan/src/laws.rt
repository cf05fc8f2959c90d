//! What holds of the counts of a plan.
ghost use Rattle.rollout_plan.specs.Laws.{ChangedAreCompared, CausesAddUp, LeastIsLeast, TablesNameOnce, TurnsArePicks};

/// The slots that change are those that `compare` lists, and each has one of three causes. No table that gives each backend as many slots
/// as the later one changes fewer than the least. That holds where no backend is in the earlier table twice, as in those of
/// members of which no two have one name. In a table of a scheme without tables a slot names whom that scheme picks for a hash, or a
/// turn, of the slot's number. The clauses are the laws; the body does nothing.
pub fn plans_add_up()
    ensures compared { ChangedAreCompared }
    ensures causes { CausesAddUp }
    ensures least { LeastIsLeast }
    ensures once { TablesNameOnce }
    ensures turns { TurnsArePicks }
{}
