//! What a part's run has of the whole run.
ghost use Rattle.node_part.specs.Wholes.{NodesAreJudgedAlone, PartsAreOfTheWhole, PartsSendTheirOwn};

/// The outcomes of a node's events depend on the events of that node alone. The clause is the law; the body does nothing.
pub fn nodes_are_judged_alone()
    ensures { NodesAreJudgedAlone }
{}

/// A part's run has the very events of the part that the whole run has, in order and with their outcomes; and all that is
/// counted of the records is the same. The clause is the law; the body does nothing.
pub fn parts_are_of_the_whole()
    ensures { PartsAreOfTheWhole }
{}

/// All that a part's run sends is what the whole run sends at the part's events, in order. The clause is the law; the body
/// does nothing.
pub fn parts_send_their_own()
    ensures { PartsSendTheirOwn }
{}
