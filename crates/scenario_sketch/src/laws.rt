ghost use Rattle.scenario_sketch.specs.Fairness.{RankedAreFair};

/// A law: the destinations of a sketch are exactly those of more than five packets, each once with their number. More packets
/// went to each than to those behind it, or as many, and then its first packet came before theirs.
pub fn ranked_are_fair()
    ensures { RankedAreFair }
{}
