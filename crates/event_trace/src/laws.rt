//! What is true of every trace.
ghost use Rattle.event_trace.specs.Sums.{TracesAddUp};

/// Each outcome of a trace is the judge's, and its counts add up. A record was lost, handed to the spreader or is left. A
/// repeat was handed to it or skipped. What was handed to it found no live node or arrived. Each arrival is of a record that
/// was read, with that record's packet. The clause is the law; the body does nothing.
pub fn traces_add_up()
    ensures { TracesAddUp }
{}
