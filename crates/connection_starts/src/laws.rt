//! What is true of the ordinals of all captures. The clause is the law; the body does nothing.
ghost use Rattle.connection_starts.specs.Laws.{NothingEndsNothingBegins};

/// A law: where no segment has FIN or RST, and no time is given, no flow begins again, whatever else comes.
pub fn nothing_ends_nothing_begins()
    ensures { NothingEndsNothingBegins }
{}
