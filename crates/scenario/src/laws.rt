//! What the formats have in common.
ghost use Rattle.scenario.specs.Alike.{FormatsMeanTheSame, TextsAreSteps};

/// Each scenario that a document means is meant by the same document with the number of a later format. The clause is the
/// law; the body does nothing.
pub fn formats_mean_the_same()
    ensures { FormatsMeanTheSame }
{}

/// In formats 1 and 2 each of a scenario's texts is one step, and the first that is none is refused. The clause is the law;
/// the body does nothing.
pub fn texts_are_steps()
    ensures { TextsAreSteps }
{}
