//! Why and where a scenario was refused.

use crate::fault::ScenarioFault;
use version_drafts::Place;

/// Why a scenario was refused, and where.
#[derive(Clone, Copy, Debug, PartialEq, Eq)]
pub struct Refused {
    /// Why it was refused.
    pub fault: ScenarioFault,
    /// Where a key, a word or a version isn't as it should be. None where the fault is of the whole text, of a step or of memory,
    /// or where the versions are too many only once they are written out.
    pub place: Option<Place>,
}
