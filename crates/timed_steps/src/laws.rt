//! What is true of all steps.
ghost use Rattle.timed_steps.specs.Laws.{StepsByCountStay, NoTimeIsAsked};

/// Steps by count are what they are, whenever records came. So a scenario without `until` means what it says. The clause is
/// the law; the body does nothing.
pub fn steps_by_count_stay()
    ensures { StepsByCountStay }
{}

/// Where no step is by time, no record's time is asked. The clause is the law; the body does nothing.
pub fn no_time_is_asked()
    ensures { NoTimeIsAsked }
{}
