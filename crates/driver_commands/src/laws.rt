//! What is true of every list of commands.
ghost use Rattle.driver_commands.specs.Knowing.{KnownAtAnyTime};
ghost use Rattle.driver_commands.specs.Orders.{KnownStepsAreTold, EndsAreTold};

/// Where no step is a `full`, a `hold` or a `drain`, the commands leave out the servings alone. But for these, what the steps'
/// trace has of a node is what the node's commands say. Each stop is read as the restart that it is in a trace. The clause is
/// the law; the body does nothing.
pub fn known_steps_are_told()
    ensures { KnownStepsAreTold }
{}

/// A node's commands end as many of its lives as the steps do, in their order; a restart drains the life, and a stop doesn't.
/// The clause is the law; the body does nothing.
pub fn ends_are_told()
    ensures { EndsAreTold }
{}

/// A step is known to a cluster on threads, or it isn't, whenever the records came. The clause is the law; the body does
/// nothing.
pub fn known_at_any_time()
    ensures { KnownAtAnyTime }
{}
