//! Tests of lists of outcomes and of what was handled, and of the places of their backends.
#![tactic(auto)]

#[cfg(test)]
mod handled;
#[cfg(test)]
mod lists;
#[cfg(test)]
mod places;
