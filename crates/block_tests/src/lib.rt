//! Tests of lists in blocks at the borders of the blocks. With any one allocation refused they pass too.
#![tactic(auto)]

#[cfg(test)]
mod borders;
