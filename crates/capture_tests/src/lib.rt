//! Tests of headers, flows, tunnels, captures and devices.
#![tactic(auto)]

#[cfg(test)]
mod checks;
#[cfg(test)]
mod datagrams;
#[cfg(test)]
mod flows;
#[cfg(test)]
mod headers;
#[cfg(test)]
mod progress;
#[cfg(test)]
mod tests;
#[cfg(test)]
mod tunnels;
