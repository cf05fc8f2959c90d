//! Wraps a datagram of TCP (RFC 791, 793) in GRE over IPv4 (RFC 2784), and prints the bytes in hexadecimal digits. Where
//! memory was refused it prints `fault: Memory` alone, to standard error. `tests/refused_growths_core.py` refuses each of
//! its allocations in turn.
#![tactic(auto)]

use gre_tunnel::{GreFault, wrap};
use std::alloc::Global;
use std::process::ExitCode;

const NODE: u32 = 0x0a09_0001;

const BACKEND: u32 = 0x0a08_0001;

/// A segment without data, from port 1000 of 10.0.0.1 to port 80 of 192.0.2.1.
const DATAGRAM: [u8; 40] = [
    0x45, 0, 0, 40, 0, 1, 0, 0, 64, 6, 0xae, 0xcd, 10, 0, 0, 1, 192, 0, 2, 1, 0x03, 0xe8, 0, 80, 0,
    0, 0, 1, 0, 0, 0, 0, 0x50, 0x02, 0x20, 0, 0, 0, 0, 0,
];

fn wrapped(alloc: Global) -> Result<String, GreFault> {
    let bytes = wrap(alloc, &DATAGRAM, NODE, BACKEND)?;
    hex::encode(alloc, bytes).map_err(|_| GreFault::Memory)
}

fn main(rt: HostRuntime) -> anyhow::Result<ExitCode> {
    match wrapped(rt.alloc()) {
        Ok(text) => {
            println!(rt; "{text}")?;
            Ok(ExitCode::from(0))
        }
        Err(fault) => {
            eprintln!(rt; "fault: {fault:?}")?;
            Ok(ExitCode::from(1))
        }
    }
}
