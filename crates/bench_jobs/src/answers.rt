//! What a call is told by.
use crate::devices::Digest;
use crate::generator::mixed;
use maglev_cli::CliFault;
use std::io;

/// The devices that a call writes to.
#[derive(Clone, Copy, Debug)]
pub struct Outlets {
    /// What it sends.
    pub output: Digest,
    /// What it prints.
    pub report: Digest,
}

impl Outlets {
    /// Those of a call that wasn't made yet.
    pub fn new() -> Outlets {
        Outlets {
            output: Digest::new(),
            report: Digest::new(),
        }
    }

    /// Prints the name of the call and the digest of what it wrote, and its fault, if it had one.
    pub fn tell(
        &self,
        rt: &impl Print,
        name: &str,
        outcome: Result<(), CliFault>,
    ) -> io::Result<()> {
        let digest = mixed(self.output.value()) ^ self.report.value();
        match outcome {
            Ok(()) => println!(rt; "{name} {digest:016x}"),
            Err(fault) => println!(rt; "{name} {digest:016x} fault {fault}"),
        }
    }
}
