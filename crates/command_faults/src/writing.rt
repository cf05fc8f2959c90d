//! Texts are written to devices.
ghost use Rattle.std.specs.Prelude.{◌≡◌, IfErr, OnOk};
ghost use Rattle.std.specs.Io.KnownBytes.{Appends};
ghost use Rattle.pcap_file.specs.Device.{Unfailed, PutRefused};

use super::fault::CliFault;
use pcap_file::{Sink, put_all};

/// Writes a text whole, or answers Write.
pub fn put_text<S: Sink>(sink: &mut S, text: &str) -> Result<(), CliFault>
    ensures written { OnOk result (Appends (S.tape sink.old).bytes (S.tape sink.new).bytes text.now × Unfailed (S.tape sink.old) (S.tape sink.new)) }
    ensures refused { IfErr result (λ fault. (fault ≡ CliFault.Write) × PutRefused text.now (S.tape sink.old) (S.tape sink.new)) }
{
    match put_all(sink, text.as_bytes()) {
        Ok(()) => Ok(()),
        Err(_) => Err(CliFault::Write),
    }
}
