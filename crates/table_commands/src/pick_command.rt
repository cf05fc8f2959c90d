ghost use Rattle.std.specs.Prelude.{◌≡◌, ◌+◌, ◌<◌, ◌≤◌, ◌≢◌, map, length, IfOk, IfErr, IfSome, OnOk, string_bytes, All, Ok};
ghost use Rattle.hash_laws.specs.Any.{plain_of};
ghost use Rattle.pcap_file.specs.Device.{Unfailed, ReadRefused};
ghost use Rattle.command_faults.specs.Printing.{Prints, BreaksOff};
ghost use Rattle.table_commands.specs.Refusals.{AreFew, IsTableWork};
ghost use Rattle.table_commands.specs.Pick.{longest, without_newline, IsHexOf, found_text_as, pick_text_as, HexFails, InputFails, IsPickTextAs};
ghost use Rattle.table_commands.specs.Pick.{IsPickTextAsOf, IsPickLineOf, IsShort, PickFailsWith, PickFails};

use super::names::{name_at, names_for};
use super::options::TableOptions;
use super::pick_text::{drop_text_of, flow_text_of};
use backend_names::TableSize;
use cluster_core::{Packet, read_packet};
use command_faults::{CliFault, put_text};
use five_tuple::Flow;
use hash_laws::{AnyHash, FlowHash};
use hex::FromHexError;
use ip_headers::Link;
use json_lines::Form;
use pcap_file::{Sink, Source, fill};
use std::alloc::{AllocError, Global};
use table_entrants::{Entrant, table_of};

/// The longest input: two digits for each byte of 262,144, and a newline.
const LONGEST: usize = 524_289;

// So many bytes. What they are isn't said.
fn room_for(alloc: Global, size: usize) -> Result<Vec<u8>, AllocError>
    ensures { IfOk result (λ v. length v.items ≡ size) }
{
    vec![in alloc; 0u8; size]
}

// All bytes of the input, of which there are no more than the longest.
fn input_of<R: Source>(alloc: Global, input: &mut R) -> Result<Vec<u8>, CliFault>
    ensures bytes { IfOk result (λ v. IfSome (R.tape input.old).bytes (λ text. v.items ≡ text)) }
    ensures short { IfOk result (λ v. length v.items ≤ longest) }
    ensures unfailed { OnOk result (Unfailed (R.tape input.old) (R.tape input.new)) }
    ensures fault { IfErr result (λ fault. InputFails fault (R.tape input.old).bytes) }
    ensures read { IfErr result (λ fault. fault ≡ CliFault.Read → ReadRefused (longest + 1) (R.tape input.old) (R.tape input.new)) }
    ensures unwritten { IfErr result (λ fault. fault ≢ CliFault.Write) }
{
    let mut bytes = room_for(alloc, LONGEST + 1)?;
    let Ok(count) = fill(input, bytes.as_mut_slice()) else {
        return Err(CliFault::Read);
    };
    if count > LONGEST {
        return Err(CliFault::TooLong);
    }
    bytes.truncate(count);
    Ok(bytes)
}

fn without_newline(text: &[u8]) -> &[u8]
    ensures { result.now ≡ without_newline text.entry.now }
{
    let length = text.len();
    if length > 0 && text[length - 1] == b'\n' {
        &text[..length - 1]
    } else {
        text
    }
}

// The bytes that the text of the input is.
fn bytes_of(alloc: Global, text: &[u8]) -> Result<Vec<u8>, CliFault>
    ensures bytes { IfOk result (λ v. IsHexOf v.items text.now) }
    ensures fault { IfErr result (λ fault. HexFails fault text.now) }
{
    match hex::decode(alloc, without_newline(text)) {
        Ok(bytes) => Ok(bytes),
        Err(FromHexError::OutOfMemory) => Err(CliFault::Memory),
        Err(_) => Err(CliFault::BadHex),
    }
}

// What options mean.
#[derive(Clone, Copy)]
struct Meant {
    form: Form,
    size: TableSize,
    hash: AnyHash,
}

// The name that the flow's slot names in the table of some names, and the slot.
fn found_text(
    alloc: Global,
    meant: &Meant,
    entrants: &[Entrant],
    flow: Flow,
) -> Result<String, CliFault>
    ensures text { IfOk result (λ s. string_bytes s ≡ found_text_as meant.now.form (plain_of meant.now.hash) meant.now.size entrants.now flow) }
    ensures fault { IfErr result (λ fault. fault ≡ CliFault.Memory) }
{
    let table = match table_of(alloc, meant.size, &meant.hash, entrants) {
        Ok(table) => table,
        Err(_) => return Err(CliFault::Memory),
    };
    let slots = u64::from(meant.size.slots());
    let slot = (meant.hash.hash(b'f', &flow.bytes()) % slots) as u32;
    let name = name_at(&table, entrants, slot);
    match flow_text_of(alloc, meant.form, flow, slot, name) {
        Ok(text) => Ok(text),
        Err(_) => Err(CliFault::Memory),
    }
}

// What is printed of a datagram: its flow and backend, or its drop.
fn text_of(
    alloc: Global,
    meant: &Meant,
    entrants: &[Entrant],
    packet: Packet,
) -> Result<String, CliFault>
    ensures text { IfOk result (λ s. string_bytes s ≡ pick_text_as meant.now.form (plain_of meant.now.hash) meant.now.size entrants.now packet) }
    ensures fault { IfErr result (λ fault. fault ≡ CliFault.Memory) }
{
    let cause = match packet {
        Packet::Good { flow, .. } => return found_text(alloc, meant, entrants, flow),
        Packet::Bad(cause) => cause,
    };
    match drop_text_of(alloc, meant.form, cause) {
        Ok(text) => Ok(text),
        Err(_) => Err(CliFault::Memory),
    }
}

/// Reads a datagram as hexadecimal text, as `pick` does.
pub fn datagram_of<R: Source>(alloc: Global, input: &mut R) -> Result<Vec<u8>, CliFault>
    ensures bytes { IfOk result (λ v. IfSome (R.tape input.old).bytes (λ text. IsHexOf v.items text)) }
    ensures short { OnOk result (IsShort (R.tape input.old).bytes) }
    ensures unfailed { OnOk result (Unfailed (R.tape input.old) (R.tape input.new)) }
    ensures fault { IfErr result (λ fault. InputFails fault (R.tape input.old).bytes) }
    ensures read { IfErr result (λ fault. fault ≡ CliFault.Read → ReadRefused (longest + 1) (R.tape input.old) (R.tape input.new)) }
    ensures unwritten { IfErr result (λ fault. fault ≢ CliFault.Write) }
{
    let text = input_of(alloc, input)?;
    match bytes_of(alloc, text.as_slice()) {
        Ok(bytes) => Ok(bytes),
        Err(fault) => Err(fault),
    }
}

// What is printed of the datagram that the input has.
fn text_for<R: Source>(
    alloc: Global,
    meant: &Meant,
    check: bool,
    words: &[&str],
    input: &mut R,
) -> Result<String, CliFault>
    ensures text { IfOk result (λ s. IsPickTextAs meant.now.form (plain_of meant.now.hash) meant.now.size (map (λ w. w.now) words.now) check
        (R.tape input.old).bytes (string_bytes s)) }
    ensures accepted { OnOk result (AreFew meant.now.size (map (λ w. w.now) words.now) × IsShort (R.tape input.old).bytes) }
    ensures unfailed { OnOk result (Unfailed (R.tape input.old) (R.tape input.new)) }
    ensures read { IfErr result (λ fault. fault ≡ CliFault.Read → ReadRefused (longest + 1) (R.tape input.old) (R.tape input.new)) }
    ensures fault { IfErr result (λ fault. PickFailsWith fault meant.now.size (map (λ w. w.now) words.now) (R.tape input.old).bytes) }
    ensures unwritten { IfErr result (λ fault. fault ≢ CliFault.Write) }
{
    let entrants = names_for(alloc, meant.size, words)?;
    let bytes = match datagram_of(alloc, input) {
        Ok(bytes) => bytes,
        Err(fault) => return Err(fault),
    };
    let packet = read_packet(Link::Ipv4, bytes.as_slice(), 0, check);
    match text_of(alloc, meant, entrants.as_slice(), packet) {
        Ok(text) => Ok(text),
        Err(fault) => Err(fault),
    }
}

// The same for the options of a command line.
fn text_by<R: Source>(
    alloc: Global,
    options: TableOptions<'_>,
    check: bool,
    words: &[&str],
    input: &mut R,
) -> Result<String, CliFault>
    ensures text { IfOk result (λ s. IsPickTextAsOf options.entry.form options.entry.hash.now options.entry.size (map (λ w. w.now) words.now) check
        (R.tape input.old).bytes (string_bytes s)) }
    ensures accepted { OnOk result (IsTableWork options.entry.size options.entry.hash.now (map (λ w. w.now) words.now) × IsShort (R.tape input.old).bytes) }
    ensures unfailed { OnOk result (Unfailed (R.tape input.old) (R.tape input.new)) }
    ensures read { IfErr result (λ fault. fault ≡ CliFault.Read → ReadRefused (longest + 1) (R.tape input.old) (R.tape input.new)) }
    ensures fault { IfErr result (λ fault. PickFails fault options.entry.size options.entry.hash.now (map (λ w. w.now) words.now) (R.tape input.old).bytes) }
    ensures unwritten { IfErr result (λ fault. fault ≢ CliFault.Write) }
{
    let Some(size) = TableSize::new(options.size) else {
        return Err(CliFault::BadSize);
    };
    let Some(hash) = AnyHash::of_word(options.hash) else {
        return Err(CliFault::BadHash);
    };
    let meant = Meant {
        form: options.form,
        size,
        hash,
    };
    match text_for(alloc, &meant, check, words, input) {
        Ok(text) => Ok(text),
        Err(fault) => Err(fault),
    }
}

/// The command `pick` in a form: reads one IPv4 datagram as hexadecimal text. It writes its flow, the flow's slot and the
/// backend that the slot names, or why the datagram is dropped.
///
/// The input is hexadecimal digits of either case, two a byte, and at most one newline after them. The header checksum is
/// tested where `check` holds. The text is written in one piece, so after any fault but `Write` nothing was written.
pub fn pick_as<R: Source, S: Sink>(
    alloc: Global,
    options: TableOptions<'_>,
    check: bool,
    words: &[&str],
    input: &mut R,
    out: &mut S,
) -> Result<(), CliFault>
    requires { 0 < length words.now }
    ensures written { OnOk result (Prints (IsPickTextAsOf options.entry.form options.entry.hash.now options.entry.size (map (λ w. w.now) words.now) check
        (R.tape input.old).bytes) (S.tape out.old) (S.tape out.new)) }
    ensures broken { IfErr result (λ fault. fault ≡ CliFault.Write →
        BreaksOff (IsPickTextAsOf options.entry.form options.entry.hash.now options.entry.size (map (λ w. w.now) words.now) check (R.tape input.old).bytes)
        (S.tape out.old) (S.tape out.new)) }
    ensures accepted { OnOk result (IsTableWork options.entry.size options.entry.hash.now (map (λ w. w.now) words.now) × IsShort (R.tape input.old).bytes) }
    ensures unfailed { OnOk result (Unfailed (R.tape input.old) (R.tape input.new)) }
    ensures read { IfErr result (λ fault. fault ≡ CliFault.Read → ReadRefused (longest + 1) (R.tape input.old) (R.tape input.new)) }
    ensures silent { IfErr result (λ fault. fault ≢ CliFault.Write → out.new ≡ out.old) }
    ensures fault { IfErr result (λ fault. PickFails fault options.entry.size options.entry.hash.now (map (λ w. w.now) words.now) (R.tape input.old).bytes) }
{
    let text = match text_by(alloc, options, check, words, input) {
        Ok(text) => text,
        Err(fault) => return Err(fault),
    };
    match put_text(out, text.as_str()) {
        Ok(()) => Ok(()),
        Err(fault) => Err(fault),
    }
}

/// The same in a line for people.
pub fn pick<R: Source, S: Sink>(
    alloc: Global,
    size: u32,
    hash: &str,
    check: bool,
    words: &[&str],
    input: &mut R,
    out: &mut S,
) -> Result<(), CliFault>
    requires { 0 < length words.now }
    ensures written { OnOk result (Prints (IsPickLineOf hash.now size (map (λ w. w.now) words.now) check (R.tape input.old).bytes)
        (S.tape out.old) (S.tape out.new)) }
    ensures broken { IfErr result (λ fault. fault ≡ CliFault.Write →
        BreaksOff (IsPickLineOf hash.now size (map (λ w. w.now) words.now) check (R.tape input.old).bytes) (S.tape out.old) (S.tape out.new)) }
    ensures accepted { OnOk result (IsTableWork size hash.now (map (λ w. w.now) words.now) × IsShort (R.tape input.old).bytes) }
    ensures unfailed { OnOk result (Unfailed (R.tape input.old) (R.tape input.new)) }
    ensures read { IfErr result (λ fault. fault ≡ CliFault.Read → ReadRefused (longest + 1) (R.tape input.old) (R.tape input.new)) }
    ensures silent { IfErr result (λ fault. fault ≢ CliFault.Write → out.new ≡ out.old) }
    ensures fault { IfErr result (λ fault. PickFails fault size hash.now (map (λ w. w.now) words.now) (R.tape input.old).bytes) }
{
    let options = TableOptions {
        form: Form::Plain,
        size,
        hash,
    };
    match pick_as(alloc, options, check, words, input, out) {
        Ok(()) => Ok(()),
        Err(fault) => Err(fault),
    }
}
