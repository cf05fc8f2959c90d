ghost use Rattle.std.specs.Prelude.{◌≡◌, ◌<◌, ◌≢◌, map, length, string_bytes, IfOk, IfErr, OnOk};
ghost use Rattle.hash_laws.specs.Any.{plain_of};
ghost use Rattle.table_commands.specs.Text.{IsTableTextAs, IsTableTextAsOf, IsTableTextOf};
ghost use Rattle.command_faults.specs.Printing.{Prints, BreaksOff};
ghost use Rattle.table_commands.specs.Refusals.{AreFew, TableFails, WordsFail, IsTableWork};

use super::names::names_for;
use super::options::TableOptions;
use super::table_text::table_text_of;
use backend_names::TableSize;
use command_faults::{CliFault, put_text};
use hash_laws::AnyHash;
use json_lines::Form;
use pcap_file::Sink;
use std::alloc::Global;
use table_entrants::table_of;

// The text of the table of the names that words are.
fn text_for(
    alloc: Global,
    form: Form,
    size: TableSize,
    hash: &AnyHash,
    words: &[&str],
) -> Result<String, CliFault>
    ensures text { IfOk result (λ s. IsTableTextAs form (plain_of hash.now) size (map (λ w. w.now) words.now) (string_bytes s)) }
    ensures few { OnOk result (AreFew size (map (λ w. w.now) words.now)) }
    ensures fault { IfErr result (λ fault. WordsFail fault size (map (λ w. w.now) words.now)) }
    ensures unwritten { IfErr result (λ fault. fault ≢ CliFault.Write) }
{
    let entrants = names_for(alloc, size, words)?;
    let table = match table_of(alloc, size, hash, entrants.as_slice()) {
        Ok(table) => table,
        Err(_) => return Err(CliFault::Memory),
    };
    match table_text_of(alloc, form, size, entrants.as_slice(), &table) {
        Ok(text) => Ok(text),
        Err(_) => Err(CliFault::Memory),
    }
}

// The same for the size and the hash that a command line names.
fn text_of(
    alloc: Global,
    form: Form,
    size: u32,
    hash: &str,
    words: &[&str],
) -> Result<String, CliFault>
    ensures text { IfOk result (λ s. IsTableTextAsOf form hash.now size (map (λ w. w.now) words.now) (string_bytes s)) }
    ensures accepted { OnOk result (IsTableWork size hash.now (map (λ w. w.now) words.now)) }
    ensures fault { IfErr result (λ fault. TableFails fault size hash.now (map (λ w. w.now) words.now)) }
    ensures unwritten { IfErr result (λ fault. fault ≢ CliFault.Write) }
{
    let Some(size) = TableSize::new(size) else {
        return Err(CliFault::BadSize);
    };
    let Some(hash) = AnyHash::of_word(hash) else {
        return Err(CliFault::BadHash);
    };
    match text_for(alloc, form, size, &hash, words) {
        Ok(text) => Ok(text),
        Err(fault) => Err(fault),
    }
}

/// The command `table` in a form: writes which backend each slot of a table names, and how many slots each backend has.
///
/// The words are the backends' names, in any order, each `NAME`, or `NAME*W` with a weight from 1 to 16. They take their
/// turns in ascending order of bytes. The text is written in one piece once it is whole, so after any fault but `Write`
/// nothing was written.
pub fn table_as<S: Sink>(
    alloc: Global,
    options: TableOptions<'_>,
    words: &[&str],
    out: &mut S,
) -> Result<(), CliFault>
    requires { 0 < length words.now }
    ensures written { OnOk result (Prints (IsTableTextAsOf options.entry.form options.entry.hash.now options.entry.size (map (λ w. w.now) words.now))
        (S.tape out.old) (S.tape out.new)) }
    ensures broken { IfErr result (λ fault. fault ≡ CliFault.Write →
        BreaksOff (IsTableTextAsOf options.entry.form options.entry.hash.now options.entry.size (map (λ w. w.now) words.now)) (S.tape out.old)
        (S.tape out.new)) }
    ensures silent { IfErr result (λ fault. fault ≢ CliFault.Write → out.new ≡ out.old) }

    // Each fault comes exactly when its reason is the first that holds, and none where nothing is wrong. Only Memory may
    // come where a growth was refused.
    ensures accepted { OnOk result (IsTableWork options.entry.size options.entry.hash.now (map (λ w. w.now) words.now)) }
    ensures fault { IfErr result (λ fault. TableFails fault options.entry.size options.entry.hash.now (map (λ w. w.now) words.now)) }
{
    let text = match text_of(alloc, options.form, options.size, options.hash, words) {
        Ok(text) => text,
        Err(fault) => return Err(fault),
    };
    match put_text(out, text.as_str()) {
        Ok(()) => Ok(()),
        Err(fault) => Err(fault),
    }
}

/// The same in lines for people.
pub fn table<S: Sink>(
    alloc: Global,
    size: u32,
    hash: &str,
    words: &[&str],
    out: &mut S,
) -> Result<(), CliFault>
    requires { 0 < length words.now }
    ensures written { OnOk result (Prints (IsTableTextOf hash.now size (map (λ w. w.now) words.now)) (S.tape out.old) (S.tape out.new)) }
    ensures broken { IfErr result (λ fault. fault ≡ CliFault.Write →
        BreaksOff (IsTableTextOf hash.now size (map (λ w. w.now) words.now)) (S.tape out.old) (S.tape out.new)) }
    ensures silent { IfErr result (λ fault. fault ≢ CliFault.Write → out.new ≡ out.old) }

    // Each fault comes exactly when its reason is the first that holds, and none where nothing is wrong. Only Memory may
    // come where a growth was refused.
    ensures accepted { OnOk result (IsTableWork size hash.now (map (λ w. w.now) words.now)) }
    ensures fault { IfErr result (λ fault. TableFails fault size hash.now (map (λ w. w.now) words.now)) }
{
    let options = TableOptions {
        form: Form::Plain,
        size,
        hash,
    };
    match table_as(alloc, options, words, out) {
        Ok(()) => Ok(()),
        Err(fault) => Err(fault),
    }
}
