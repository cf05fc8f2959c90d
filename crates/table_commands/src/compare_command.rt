ghost use Rattle.std.specs.Prelude.{◌≡◌, ◌≢◌, string_bytes, IfOk, OnOk, IfErr};
ghost use Rattle.hash_laws.specs.Any.{plain_of};
ghost use Rattle.pool_versions.specs.Pool.{ranked};
ghost use Rattle.selection.specs.Candidates.{candidates_in};
ghost use Rattle.selection.specs.Picks.{table_of_ups};
ghost use Rattle.command_faults.specs.Printing.{Prints, BreaksOff};
ghost use Rattle.table_commands.specs.Compare.{IsCompareTextAs, IsCompareTextAsOf, IsCompareTextOf, ListsFail, CompareFails};

use super::compare_text::compare_text_of;
use super::members::lists_in;
use super::options::TableOptions;
use backend_names::TableSize;
use command_faults::{CliFault, put_text};
use hash_laws::AnyHash;
use json_lines::Form;
use pcap_file::Sink;
use pool_versions::{Member, Service, backends_of, weights_of};
use selection::{Maglev, MaglevTable};
use std::alloc::{AllocError, Global};

// The up ones of some members, in ascending order of name.
fn ranked(alloc: Global, members: Vec<Member>) -> Result<Vec<Member>, AllocError>
    ensures { IfOk result (λ v. v.items ≡ ranked members.items) }
{
    let service = Service {
        vip: 0,
        proto: 0,
        port: 0,
        members,
    };
    service.ranked(alloc)
}

// The table of those of some members that are up.
fn table_of(
    alloc: Global,
    size: TableSize,
    hash: &AnyHash,
    members: Vec<Member>,
) -> Result<MaglevTable, AllocError>
    ensures { IfOk result (λ t. t ≡ table_of_ups (plain_of hash.now) size (candidates_in members.items)) }
{
    let members = ranked(alloc, members)?;
    let scheme = Maglev { hash: *hash };
    let ups = backends_of(alloc, members.as_slice())?;
    let weights = weights_of(alloc, members.as_slice())?;
    match scheme.table(alloc, size, ups.as_slice(), weights.as_slice()) {
        Ok(table) => Ok(table),
        Err(_) => Err(AllocError),
    }
}

// The text that compares the tables of two lists of members.
fn text_for(
    alloc: Global,
    form: Form,
    size: TableSize,
    hash: &AnyHash,
    old: &str,
    new: &str,
) -> Result<String, CliFault>
    ensures text { IfOk result (λ s. IsCompareTextAs form (plain_of hash.now) size old.now new.now (string_bytes s)) }
    ensures fault { IfErr result (λ fault. ListsFail fault size old.now new.now) }
    ensures unwritten { IfErr result (λ fault. fault ≢ CliFault.Write) }
{
    let lists = lists_in(alloc, size, old, new)?;
    let before = table_of(alloc, size, hash, lists.old)?;
    let after = table_of(alloc, size, hash, lists.new)?;
    match compare_text_of(alloc, form, &before, &after) {
        Ok(text) => Ok(text),
        Err(_) => Err(CliFault::Memory),
    }
}

// The same for the size and the hash that a command line names.
fn text_of(
    alloc: Global,
    form: Form,
    size: u32,
    hash: &str,
    old: &str,
    new: &str,
) -> Result<String, CliFault>
    ensures text { IfOk result (λ s. IsCompareTextAsOf form hash.now size old.now new.now (string_bytes s)) }
    ensures fault { IfErr result (λ fault. CompareFails fault size hash.now old.now new.now) }
    ensures unwritten { IfErr result (λ fault. fault ≢ CliFault.Write) }
{
    let Some(size) = TableSize::new(size) else {
        return Err(CliFault::BadSize);
    };
    let Some(hash) = AnyHash::of_word(hash) else {
        return Err(CliFault::BadHash);
    };
    match text_for(alloc, form, size, &hash, old, new) {
        Ok(text) => Ok(text),
        Err(fault) => Err(fault),
    }
}

/// The command `compare` in a form: writes the slots whose backend changes where the members `old` are replaced by `new`.
///
/// Each list is one or more member words, joined by single spaces. A word is `NAME@ADDRESS`, then `*W` unless the weight is
/// left out, then `/down` where the member is down. Backends are distinguished by name and address. The text is written in
/// one piece once it is whole, so after any fault but `Write` nothing was written.
pub fn compare_as<S: Sink>(
    alloc: Global,
    options: TableOptions<'_>,
    old: &str,
    new: &str,
    out: &mut S,
) -> Result<(), CliFault>
    ensures written { OnOk result (Prints (IsCompareTextAsOf options.entry.form options.entry.hash.now options.entry.size old.now new.now)
        (S.tape out.old) (S.tape out.new)) }
    ensures broken { IfErr result (λ fault. fault ≡ CliFault.Write →
        BreaksOff (IsCompareTextAsOf options.entry.form options.entry.hash.now options.entry.size old.now new.now) (S.tape out.old) (S.tape out.new)) }
    ensures silent { IfErr result (λ fault. fault ≢ CliFault.Write → out.new ≡ out.old) }
    ensures fault { IfErr result (λ fault. CompareFails fault options.entry.size options.entry.hash.now old.now new.now) }
{
    let text = match text_of(alloc, options.form, options.size, options.hash, old, new) {
        Ok(text) => text,
        Err(fault) => return Err(fault),
    };
    match put_text(out, text.as_str()) {
        Ok(()) => Ok(()),
        Err(fault) => Err(fault),
    }
}

/// The same in lines for people.
pub fn compare<S: Sink>(
    alloc: Global,
    size: u32,
    hash: &str,
    old: &str,
    new: &str,
    out: &mut S,
) -> Result<(), CliFault>
    ensures written { OnOk result (Prints (IsCompareTextOf hash.now size old.now new.now) (S.tape out.old) (S.tape out.new)) }
    ensures broken { IfErr result (λ fault. fault ≡ CliFault.Write → BreaksOff (IsCompareTextOf hash.now size old.now new.now)
        (S.tape out.old) (S.tape out.new)) }
    ensures silent { IfErr result (λ fault. fault ≢ CliFault.Write → out.new ≡ out.old) }
    ensures fault { IfErr result (λ fault. CompareFails fault size hash.now old.now new.now) }
{
    let options = TableOptions {
        form: Form::Plain,
        size,
        hash,
    };
    match compare_as(alloc, options, old, new, out) {
        Ok(()) => Ok(()),
        Err(fault) => Err(fault),
    }
}
