ghost use Rattle.std.specs.Prelude.{◌≡◌, ◌<◌, ◌++◌, length, IfOk, OnOk, string_bytes};
ghost use Rattle.table_entrants.specs.Ranking.{names_of};
ghost use Rattle.table_commands.specs.Objects.{table_json, slot_json, count_json};
ghost use Rattle.table_commands.specs.Text.{slot_line, count_line, head_line, slot_line_as, count_line_as, head_line_as, slot_lines_as, counts_text_as};
ghost use Rattle.table_commands.specs.Text.{table_text_as, dashed};

use super::names::name_at;
use super::objects::NameObject;
use backend_names::{Name, TableSize};
use json_lines::{Form, push_json_head};
use maglev_table::Table;
use std::alloc::{AllocError, Global};
use std::fmt;
use table_entrants::Entrant;

/// The name of a backend, or a dash for nobody.
#[derive(Clone, Copy)]
struct DashedText(Option<Name>);

impl fmt::Display for DashedText {
    ghost use Rattle.std.specs.Prelude.{Some};

    ghost output = { λ d. Some (dashed d.0) };

    fn fmt<W: fmt::Write>(&self, f: &mut fmt::Formatter<W>) -> fmt::Result {
        match self.0 {
            None => f.write_str("-"),
            Some(name) => write!(f, "{name}"),
        }
    }
}

fn push_plain_slot(text: &mut String, slot: u32, name: Option<Name>) -> Result<(), AllocError>
    ensures { OnOk result (string_bytes text.new ≡ string_bytes text.old ++ slot_line slot (dashed name)) }
{
    let name = DashedText(name);
    write!(text, "{slot} {name}\n")
}

fn push_json_slot(text: &mut String, slot: u32, name: Option<Name>) -> Result<(), AllocError>
    ensures { OnOk result (string_bytes text.new ≡ string_bytes text.old ++ slot_json slot name) }
{
    let name = NameObject(name);
    write!(
        text,
        "{{\"type\":\"slot\",\"slot\":{slot},\"backend\":{name}}}\n"
    )
}

/// Puts the line of a slot after a text, with the name of the backend that it names, None for nobody.
pub fn push_slot_line(
    text: &mut String,
    form: Form,
    slot: u32,
    name: Option<Name>,
) -> Result<(), AllocError>
    ensures { OnOk result (string_bytes text.new ≡ string_bytes text.old ++ slot_line_as form slot name) }
{
    match form {
        Form::Plain => push_plain_slot(text, slot, name),
        Form::Json => push_json_slot(text, slot, name),
    }
}

fn push_plain_count(text: &mut String, name: Name, count: u32) -> Result<(), AllocError>
    ensures { OnOk result (string_bytes text.new ≡ string_bytes text.old ++ count_line name count) }
{
    write!(text, "count {name} {count}\n")
}

fn push_json_count(text: &mut String, name: Name, count: u32) -> Result<(), AllocError>
    ensures { OnOk result (string_bytes text.new ≡ string_bytes text.old ++ count_json name count) }
{
    write!(
        text,
        "{{\"type\":\"count\",\"backend\":\"{name}\",\"slots\":{count}}}\n"
    )
}

/// Puts the line of a backend after a text, with the number of its slots.
pub fn push_count_line(
    text: &mut String,
    form: Form,
    name: Name,
    count: u32,
) -> Result<(), AllocError>
    ensures { OnOk result (string_bytes text.new ≡ string_bytes text.old ++ count_line_as form name count) }
{
    match form {
        Form::Plain => push_plain_count(text, name, count),
        Form::Json => push_json_count(text, name, count),
    }
}

fn plain_head(alloc: Global, size: u32, backends: usize) -> Result<String, AllocError>
    ensures { IfOk result (λ s. string_bytes s ≡ head_line size backends) }
{
    format!(in alloc; "size {size} backends {backends}\n")
}

fn push_json_table(text: &mut String, size: u32, backends: usize) -> Result<(), AllocError>
    ensures { OnOk result (string_bytes text.new ≡ string_bytes text.old ++ table_json size backends) }
{
    write!(
        text,
        "{{\"type\":\"table\",\"size\":{size},\"backends\":{backends}}}\n"
    )
}

fn json_head(alloc: Global, size: u32, backends: usize) -> Result<String, AllocError>
    ensures { IfOk result (λ s. string_bytes s ≡ head_line_as Form.Json size backends) }
{
    let mut text = String::new(alloc);
    push_json_head(&mut text, "table")?;
    push_json_table(&mut text, size, backends)?;
    Ok(text)
}

/// What stands before the lines of a table's slots: its size, and how many backends share it.
pub fn table_head(
    alloc: Global,
    form: Form,
    size: u32,
    backends: usize,
) -> Result<String, AllocError>
    ensures { IfOk result (λ s. string_bytes s ≡ head_line_as form size backends) }
{
    match form {
        Form::Plain => plain_head(alloc, size, backends),
        Form::Json => json_head(alloc, size, backends),
    }
}

fn push_slot_lines(
    text: &mut String,
    form: Form,
    entrants: &[Entrant],
    table: &Table,
    slots: u32,
) -> Result<(), AllocError>
    requires named { table.now.lists ≡ length entrants.now }
    requires sized { length table.now.owners ≡ slots }
    ensures { OnOk result (string_bytes text.new ≡ string_bytes text.old
        ++ slot_lines_as form (names_of entrants.now) table.now.owners slots) }
{
    for slot in 0..slots {
        let name = name_at(table, entrants, slot);
        push_slot_line(text, form, slot, Some(name))?;
    }
    Ok(())
}

fn push_count_lines(
    text: &mut String,
    form: Form,
    entrants: &[Entrant],
    counts: &[u32],
) -> Result<(), AllocError>
    requires { length counts.now ≡ length entrants.now }
    ensures { OnOk result (string_bytes text.new ≡ string_bytes text.old
        ++ counts_text_as form (names_of entrants.now) counts.now (length entrants.now)) }
{
    for who in 0..entrants.len() {
        push_count_line(text, form, entrants[who].name, counts[who])?;
    }
    Ok(())
}

/// The text of the command `table`.
pub(crate) fn table_text_of(
    alloc: Global,
    form: Form,
    size: TableSize,
    entrants: &[Entrant],
    table: &Table,
) -> Result<String, AllocError>
    requires named { table.now.lists ≡ length entrants.now }
    requires sized { length table.now.owners ≡ size }
    ensures { IfOk result (λ s. string_bytes s ≡ table_text_as form size (names_of entrants.now) table.now.owners) }
{
    let slots = size.slots();
    let mut text = table_head(alloc, form, slots, entrants.len())?;
    push_slot_lines(&mut text, form, entrants, table, slots)?;
    let counts = table.counts(alloc)?;
    push_count_lines(&mut text, form, entrants, counts.as_slice())?;
    Ok(text)
}
