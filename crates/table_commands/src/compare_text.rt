ghost use Rattle.std.specs.Prelude.{◌≡◌, ◌<◌, ◌++◌, length, IfOk, OnOk, string_bytes, All};
ghost use Rattle.std.specs.List.{flat_map};
ghost use Rattle.selection.specs.Picks.{NamedTable, slot_names};
ghost use Rattle.table_commands.specs.Objects.{compare_json, moved_json};
ghost use Rattle.table_commands.specs.Compare.{name_alike, is_moved, moved_slots, moved_line, moved_line_as, slot_moved_as, compare_head, compare_head_as};
ghost use Rattle.table_commands.specs.Compare.{compare_text_as, named_text};

use super::objects::BackendObject;
use json_lines::{Form, push_json_head};
use maglev_texts::BackendText;
use pool_versions::Backend;
use selection::MaglevTable;
use std::alloc::{AllocError, Global};
use std::fmt;

/// A table whose slots name backends, as [`MaglevTable`] is one.
pub trait NamedSlots {
    /// The table: its size, its backends, and for each slot the place of the one that it names.
    ghost table: { Self → NamedTable };

    /// The number of slots.
    fn slots(&self) -> u32
        ensures { result ≡ (table self.now).size };

    /// How many backends are up.
    fn up_count(&self) -> usize
        ensures { result ≡ length (table self.now).ups };

    /// The backend that a slot names, None where nobody is up. Slots begin at 0.
    fn named_at(&self, slot: u32) -> Option<Backend>
        requires { slot < (table self.now).size }
        ensures { result ≡ slot_names (table self.now).ups (table self.now).owners slot };
}

impl NamedSlots for MaglevTable {
    ghost table = { λ t. t };

    fn slots(&self) -> u32 {
        self.size().slots()
    }

    fn up_count(&self) -> usize {
        self.ups().len()
    }

    fn named_at(&self, slot: u32) -> Option<Backend> {
        self.backend_at(slot)
    }
}

/// What a slot names: a backend, or nobody, which is shown by a dash.
#[derive(Clone, Copy)]
struct NamedText(Option<Backend>);

impl fmt::Display for NamedText {
    ghost use Rattle.std.specs.Prelude.{Some};

    ghost output = { λ n. Some (named_text n.0) };

    fn fmt<W: fmt::Write>(&self, f: &mut fmt::Formatter<W>) -> fmt::Result {
        match self.0 {
            None => f.write_str("-"),
            Some(backend) => {
                let text = BackendText(backend);
                write!(f, "{text}")
            }
        }
    }
}

fn name_alike(old: Option<Backend>, new: Option<Backend>) -> bool
    ensures { result ≡ name_alike old new }
{
    match old {
        None => new.is_none(),
        Some(old) => match new {
            None => false,
            Some(new) => old == new,
        },
    }
}

fn is_moved<T: NamedSlots>(old: &T, new: &T, slot: u32) -> bool
    requires old { slot < (T.table old.now).size }
    requires new { slot < (T.table new.now).size }
    ensures { result ≡ is_moved (T.table old.now) (T.table new.now) slot }
{
    !name_alike(old.named_at(slot), new.named_at(slot))
}

/// The slots that name another backend in the second table, ascending.
fn moved_slots<T: NamedSlots>(alloc: Global, old: &T, new: &T) -> Result<Vec<u32>, AllocError>
    requires { (T.table old.now).size ≡ (T.table new.now).size }
    ensures slots { IfOk result (λ v. v.items ≡ moved_slots (T.table old.now) (T.table new.now)) }
    ensures below { IfOk result (λ v. All (λ slot. slot < (T.table old.now).size) v.items) }
{
    let mut slots = Vec::new(alloc);
    let size = old.slots();
    for slot in 0..size {
        if is_moved(old, new, slot) {
            slots.push(slot)?;
        }
    }
    Ok(slots)
}

fn push_plain_move(
    text: &mut String,
    slot: u32,
    before: Option<Backend>,
    after: Option<Backend>,
) -> Result<(), AllocError>
    ensures { OnOk result (string_bytes text.new ≡ string_bytes text.old ++ moved_line slot before after) }
{
    let before = NamedText(before);
    let after = NamedText(after);
    write!(text, "{slot} {before} {after}\n")
}

fn push_json_move(
    text: &mut String,
    slot: u32,
    before: Option<Backend>,
    after: Option<Backend>,
) -> Result<(), AllocError>
    ensures { OnOk result (string_bytes text.new ≡ string_bytes text.old ++ moved_json slot before after) }
{
    let old = BackendObject(before);
    let new = BackendObject(after);
    write!(
        text,
        "{{\"type\":\"slot\",\"slot\":{slot},\"old\":{old},\"new\":{new}}}\n"
    )
}

// The line of a slot that names another backend.
fn push_move(
    text: &mut String,
    form: Form,
    slot: u32,
    before: Option<Backend>,
    after: Option<Backend>,
) -> Result<(), AllocError>
    ensures { OnOk result (string_bytes text.new ≡ string_bytes text.old ++ moved_line_as form slot before after) }
{
    match form {
        Form::Plain => push_plain_move(text, slot, before, after),
        Form::Json => push_json_move(text, slot, before, after),
    }
}

fn push_moved_lines<T: NamedSlots>(
    text: &mut String,
    form: Form,
    old: &T,
    new: &T,
    slots: &[u32],
) -> Result<(), AllocError>
    requires same { (T.table old.now).size ≡ (T.table new.now).size }
    requires below { All (λ slot. slot < (T.table old.now).size) slots.now }
    ensures { OnOk result (string_bytes text.new ≡ string_bytes text.old ++ flat_map (slot_moved_as form (T.table old.now) (T.table new.now)) slots.now) }
{
    for slot in slots {
        push_move(text, form, *slot, old.named_at(*slot), new.named_at(*slot))?;
    }
    Ok(())
}

/// How large two tables are, how many backends each has, and how many slots differ.
#[derive(Clone, Copy)]
struct Sizes {
    slots: u32,
    before: usize,
    after: usize,
    moved: usize,
}

fn plain_head(alloc: Global, sizes: Sizes) -> Result<String, AllocError>
    ensures { IfOk result (λ s. string_bytes s ≡ compare_head sizes.slots sizes.before sizes.after sizes.moved) }
{
    let Sizes {
        slots,
        before,
        after,
        moved,
    } = sizes;
    format!(in alloc; "size {slots} old {before} new {after} differ {moved}\n")
}

fn push_json_sizes(text: &mut String, sizes: Sizes) -> Result<(), AllocError>
    ensures { OnOk result (string_bytes text.new ≡ string_bytes text.old ++ compare_json sizes.slots sizes.before sizes.after sizes.moved) }
{
    let Sizes {
        slots,
        before,
        after,
        moved,
    } = sizes;
    write!(
        text,
        "{{\"type\":\"compare\",\"size\":{slots},\"old\":{before},\"new\":{after},\"differ\":{moved}}}\n"
    )
}

fn json_head(alloc: Global, sizes: Sizes) -> Result<String, AllocError>
    ensures { IfOk result (λ s. string_bytes s ≡ compare_head_as Form.Json sizes.slots sizes.before sizes.after sizes.moved) }
{
    let mut text = String::new(alloc);
    push_json_head(&mut text, "compare")?;
    push_json_sizes(&mut text, sizes)?;
    Ok(text)
}

// What stands before the lines of the slots.
fn head(alloc: Global, form: Form, sizes: Sizes) -> Result<String, AllocError>
    ensures { IfOk result (λ s. string_bytes s ≡ compare_head_as form sizes.slots sizes.before sizes.after sizes.moved) }
{
    match form {
        Form::Plain => plain_head(alloc, sizes),
        Form::Json => json_head(alloc, sizes),
    }
}

/// The text of the command `compare` over two tables of one size.
#[tactic(auto, unfolding(crate::specs::Compare::compare_text_as))]
pub fn compare_text_of<T: NamedSlots>(
    alloc: Global,
    form: Form,
    old: &T,
    new: &T,
) -> Result<String, AllocError>
    requires { (T.table old.now).size ≡ (T.table new.now).size }
    ensures { IfOk result (λ s. string_bytes s ≡ compare_text_as form (T.table old.now) (T.table new.now)) }
{
    let slots = moved_slots(alloc, old, new)?;
    let sizes = Sizes {
        slots: old.slots(),
        before: old.up_count(),
        after: new.up_count(),
        moved: slots.len(),
    };
    let mut text = head(alloc, form, sizes)?;
    push_moved_lines(&mut text, form, old, new, slots.as_slice())?;
    Ok(text)
}
