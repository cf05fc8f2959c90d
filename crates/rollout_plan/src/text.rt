//! The text of the command `plan`.
ghost use Rattle.std.specs.Prelude.{◌≡◌, ◌++◌, [], IfOk, OnOk, string_bytes};
ghost use Rattle.std.specs.List.{flat_map};
ghost use Rattle.rollout_plan.specs.Text.{service_line, counts_line, change_line, services_gone, has_service, slots_line, backend_line};
ghost use Rattle.rollout_plan.specs.Forms.{counts_as, change_line_as, change_text_as, kept_text_as, gone_text_as, plan_text_as, size_as, backend_line_as};
ghost use Rattle.rollout_plan.specs.Forms.{block_text_as, version_text_as};

use crate::counting::{Causes, causes_of, least};
use crate::drains::Draining;
use crate::members::{in_order, members_of_both, members_under};
use crate::objects;
use crate::slots::{SlotTable, TableRule};
use json_lines::Form;
use maglev_texts::{AddressText, BackendText};
use pool_versions::{Member, Service, ServiceKey, Version};
use std::alloc::{AllocError, Global};
use std::fmt;

/// A protocol: `tcp`, `udp` or its number.
#[derive(Clone, Copy)]
struct ProtocolText(u8);

impl fmt::Display for ProtocolText {
    ghost use Rattle.std.specs.Prelude.{Some};
    ghost use Rattle.maglev_texts.specs.Printing.{protocol_text};

    ghost output = { λ p. Some (protocol_text p.0) };

    fn fmt<W: fmt::Write>(&self, f: &mut fmt::Formatter<W>) -> fmt::Result {
        let proto = self.0;
        match proto {
            6 => f.write_str("tcp"),
            17 => f.write_str("udp"),
            _ => write!(f, "{proto}"),
        }
    }
}

/// A service: `ADDRESS:PORT/PROTOCOL`.
#[derive(Clone, Copy)]
pub struct ServiceText(pub ServiceKey);

impl fmt::Display for ServiceText {
    ghost use Rattle.std.specs.Prelude.{Some};
    ghost use Rattle.rollout_plan.specs.Text.{service_word};

    ghost output = { λ s. Some (service_word s.0) };

    fn fmt<W: fmt::Write>(&self, f: &mut fmt::Formatter<W>) -> fmt::Result {
        let key = self.0;
        let address = AddressText(key.vip);
        let port = key.port;
        let protocol = ProtocolText(key.proto);
        write!(f, "{address}:{port}/{protocol}")
    }
}

/// What stands behind a backend's numbers: nothing where it is up.
#[derive(Clone, Copy)]
struct StateText {
    up: bool,
    drains: bool,
}

impl fmt::Display for StateText {
    ghost use Rattle.std.specs.Prelude.{Some};
    ghost use Rattle.rollout_plan.specs.Text.{state_text};

    ghost output = { λ s. Some (state_text s.up s.drains) };

    fn fmt<W: fmt::Write>(&self, f: &mut fmt::Formatter<W>) -> fmt::Result {
        if self.up {
            Ok(())
        } else if self.drains {
            f.write_str(" drain")
        } else {
            f.write_str(" down")
        }
    }
}

/// What stands at the end of a line of counts: how many slots of servers that drain now, where that is told.
#[derive(Clone, Copy)]
struct DrainedText(Option<u32>);

impl fmt::Display for DrainedText {
    ghost use Rattle.std.specs.Prelude.{Some};
    ghost use Rattle.rollout_plan.specs.Text.{drained_text};

    ghost output = { λ d. Some (drained_text d.0) };

    fn fmt<W: fmt::Write>(&self, f: &mut fmt::Formatter<W>) -> fmt::Result {
        match self.0 {
            None => Ok(()),
            Some(count) => write!(f, " drained {count}"),
        }
    }
}

#[tactic(auto, unfolding(crate::specs::Text::service_line))]
fn push_service_line(text: &mut String, key: ServiceKey) -> Result<(), AllocError>
    ensures { OnOk result (string_bytes text.new ≡ string_bytes text.old ++ service_line key) }
{
    let service = ServiceText(key);
    write!(text, "service {service}\n")
}

#[tactic(auto, unfolding(crate::specs::Text::counts_line))]
fn push_counts_line(
    alloc: Global,
    text: &mut String,
    before: &SlotTable,
    after: &SlotTable,
    draining: &Draining,
) -> Result<(), AllocError>
    requires { before.now.size ≡ after.now.size }
    ensures { OnOk result (string_bytes text.new ≡ string_bytes text.old ++ counts_line before.now after.now draining.now) }
{
    let slots = before.size();
    let Causes {
        down,
        moved,
        drained,
    } = causes_of(alloc, before, after, draining)?;
    let changed = down + moved + drained;
    let least = least(before, after);
    let drained = DrainedText(draining.told(drained));
    write!(
        text,
        "slots {slots} changed {changed} down {down} moved {moved} least {least}{drained}\n"
    )
}

#[tactic(auto, unfolding(crate::specs::Text::change_line))]
fn push_change_line(
    text: &mut String,
    before: &SlotTable,
    after: &SlotTable,
    draining: &Draining,
    member: &Member,
) -> Result<(), AllocError>
    ensures { OnOk result (string_bytes text.new ≡ string_bytes text.old ++ change_line before.now after.now draining.now member.now) }
{
    let backend = BackendText(member.backend);
    let weight = member.weight.turns();
    let old = before.slots_of(&member.backend);
    let new = after.slots_of(&member.backend);
    let state = StateText {
        up: after.is_up(&member.backend),
        drains: draining.has(&member.backend),
    };
    write!(
        text,
        "{backend} weight {weight} before {old} after {new}{state}\n"
    )
}

/// A block of a plan: how it is printed, and which service it is of.
#[derive(Clone, Copy)]
struct Block {
    form: Form,
    key: ServiceKey,
}

fn push_plain_counts(
    alloc: Global,
    text: &mut String,
    key: ServiceKey,
    before: &SlotTable,
    after: &SlotTable,
    draining: &Draining,
) -> Result<(), AllocError>
    requires { before.now.size ≡ after.now.size }
    ensures { OnOk result (string_bytes text.new ≡ string_bytes text.old ++ (service_line key ++ counts_line before.now after.now draining.now)) }
{
    push_service_line(text, key)?;
    push_counts_line(alloc, text, before, after, draining)
}

// The head of a service's block: what changes between its tables.
fn push_counts(
    alloc: Global,
    text: &mut String,
    block: Block,
    before: &SlotTable,
    after: &SlotTable,
    draining: &Draining,
) -> Result<(), AllocError>
    requires { before.now.size ≡ after.now.size }
    ensures { OnOk result (string_bytes text.new ≡ string_bytes text.old ++ counts_as block.form block.key before.now after.now draining.now) }
{
    match block.form {
        Form::Plain => push_plain_counts(alloc, text, block.key, before, after, draining),
        Form::Json => objects::push_change(alloc, text, block.key, before, after, draining),
    }
}

fn push_change_member(
    text: &mut String,
    block: Block,
    before: &SlotTable,
    after: &SlotTable,
    draining: &Draining,
    member: &Member,
) -> Result<(), AllocError>
    ensures { OnOk result (string_bytes text.new ≡ string_bytes text.old ++ change_line_as block.form block.key before.now after.now draining.now member.now) }
{
    match block.form {
        Form::Plain => push_change_line(text, before, after, draining, member),
        Form::Json => objects::push_change_member(text, block.key, before, after, draining, member),
    }
}

fn push_change_lines(
    text: &mut String,
    block: Block,
    before: &SlotTable,
    after: &SlotTable,
    draining: &Draining,
    members: &[Member],
) -> Result<(), AllocError>
    ensures { OnOk result (string_bytes text.new ≡ string_bytes text.old
        ++ flat_map (change_line_as block.form block.key before.now after.now draining.now) members.now) }
{
    for member in members {
        push_change_member(text, block, before, after, draining, member)?;
    }
    Ok(())
}

// What changes for a service, between its members before and after.
#[tactic(auto, unfolding(crate::specs::Forms::change_text_as))]
fn push_change(
    alloc: Global,
    text: &mut String,
    block: Block,
    rule: &TableRule,
    before: &[Member],
    after: &[Member],
) -> Result<(), AllocError>
    ensures { OnOk result (string_bytes text.new ≡ string_bytes text.old ++ change_text_as block.form rule.now block.key before.now after.now) }
{
    let old = rule.table(alloc, before)?;
    let new = rule.table(alloc, after)?;
    let draining = Draining::of(alloc, after)?;
    let members = members_of_both(alloc, before, after)?;
    push_counts(alloc, text, block, &old, &new, &draining)?;
    push_change_lines(text, block, &old, &new, &draining, members.as_slice())
}

// What changes for the services of the later version.
fn push_kept(
    alloc: Global,
    text: &mut String,
    form: Form,
    rule: &TableRule,
    before: &Version,
    services: &[Service],
) -> Result<(), AllocError>
    ensures { OnOk result (string_bytes text.new ≡ string_bytes text.old ++ flat_map (kept_text_as form rule.now before.now) services.now) }
{
    for service in services {
        let key = service.key();
        let block = Block { form, key };
        let members = members_under(key, before);
        push_change(
            alloc,
            text,
            block,
            rule,
            members,
            service.members.as_slice(),
        )?;
    }
    Ok(())
}

/// Whether a version has the service of a key.
pub fn has_service(version: &Version, key: ServiceKey) -> bool
    ensures { result ≡ has_service key version.now }
{
    version.services.iter().any(|service| service.key() == key)
}

// What changes for the services that the later version lacks.
fn push_gone(
    alloc: Global,
    text: &mut String,
    form: Form,
    rule: &TableRule,
    services: &[Service],
    after: &Version,
) -> Result<(), AllocError>
    ensures { OnOk result (string_bytes text.new ≡ string_bytes text.old ++ flat_map (gone_text_as form rule.now) (services_gone services.now after.now)) }
{
    for service in services {
        let key = service.key();
        if !has_service(after, key) {
            let block = Block { form, key };
            push_change(alloc, text, block, rule, service.members.as_slice(), &[])?;
        }
    }
    Ok(())
}

/// What changes from one version to another.
pub(crate) fn plan_text_of(
    alloc: Global,
    form: Form,
    rule: &TableRule,
    before: &Version,
    after: &Version,
) -> Result<String, AllocError>
    ensures { IfOk result (λ s. string_bytes s ≡ plan_text_as form rule.now before.now after.now) }
{
    let mut text = String::new(alloc);
    form.push_head(&mut text, "plan")?;
    push_kept(
        alloc,
        &mut text,
        form,
        rule,
        before,
        after.services.as_slice(),
    )?;
    push_gone(
        alloc,
        &mut text,
        form,
        rule,
        before.services.as_slice(),
        after,
    )?;
    Ok(text)
}

#[tactic(auto, unfolding(crate::specs::Text::backend_line))]
fn push_backend_line(
    text: &mut String,
    table: &SlotTable,
    draining: &Draining,
    member: &Member,
) -> Result<(), AllocError>
    ensures { OnOk result (string_bytes text.new ≡ string_bytes text.old ++ backend_line table.now draining.now member.now) }
{
    let backend = BackendText(member.backend);
    let weight = member.weight.turns();
    let slots = table.slots_of(&member.backend);
    let state = StateText {
        up: table.is_up(&member.backend),
        drains: draining.has(&member.backend),
    };
    write!(text, "{backend} weight {weight} slots {slots}{state}\n")
}

fn push_member(
    text: &mut String,
    block: Block,
    table: &SlotTable,
    draining: &Draining,
    member: &Member,
) -> Result<(), AllocError>
    ensures { OnOk result (string_bytes text.new ≡ string_bytes text.old ++ backend_line_as block.form block.key table.now draining.now member.now) }
{
    match block.form {
        Form::Plain => push_backend_line(text, table, draining, member),
        Form::Json => objects::push_member(text, block.key, table, draining, member),
    }
}

fn push_backend_lines(
    text: &mut String,
    block: Block,
    table: &SlotTable,
    draining: &Draining,
    members: &[Member],
) -> Result<(), AllocError>
    ensures { OnOk result (string_bytes text.new ≡ string_bytes text.old
        ++ flat_map (backend_line_as block.form block.key table.now draining.now) members.now) }
{
    for member in members {
        push_member(text, block, table, draining, member)?;
    }
    Ok(())
}

fn push_plain_size(text: &mut String, key: ServiceKey, slots: u32) -> Result<(), AllocError>
    ensures { OnOk result (string_bytes text.new ≡ string_bytes text.old ++ (service_line key ++ slots_line slots)) }
{
    push_service_line(text, key)?;
    write!(text, "slots {slots}\n")
}

// The head of a service's block: the size of its table.
fn push_size(text: &mut String, block: Block, slots: u32) -> Result<(), AllocError>
    ensures { OnOk result (string_bytes text.new ≡ string_bytes text.old ++ size_as block.form block.key slots) }
{
    match block.form {
        Form::Plain => push_plain_size(text, block.key, slots),
        Form::Json => objects::push_service(text, block.key, slots),
    }
}

// What a service has, of some members.
#[tactic(auto, unfolding(crate::specs::Forms::block_text_as))]
fn push_block(
    alloc: Global,
    text: &mut String,
    block: Block,
    rule: &TableRule,
    members: &[Member],
) -> Result<(), AllocError>
    ensures { OnOk result (string_bytes text.new ≡ string_bytes text.old ++ block_text_as block.form rule.now block.key members.now) }
{
    let table = rule.table(alloc, members)?;
    let draining = Draining::of(alloc, members)?;
    let ordered = in_order(alloc, members)?;
    push_size(text, block, rule.size.slots())?;
    push_backend_lines(text, block, &table, &draining, ordered.as_slice())
}

/// What one version has.
pub(crate) fn version_text_of(
    alloc: Global,
    form: Form,
    rule: &TableRule,
    version: &Version,
) -> Result<String, AllocError>
    ensures { IfOk result (λ s. string_bytes s ≡ version_text_as form rule.now version.now) }
{
    let mut text = String::new(alloc);
    form.push_head(&mut text, "plan")?;
    for service in &version.services {
        let key = service.key();
        let block = Block { form, key };
        push_block(alloc, &mut text, block, rule, service.members.as_slice())?;
    }
    Ok(text)
}
