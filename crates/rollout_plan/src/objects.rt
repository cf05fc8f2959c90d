//! The lines of `plan` as JSON Lines.
ghost use Rattle.std.specs.Prelude.{◌≡◌, ◌++◌, OnOk, string_bytes};
ghost use Rattle.rollout_plan.specs.Objects.{causes_end, counts_end, change_json, service_json, change_member_json, member_json};

use crate::counting::{Causes, causes_of, least};
use crate::drains::Draining;
use crate::slots::SlotTable;
use crate::text::ServiceText;
use json_lines::BackendMembers;
use pool_versions::{Member, ServiceKey};
use std::alloc::{AllocError, Global};
use std::fmt;

/// A service and the number of its table's slots, printed as `"type":"service","service":"SERVICE","slots":SLOTS`.
#[derive(Clone, Copy)]
struct ServiceMembers {
    key: ServiceKey,
    slots: u32,
}

impl fmt::Display for ServiceMembers {
    ghost use Rattle.std.specs.Prelude.{Some};
    ghost use Rattle.rollout_plan.specs.Objects.{service_members};

    ghost output = { λ s. Some (service_members s.key s.slots) };

    #[tactic(auto, unfolding(crate::specs::Objects::service_members))]
    fn fmt<W: fmt::Write>(&self, f: &mut fmt::Formatter<W>) -> fmt::Result {
        let service = ServiceText(self.key);
        let slots = self.slots;
        write!(
            f,
            "\"type\":\"service\",\"service\":\"{service}\",\"slots\":{slots}"
        )
    }
}

/// A member of a service, printed as `"type":"member","service":"SERVICE","backend":"NAME","address":"ADDRESS","weight":WEIGHT`.
#[derive(Clone, Copy)]
struct MemberMembers {
    key: ServiceKey,
    member: Member,
}

impl fmt::Display for MemberMembers {
    ghost use Rattle.std.specs.Prelude.{Some};
    ghost use Rattle.rollout_plan.specs.Objects.{member_members};

    ghost output = { λ m. Some (member_members m.key m.member) };

    #[tactic(auto, unfolding(crate::specs::Objects::member_members))]
    fn fmt<W: fmt::Write>(&self, f: &mut fmt::Formatter<W>) -> fmt::Result {
        let service = ServiceText(self.key);
        let backend = BackendMembers(self.member.backend);
        let weight = self.member.weight.turns();
        write!(
            f,
            "\"type\":\"member\",\"service\":\"{service}\",{backend},\"weight\":{weight}"
        )
    }
}

/// Whether a backend is up, and if it isn't, whether it drains: `up`, `drain` or `down`.
#[derive(Clone, Copy)]
struct StateWord {
    up: bool,
    drains: bool,
}

impl fmt::Display for StateWord {
    ghost use Rattle.std.specs.Prelude.{Some};
    ghost use Rattle.rollout_plan.specs.Objects.{state_json};

    ghost output = { λ s. Some (state_json s.up s.drains) };

    fn fmt<W: fmt::Write>(&self, f: &mut fmt::Formatter<W>) -> fmt::Result {
        if self.up {
            f.write_str("up")
        } else if self.drains {
            f.write_str("drain")
        } else {
            f.write_str("down")
        }
    }
}

// The counts of a line, and its end.
fn push_causes_end(
    text: &mut String,
    changed: u32,
    causes: Causes,
    least: u64,
) -> Result<(), AllocError>
    ensures { OnOk result (string_bytes text.new ≡ string_bytes text.old ++ causes_end changed causes.down causes.moved causes.drained least) }
{
    let Causes {
        down,
        moved,
        drained,
    } = causes;
    write!(
        text,
        ",\"changed\":{changed},\"down\":{down},\"moved\":{moved},\"drained\":{drained},\"least\":{least}}}\n"
    )
}

// The same of two tables.
fn push_counts_end(
    alloc: Global,
    text: &mut String,
    before: &SlotTable,
    after: &SlotTable,
    draining: &Draining,
) -> Result<(), AllocError>
    requires { before.now.size ≡ after.now.size }
    ensures { OnOk result (string_bytes text.new ≡ string_bytes text.old ++ counts_end before.now after.now draining.now) }
{
    let causes = causes_of(alloc, before, after, draining)?;
    let changed = causes.down + causes.moved + causes.drained;
    let least = least(before, after);
    push_causes_end(text, changed, causes, least)
}

/// Puts the line of a service after a text, with what changes between its tables.
pub(crate) fn push_change(
    alloc: Global,
    text: &mut String,
    key: ServiceKey,
    before: &SlotTable,
    after: &SlotTable,
    draining: &Draining,
) -> Result<(), AllocError>
    requires { before.now.size ≡ after.now.size }
    ensures { OnOk result (string_bytes text.new ≡ string_bytes text.old ++ change_json key before.now after.now draining.now) }
{
    let slots = before.size();
    let service = ServiceMembers { key, slots };
    write!(text, "{{{service}")?;
    push_counts_end(alloc, text, before, after, draining)
}

/// Puts the line of a service after a text, with the size of its table.
pub(crate) fn push_service(text: &mut String, key: ServiceKey, slots: u32) -> Result<(), AllocError>
    ensures { OnOk result (string_bytes text.new ≡ string_bytes text.old ++ service_json key slots) }
{
    let service = ServiceMembers { key, slots };
    write!(text, "{{{service}}}\n")
}

/// Puts the line of a member after a text, with its slots before and after.
#[tactic(auto, unfolding(crate::specs::Objects::change_member_json))]
pub(crate) fn push_change_member(
    text: &mut String,
    key: ServiceKey,
    before: &SlotTable,
    after: &SlotTable,
    draining: &Draining,
    member: &Member,
) -> Result<(), AllocError>
    ensures { OnOk result (string_bytes text.new ≡ string_bytes text.old ++ change_member_json key before.now after.now draining.now member.now) }
{
    let old = before.slots_of(&member.backend);
    let new = after.slots_of(&member.backend);
    let state = StateWord {
        up: after.is_up(&member.backend),
        drains: draining.has(&member.backend),
    };
    let member = MemberMembers {
        key,
        member: *member,
    };
    write!(
        text,
        "{{{member},\"before\":{old},\"after\":{new},\"state\":\"{state}\"}}\n"
    )
}

/// Puts the line of a member after a text, with its slots.
#[tactic(auto, unfolding(crate::specs::Objects::member_json))]
pub(crate) fn push_member(
    text: &mut String,
    key: ServiceKey,
    table: &SlotTable,
    draining: &Draining,
    member: &Member,
) -> Result<(), AllocError>
    ensures { OnOk result (string_bytes text.new ≡ string_bytes text.old ++ member_json key table.now draining.now member.now) }
{
    let slots = table.slots_of(&member.backend);
    let state = StateWord {
        up: table.is_up(&member.backend),
        drains: draining.has(&member.backend),
    };
    let member = MemberMembers {
        key,
        member: *member,
    };
    write!(
        text,
        "{{{member},\"slots\":{slots},\"state\":\"{state}\"}}\n"
    )
}
