//! The lines of `plan --order` as JSON Lines.
ghost use Rattle.std.specs.Prelude.{◌≡◌, ◌++◌, slice_get, OnOk, string_bytes};
ghost use Rattle.std.specs.List.{flat_map};
ghost use Rattle.rollout_order.specs.Objects.{first_name, later_step, steps_json, order_begun, steps_end, order_json, orders_json};

use crate::orders::Order;
use crate::rollout::Rollout;
use json_lines::BoolText;
use std::alloc::AllocError;

// The name of a first step's server, if it has one.
fn push_first(text: &mut String, rollout: &Rollout, place: usize) -> Result<(), AllocError>
    ensures { OnOk result (string_bytes text.new ≡ string_bytes text.old ++ first_name (slice_get rollout.now.leavers.items place)) }
{
    match rollout.leavers.get(place) {
        None => Ok(()),
        Some(name) => write!(text, "\"{name}\""),
    }
}

// That of a later one.
fn push_later(text: &mut String, rollout: &Rollout, place: usize) -> Result<(), AllocError>
    ensures { OnOk result (string_bytes text.new ≡ string_bytes text.old ++ later_step rollout.now place) }
{
    match rollout.leavers.get(place) {
        None => Ok(()),
        Some(name) => write!(text, ",\"{name}\""),
    }
}

fn push_laters(text: &mut String, rollout: &Rollout, steps: &[usize]) -> Result<(), AllocError>
    ensures { OnOk result (string_bytes text.new ≡ string_bytes text.old ++ flat_map (later_step rollout.now) steps.now) }
{
    for place in steps {
        push_later(text, rollout, *place)?;
    }
    Ok(())
}

// The servers of an order's steps, with commas between them.
#[tactic(auto, unfolding(crate::specs::Objects::steps_json))]
fn push_steps(text: &mut String, rollout: &Rollout, steps: &[usize]) -> Result<(), AllocError>
    ensures { OnOk result (string_bytes text.new ≡ string_bytes text.old ++ steps_json rollout.now steps.now) }
{
    match steps {
        [] => Ok(()),
        [first, later @ ..] => {
            push_first(text, rollout, *first)?;
            push_laters(text, rollout, later)
        }
    }
}

fn push_begun(text: &mut String, moved: u64) -> Result<(), AllocError>
    ensures { OnOk result (string_bytes text.new ≡ string_bytes text.old ++ order_begun moved) }
{
    write!(text, "{{\"type\":\"order\",\"moved\":{moved},\"servers\":[")
}

#[tactic(auto, unfolding(crate::specs::Objects::steps_end))]
fn push_end(text: &mut String, rollout: &Rollout, steps: &[usize]) -> Result<(), AllocError>
    ensures { OnOk result (string_bytes text.new ≡ string_bytes text.old ++ steps_end rollout.now steps.now) }
{
    push_steps(text, rollout, steps)?;
    text.push_str("]}\n")
}

/// Puts the line of an order after a text.
#[tactic(auto, unfolding(crate::specs::Objects::order_json))]
pub(crate) fn push_order(
    text: &mut String,
    rollout: &Rollout,
    order: &Order,
) -> Result<(), AllocError>
    ensures { OnOk result (string_bytes text.new ≡ string_bytes text.old ++ order_json rollout.now order.now) }
{
    push_begun(text, order.moved)?;
    push_end(text, rollout, order.steps.as_slice())
}

/// Puts after a text how many servers leave, how many orders there are, and whether one was chosen step by step.
pub(crate) fn push_orders(
    text: &mut String,
    servers: usize,
    count: usize,
    greedy: bool,
) -> Result<(), AllocError>
    ensures { OnOk result (string_bytes text.new ≡ string_bytes text.old ++ orders_json servers count greedy) }
{
    let greedy = BoolText(greedy);
    write!(
        text,
        "{{\"type\":\"orders\",\"servers\":{servers},\"orders\":{count},\"greedy\":{greedy}}}\n"
    )
}
