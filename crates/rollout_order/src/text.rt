//! The text of `plan --order`.
ghost use Rattle.std.specs.Prelude.{◌≡◌, ◌∷◌, [], ◌++◌, true, IfOk, OnOk, string_bytes};
ghost use Rattle.std.specs.List.{flat_map};
ghost use Rattle.rollout_order.specs.Text.{step_text, order_line, head_line, order_line_as, head_line_as, orders_text_as, IsOrdersText};

use crate::greedy::greedy_order;
use crate::objects;
use crate::orders::{Order, ranked_orders};
use crate::rollout::Rollout;
use json_lines::{Form, push_json_head};
use std::alloc::{AllocError, Global};
use std::fmt;

/// The most servers of which all orders are tried.
const MOST_TRIED: usize = 6;

/// What stands behind a head: whether one order was chosen step by step.
#[derive(Clone, Copy)]
struct GreedyText(bool);

impl fmt::Display for GreedyText {
    ghost use Rattle.std.specs.Prelude.{Some};
    ghost use Rattle.rollout_order.specs.Text.{greedy_text};

    ghost output = { λ g. Some (greedy_text g.0) };

    fn fmt<W: fmt::Write>(&self, f: &mut fmt::Formatter<W>) -> fmt::Result {
        if self.0 {
            f.write_str(" greedy")
        } else {
            Ok(())
        }
    }
}

// The name of a step's server, if it has one.
fn push_step(text: &mut String, rollout: &Rollout, place: usize) -> Result<(), AllocError>
    ensures { OnOk result (string_bytes text.new ≡ string_bytes text.old ++ step_text rollout.now place) }
{
    match rollout.leavers.get(place) {
        None => Ok(()),
        Some(name) => write!(text, " {name}"),
    }
}

fn push_steps(text: &mut String, rollout: &Rollout, steps: &[usize]) -> Result<(), AllocError>
    ensures { OnOk result (string_bytes text.new ≡ string_bytes text.old ++ flat_map (step_text rollout.now) steps.now) }
{
    for place in steps {
        push_step(text, rollout, *place)?;
    }
    Ok(())
}

#[tactic(auto, unfolding(crate::specs::Text::order_line))]
fn push_plain_order(text: &mut String, rollout: &Rollout, order: &Order) -> Result<(), AllocError>
    ensures { OnOk result (string_bytes text.new ≡ string_bytes text.old ++ order_line rollout.now order.now) }
{
    let moved = order.moved;
    write!(text, "moved {moved}")?;
    push_steps(text, rollout, order.steps.as_slice())?;
    text.push_str("\n")
}

fn push_order(
    text: &mut String,
    form: Form,
    rollout: &Rollout,
    order: &Order,
) -> Result<(), AllocError>
    ensures { OnOk result (string_bytes text.new ≡ string_bytes text.old ++ order_line_as form rollout.now order.now) }
{
    match form {
        Form::Plain => push_plain_order(text, rollout, order),
        Form::Json => objects::push_order(text, rollout, order),
    }
}

fn push_orders(
    text: &mut String,
    form: Form,
    rollout: &Rollout,
    orders: &[Order],
) -> Result<(), AllocError>
    ensures { OnOk result (string_bytes text.new ≡ string_bytes text.old ++ flat_map (order_line_as form rollout.now) orders.now) }
{
    for order in orders {
        push_order(text, form, rollout, order)?;
    }
    Ok(())
}

#[tactic(auto, unfolding(crate::specs::Text::head_line))]
fn push_plain_head(
    text: &mut String,
    rollout: &Rollout,
    count: usize,
    greedy: bool,
) -> Result<(), AllocError>
    ensures { OnOk result (string_bytes text.new ≡ string_bytes text.old ++ head_line rollout.now count greedy) }
{
    let servers = rollout.leavers.len();
    let greedy = GreedyText(greedy);
    write!(text, "servers {servers} orders {count}{greedy}\n")
}

fn push_json_orders(
    text: &mut String,
    rollout: &Rollout,
    count: usize,
    greedy: bool,
) -> Result<(), AllocError>
    ensures { OnOk result (string_bytes text.new ≡ string_bytes text.old ++ head_line_as Form.Json rollout.now count greedy) }
{
    push_json_head(text, "plan")?;
    objects::push_orders(text, rollout.leavers.len(), count, greedy)
}

fn push_head(
    text: &mut String,
    form: Form,
    rollout: &Rollout,
    count: usize,
    greedy: bool,
) -> Result<(), AllocError>
    ensures { OnOk result (string_bytes text.new ≡ string_bytes text.old ++ head_line_as form rollout.now count greedy) }
{
    match form {
        Form::Plain => push_plain_head(text, rollout, count, greedy),
        Form::Json => push_json_orders(text, rollout, count, greedy),
    }
}

fn lines_of(
    alloc: Global,
    form: Form,
    rollout: &Rollout,
    orders: &[Order],
    greedy: bool,
) -> Result<String, AllocError>
    ensures { IfOk result (λ s. string_bytes s ≡ orders_text_as form rollout.now orders.now greedy) }
{
    let mut text = String::new(alloc);
    push_head(&mut text, form, rollout, orders.len(), greedy)?;
    push_orders(&mut text, form, rollout, orders)?;
    Ok(text)
}

fn line_of(alloc: Global, form: Form, rollout: &Rollout, order: Order) -> Result<String, AllocError>
    ensures { IfOk result (λ s. string_bytes s ≡ orders_text_as form rollout.now (order ∷ []) true) }
{
    let orders = vec![in alloc; order]?;
    lines_of(alloc, form, rollout, orders.as_slice(), true)
}

/// The orders of what is replaced: all of few servers, one of more.
pub(crate) fn orders_text_of(
    alloc: Global,
    form: Form,
    rollout: &Rollout,
) -> Result<String, AllocError>
    ensures { IfOk result (λ s. IsOrdersText form rollout.now (string_bytes s)) }
{
    if rollout.leavers.len() <= MOST_TRIED {
        let orders = ranked_orders(alloc, rollout)?;
        lines_of(alloc, form, rollout, orders.as_slice(), false)
    } else {
        let order = greedy_order(alloc, rollout)?;
        line_of(alloc, form, rollout, order)
    }
}
