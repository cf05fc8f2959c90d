ghost use Rattle.std.specs.Prelude.{◌≡◌, ◌++◌, IfOk, OnOk, string_bytes};
ghost use Rattle.run_report.specs.Names.{cause_name};
ghost use Rattle.table_commands.specs.Objects.{flow_json, drop_json};
ghost use Rattle.table_commands.specs.Pick.{flow_line, drop_line, flow_text_as, drop_text_as};

use backend_names::Name;
use cluster_node::Cause;
use five_tuple::Flow;
use json_lines::{Form, push_json_head};
use maglev_texts::FlowText;
use run_report::CauseText;
use std::alloc::{AllocError, Global};

fn plain_flow(alloc: Global, flow: Flow, slot: u32, name: Name) -> Result<String, AllocError>
    ensures { IfOk result (λ s. string_bytes s ≡ flow_line flow slot name) }
{
    let text = FlowText(flow);
    format!(in alloc; "{text} slot {slot} backend {name}\n")
}

fn push_json_flow(text: &mut String, flow: Flow, slot: u32, name: Name) -> Result<(), AllocError>
    ensures { OnOk result (string_bytes text.new ≡ string_bytes text.old ++ flow_json flow slot name) }
{
    let flow = FlowText(flow);
    write!(
        text,
        "{{\"type\":\"pick\",\"flow\":\"{flow}\",\"slot\":{slot},\"backend\":\"{name}\"}}\n"
    )
}

fn json_flow(alloc: Global, flow: Flow, slot: u32, name: Name) -> Result<String, AllocError>
    ensures { IfOk result (λ s. string_bytes s ≡ flow_text_as Form.Json flow slot name) }
{
    let mut text = String::new(alloc);
    push_json_head(&mut text, "pick")?;
    push_json_flow(&mut text, flow, slot, name)?;
    Ok(text)
}

/// What `pick` prints of a flow, its slot and the backend that the slot names.
pub fn flow_text_of(
    alloc: Global,
    form: Form,
    flow: Flow,
    slot: u32,
    name: Name,
) -> Result<String, AllocError>
    ensures { IfOk result (λ s. string_bytes s ≡ flow_text_as form flow slot name) }
{
    match form {
        Form::Plain => plain_flow(alloc, flow, slot, name),
        Form::Json => json_flow(alloc, flow, slot, name),
    }
}

fn plain_drop(alloc: Global, cause: Cause) -> Result<String, AllocError>
    ensures { IfOk result (λ s. string_bytes s ≡ drop_line (cause_name cause)) }
{
    let cause = CauseText(cause);
    format!(in alloc; "drop {cause}\n")
}

fn push_json_drop(text: &mut String, cause: Cause) -> Result<(), AllocError>
    ensures { OnOk result (string_bytes text.new ≡ string_bytes text.old ++ drop_json (cause_name cause)) }
{
    let cause = CauseText(cause);
    write!(text, "{{\"type\":\"drop\",\"cause\":\"{cause}\"}}\n")
}

fn json_drop(alloc: Global, cause: Cause) -> Result<String, AllocError>
    ensures { IfOk result (λ s. string_bytes s ≡ drop_text_as Form.Json (cause_name cause)) }
{
    let mut text = String::new(alloc);
    push_json_head(&mut text, "pick")?;
    push_json_drop(&mut text, cause)?;
    Ok(text)
}

/// What `pick` prints of a datagram that is dropped.
pub fn drop_text_of(alloc: Global, form: Form, cause: Cause) -> Result<String, AllocError>
    ensures { IfOk result (λ s. string_bytes s ≡ drop_text_as form (cause_name cause)) }
{
    match form {
        Form::Plain => plain_drop(alloc, cause),
        Form::Json => json_drop(alloc, cause),
    }
}
