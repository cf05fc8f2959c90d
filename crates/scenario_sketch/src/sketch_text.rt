//! The text of a sketch.
ghost use Rattle.std.specs.Prelude.{◌≡◌, ◌++◌, IfOk, OnOk, string_bytes, take};
ghost use Rattle.std.specs.List.{flat_map};
ghost use Rattle.scenario_sketch.specs.Text.{protocol_word, head_text, service_text, services_text, sketch_text};

use crate::counted::Counted;
use maglev_texts::AddressText;
use pool_versions::MOST_SERVICES;
use std::alloc::{AllocError, Global};

/// A cluster of one balancer.
const CLUSTER: &str = "format = 1
size = 65537
hash = \"fnv\"
scheme = \"maglev\"
spread = \"hash\"
workers = 1
capacity = 100000
nodes = [\"10.9.0.1\"]
";

/// Which destinations are services.
const ORDER: &str = "The first 256 of them are services, the most frequent first.";

/// No members yet, and what they may be.
const MEMBERS: &str = "members = []
# members = [\"web-1@10.8.0.1\", \"web-2@10.8.0.2\"]";

// The word of a scenario for a protocol: 6 is TCP, and 17 is UDP.
fn protocol_word(proto: u8) -> &'static str
    ensures { result.now ≡ protocol_word proto }
{
    if proto == 6 { "tcp" } else { "udp" }
}

// The cluster, and a step that plays so many records under version 1.
fn push_head(text: &mut String, records: u32) -> Result<(), AllocError>
    ensures { OnOk result (string_bytes text.new ≡ string_bytes text.old ++ head_text records) }
{
    write!(
        text,
        "{CLUSTER}steps = [\"install 0 1\", \"take {records}\"]\n\n[[versions]]\nnumber = 1\n"
    )
}

fn push_service(text: &mut String, counted: &Counted) -> Result<(), AllocError>
    ensures { OnOk result (string_bytes text.new ≡ string_bytes text.old ++ service_text counted.now) }
{
    let packets = counted.packets;
    let vip = AddressText(counted.service.vip);
    let proto = protocol_word(counted.service.proto);
    let port = counted.service.port;
    write!(
        text,
        "\n# {packets} packets\n[[versions.services]]\nvip = \"{vip}\"\nproto = \"{proto}\"\nport = {port}\n{MEMBERS}\n"
    )
}

fn push_all(text: &mut String, ranked: &[Counted]) -> Result<(), AllocError>
    ensures { OnOk result (string_bytes text.new ≡ string_bytes text.old ++ flat_map service_text ranked.now) }
{
    for counted in ranked {
        push_service(text, counted)?;
    }
    Ok(())
}

// The services, of which a version may have 256.
fn push_services(text: &mut String, ranked: &[Counted]) -> Result<(), AllocError>
    ensures { OnOk result (string_bytes text.new ≡ string_bytes text.old ++ services_text ranked.now) }
{
    if ranked.is_empty() {
        return text.push_str("services = []\n");
    }
    let most = MOST_SERVICES.min(ranked.len());
    push_all(text, &ranked[..most])
}

/// What the head of a sketch tells of a capture.
#[derive(Clone, Copy)]
pub(crate) struct SketchCounts {
    pub(crate) records: u32,
    pub(crate) destinations: usize,
    /// The destinations of more than a handful of packets.
    pub(crate) busy: usize,
}

/// The scenario to start from, with these services of a capture.
#[tactic(auto, unfolding(crate::specs::Text::sketch_text))]
pub(crate) fn sketch_text(
    alloc: Global,
    counts: SketchCounts,
    services: &[Counted],
) -> Result<String, AllocError>
    ensures { IfOk result (λ s. string_bytes s ≡ sketch_text counts services.now) }
{
    let SketchCounts {
        records,
        destinations,
        busy,
    } = counts;
    let left = services.len();
    let mut text = format!(in alloc;
        "# Destinations: {destinations}. Of more than 5 packets: {busy}. Without the other direction of these: {left}. {ORDER}\n"
    )?;
    push_head(&mut text, records)?;
    push_services(&mut text, services)?;
    Ok(text)
}
