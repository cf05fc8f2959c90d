//! The slots of flows.
ghost use Rattle.std.specs.Prelude.{◌≡◌, ◌∷◌, ◌%◌, map, length};
ghost use Rattle.five_tuple.specs.Flow.{flow_bytes};
ghost use Rattle.hash_laws.specs.Any.{plain_of};
ghost use Rattle.maglev_ffi.specs.ManySlots.{flow_of};

use backend_names::TableSize;
use five_tuple::Flow;
use hash_laws::{AnyHash, FlowHash, Fnv, Sha256Head, SumHash};

/// A flow as C has it, the `struct maglev_flow` of `maglev.h`.
#[repr(C)]
#[derive(Clone, Copy, Debug)]
pub struct MaglevFlow {
    /// The source address.
    pub src: u32,
    /// The destination address.
    pub dst: u32,
    /// The source port.
    pub sport: u16,
    /// The destination port.
    pub dport: u16,
    /// The protocol's number: 6 TCP, 17 UDP.
    pub proto: u8,
}

fn flow_of(flow: MaglevFlow) -> Flow
    ensures { result ≡ flow_of flow }
{
    Flow {
        src: flow.src,
        dst: flow.dst,
        sport: flow.sport,
        dport: flow.dport,
        proto: flow.proto,
    }
}

/// The slot of a flow in a table of a size.
pub(crate) fn slot_of<H: FlowHash>(size: TableSize, hash: &H, flow: Flow) -> u32
    ensures { result ≡ H.plain hash.now (102 ∷ flow_bytes flow) % size }
{
    (hash.hash(b'f', &flow.bytes()) % u64::from(size.slots())) as u32
}

// Writes the slot of each flow at its place.
fn write<H: FlowHash>(size: TableSize, hash: &H, flows: &[MaglevFlow], slots: &mut [u32])
    requires { length slots.old ≡ length flows.now }
    ensures { slots.new ≡ map (λ x. H.plain hash.now (102 ∷ flow_bytes (flow_of x)) % size) flows.now }
{
    for place in 0..slots.len() {
        slots[place] = slot_of(size, hash, flow_of(flows[place]));
    }
}

/// Writes the slot of each flow at its place, under a hash that is chosen while the program runs.
pub(crate) fn write_by(size: TableSize, hash: AnyHash, flows: &[MaglevFlow], slots: &mut [u32])
    requires { length slots.old ≡ length flows.now }
    ensures { slots.new ≡ map (λ x. plain_of hash (102 ∷ flow_bytes (flow_of x)) % size) flows.now }
{
    match hash {
        AnyHash::Fnv => write(size, &Fnv, flows, slots),
        AnyHash::Sha256 => write(size, &Sha256Head, flows, slots),
        AnyHash::Sum => write(size, &SumHash, flows, slots),
    }
}
