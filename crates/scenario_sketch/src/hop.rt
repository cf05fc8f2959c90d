ghost use Rattle.std.specs.Prelude.{◌≡◌};
ghost use Rattle.scenario_sketch.specs.Hops.{hop_of_flow};

use five_tuple::Flow;
use pool_versions::ServiceKey;

/// Where a packet came from, and where it went to.
#[derive(Clone, Copy)]
pub(crate) struct Hop {
    pub(crate) from: ServiceKey,
    pub(crate) to: ServiceKey,
}

impl Hop {
    /// That of a flow's packets.
    pub(crate) fn of_flow(flow: &Flow) -> Hop
        ensures { result ≡ hop_of_flow flow.now }
    {
        Hop {
            from: ServiceKey {
                vip: flow.src,
                proto: flow.proto,
                port: flow.sport,
            },
            to: ServiceKey::of_flow(flow),
        }
    }
}
