ghost use Rattle.std.specs.Prelude.{◌≡◌};
ghost use Rattle.pool_versions.specs.Pool.{key_of_flow};

use five_tuple::Flow;

/// What distinguishes services: an IPv4 address, a protocol number and a destination port.
#[derive(Clone, Copy, Debug, PartialEq, Eq, PartialOrd, Ord, Hash)]
pub struct ServiceKey {
    pub vip: u32,
    pub proto: u8,
    pub port: u16,
}

impl ServiceKey {
    /// That of the services that a flow is of.
    pub fn of_flow(flow: &Flow) -> ServiceKey
        ensures { result ≡ key_of_flow flow.now }
    {
        ServiceKey {
            vip: flow.dst,
            proto: flow.proto,
            port: flow.dport,
        }
    }
}
