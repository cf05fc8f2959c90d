use pool_versions::ServiceKey;

/// A destination, and how many packets went to it.
#[derive(Clone, Copy)]
pub(crate) struct Counted {
    pub(crate) service: ServiceKey,
    pub(crate) packets: u32,
}
