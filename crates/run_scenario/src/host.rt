//! What a run on threads has of the machine that it runs on.

/// The threads of a run, and the gate that each of its workers calls round each serving.
#[derive(Debug, Drop)]
pub struct Host<'a, R, G> {
    pub rt: &'a R,
    pub gate: &'a G,
}
