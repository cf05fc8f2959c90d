//! What each thread of a node does in a life. The driver obeys commands, a worker serves what comes through its ring, and
//! the mux gathers what the workers send. What they share is here too: the plan, the rings, the seats at the board, and the
//! shares of the counts. `node_life` starts the workers' threads and the mux's, `node_threads` the drivers'.
#![tactic(auto)]

mod assignment;
mod driving;
mod fault;
mod gate;
mod live;
mod mux;
mod plan;
mod post;
mod promise;
mod ring;
mod tally;
mod working;

pub use assignment::Assignment;
pub use driving::{drive, stops_at};
pub use fault::{RunFault, fault_of, first_of};
pub use gate::{Gate, OpenGate};
pub use live::{Current, Stage, empty_stage, show};
pub use mux::gather;
pub use plan::{NodePlan, NodeTask, Progress};
pub use post::{Desk, Post};
pub use promise::{CountsOwn, WorkerRun};
pub use ring::{Inputs, Message, Output, PacedInputs, Serving};
pub use tally::{Part, ThreadShares};
pub use working::{Outfit, work};
