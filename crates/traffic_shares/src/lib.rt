//! What each backend and each node took of the traffic, under each version: packets, bytes and flows.
//!
//! `ShareBook` counts as a cluster's events come, and `ShareBooks` are the two that can be asked for. A packet counts under the version
//! under which it was served, which need not be the one under which its backend was chosen.
#![tactic(auto)]

mod book;
mod books;
mod flows;
mod holders;
mod laws;
mod lengths;
mod lines;
mod sends;
mod shares;

pub use book::ShareBook;
pub use books::{AskedShares, ShareBooks};
pub use holders::{Holder, ShareKey, ShareKind};
pub use laws::packets_add_up;
pub use lines::{HolderText, push_shares};
pub use shares::ShareRow;
