//! What comes to each state of a machine under a certificate, where from, and by which shortest way from the start.
//!
//! A certificate has, of each state, one shape that all that comes to it is inside. [`arrivals`] lists what comes each by
//! itself: at which exit of which state, and with which shape. [`visits`] follows what comes on from the machine's start,
//! each way with its own shapes and not with those that are certified, shortest first, and [`way_to`] tells the way that
//! ends in one of them.
#![tactic(auto)]

mod arriving;
mod exits;
mod leaving;
mod search;
mod visiting;
mod way;

pub use arriving::{Arrival, Origin, arrivals};
pub use exits::Exit;
pub use visiting::{Visit, visits};
pub use way::way_to;
