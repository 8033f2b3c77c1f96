//! Drafts of certificates, with their shapes by number: they grow as more flows into them.
#![tactic(auto)]

mod certificate;
mod cutting;
mod depths;
mod draft;
mod entries;
mod growing;
mod order;
mod predecessors;
mod rebuilding;
mod store;
mod targets;
mod waiting;
mod walker;

pub use draft::{Draft, Target};
pub use order::order_of;
pub use predecessors::{Inflow, Origin, Predecessors};
pub use store::Store;
pub use waiting::{Turn, Waiting};
pub use walker::Walker;
