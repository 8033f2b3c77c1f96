//! All that is wrong with declared shapes.
//!
//! [`complaints`] tells each rule that declared shapes break, where [`asl_records::read_declared`] tells one;
//! [`shape_faults`] each that the spelling of a shape breaks, at whatever depth.
#![tactic(auto)]

mod records;
mod shapes;

pub use records::complaints;
pub use shapes::shape_faults;
