//! Certificates and declared shapes read from the tokens of their texts (RFC 8259), shape by shape, into a table: no tree of a whole text or of a
//! whole shape stands in memory, but those of a shape's keywords other than `properties`.
#![tactic(auto)]

mod certificates;
mod declarations;
mod entries;
mod fields;
mod outputs;
mod reader;
mod shapes;
mod spellings;
mod states;
mod unread;

pub use certificates::read_streamed;
pub use declarations::read_streamed_declared;
