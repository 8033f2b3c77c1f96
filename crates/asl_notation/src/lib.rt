//! The short notation of shapes, by which people are told what data looks like.
//!
//! [`note`] tells the shape of a number of a table, as far as its [`Limits`] reach:
//!
//! - `null`, `boolean`, `integer`, `string` are the simple kinds, `any` is every tree, `nothing` no tree.
//! - `integer | string | null` are trees of several kinds: always in the order `boolean`, `integer`, `string`, lists,
//!   objects, `null`.
//! - `[integer, string]` are the lists of just these elements, `[integer, ..string]` those in which further elements may
//!   follow, each a string. `[]` is the empty list, `[..any]` any list.
//! - `{name: string, age?: integer}` are the objects with a `name`, perhaps an `age`, and no other field; with `..` at the
//!   end there may be other fields, with anything in them. `{}` is the empty object, `{..}` any object. A field that mustn't
//!   be there is told as `age?: nothing`.
//! - A name that isn't a word (ASCII letters, digits and underscores, not beginning with a digit) stands as a JSON text.
//! - `…` stands for what isn't told, and for nothing else: `[…]` and `{…}` are a list and an object below the depth,
//!   `{name: string, …}` has more fields than the width, and `[integer, …, ..string]` more elements. So what has no `…` is
//!   told whole.
#![tactic(auto)]

mod limits;
mod names;
mod noting;
mod parts;

pub use limits::Limits;
pub use noting::note;
