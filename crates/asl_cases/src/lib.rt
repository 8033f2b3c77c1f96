//! Test cases of machines: playing one, what differs from what it expects, and what the runs of cases cover.
//!
//! [`play`] runs a machine on the input of a case, with the case's answers; [`difference`] compares how that went with
//! what the case expects. [`mistake_in`] tells a name in a case that the machine doesn't have, and
//! [`mistake_in_answers`] one in answers alone; [`Coverage`] what no run
//! of several cases has taken.
#![tactic(auto)]

mod asking;
mod coverage;
mod covered;
mod failures;
mod judging;
mod lacking;
mod mistakes;
mod playing;
mod sequences;
mod words;

pub use coverage::Coverage;
pub use judging::difference;
pub use mistakes::{mistake_in, mistake_in_answers};
pub use playing::{End, Played, play};
