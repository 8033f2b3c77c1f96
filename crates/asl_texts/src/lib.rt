//! From texts to verdicts and traces.
//!
//! [`verify_texts`] checks a certificate of shapes against a state machine and its declared shapes, all three given as
//! texts. [`check_lines`] does it for three lines of a [`Source`] and writes the lines of the verdict to a [`Sink`].
//! [`run_texts`] runs a state machine on an input, with answers for its tasks, and writes what happened. [`read_subject`]
//! reads a definition and declared shapes, [`read_text`] takes a whole source as one text, [`text_of_certificate`] writes a
//! certificate, and [`closing`] says how a program ends that did any of this.
#![tactic(auto)]

mod answering;
mod certificate_text;
mod chunks;
mod declared_answers;
mod endings;
mod given;
mod laws;
mod lines;
mod printing;
mod reading;
mod refusals;
mod running;
mod runs;
mod sinks;
mod sources;
mod spellings;
mod subjects;
mod texts;
mod verifying;

pub use asl_check::{Finding, FindingFault, Verdict};
pub use asl_machine::{DefFault, DefRefusal};
pub use asl_records::{RecordFault, RecordRefusal};
pub use certificate_text::text_of_certificate;
pub use endings::Closing;
pub use laws::{
    activities_stay_as_certified, nesting_activities_stay_as_certified,
    verdicts_on_the_same_texts_agree, verified_runs_write_no_raise_line,
    working_activities_stay_as_certified,
};
pub use printing::{closing, verdict_text};
pub use refusals::{RunFault, TextFault, TextRefusal, Which};
pub use running::run_texts;
pub use runs::{Pick, RunEnd};
pub use sinks::{Sink, ToWrite};
pub use sources::{Failed, FromRead, Source};
pub use subjects::{Subject, read_declared_text, read_definition, read_subject};
pub use texts::read_text;
pub use verifying::{check_lines, verify_texts};
