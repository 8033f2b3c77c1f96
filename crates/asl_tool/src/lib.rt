//! From texts to texts: what the program `asl` does, as a library.
//!
//! [`verify_texts`] checks a certificate of shapes against a state machine and its declared shapes, all three given as
//! texts. [`check_lines`] does it for three lines of a [`Source`] and writes the lines of the verdict to a [`Sink`].
//! [`infer_texts`] infers such a certificate, which breaks no rule; [`verify_inferred`] says whether there is one, and
//! [`verify_subject`] says it of texts that are read.
//! [`run_texts`] runs a state machine on an input, with answers for its tasks, and writes what happened. [`read_subject`]
//! reads a definition and declared shapes, [`read_text`] takes a whole source as one text, and [`closing`] says how a program
//! ends that did any of this.
//!
//! All but what infers is `asl_texts`, which is shown here again.
#![tactic(auto)]

mod inferring;

pub use asl_texts::{
    Closing, DefFault, DefRefusal, Failed, Finding, FindingFault, FromRead, Pick, RecordFault,
    RecordRefusal, RunEnd, RunFault, Sink, Source, Subject, TextFault, TextRefusal, ToWrite,
    Verdict, Which, activities_stay_as_certified, check_lines, closing,
    nesting_activities_stay_as_certified, read_declared_text, read_definition, read_subject,
    read_text, run_texts, verdict_text, verdicts_on_the_same_texts_agree,
    verified_runs_write_no_raise_line, verify_texts, working_activities_stay_as_certified,
};
pub use inferring::{Inferred, Verified, infer_texts, verify_inferred, verify_subject};
