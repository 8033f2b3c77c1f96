//! What Koiplush's promises are about: the definitions that a reader has to believe, and the laws about them.
//! There is no program code here: each public function has an empty body, and its contract is a law.
//! `docs/DEFINITIONS.md` is a guide through `specs/`.
#![tactic(auto)]

pub mod inference_laws;
pub mod reading_laws;
pub mod run_laws;
pub mod shape_laws;
