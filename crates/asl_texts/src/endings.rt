//! How a run of the program ends.

use crate::refusals::RunFault;
use crate::runs::RunEnd;
use asl_check::Verdict;

/// What a run of the program ends with.
#[derive(Drop)]
pub enum Closing {
    /// A verdict was written.
    Verdict(Verdict),
    /// The trace of a run was written.
    Run(RunEnd),
    /// An inferred certificate was written.
    Certificate,
    /// No certificate was inferred: some shape still changed in the last round.
    NotSettled,
    /// Something failed.
    Fault(RunFault),
}
