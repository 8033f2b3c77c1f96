//! What the checker answers.

use asl_state_edges::FindingFault;
use asl_tree::Tree;

/// A broken rule: the state's name, the field in which it is broken, what is wrong, and a tree that shows it.
///
/// Of a comparison (`StartInput`, `PayloadNotTaken`, `OutputNotCertified`, `NextInput`, `ScopeOutput`, `BranchInput`,
/// `CatchInput`) the example is a tree that has the shape that flows there and lacks the one that it is compared with;
/// of a path (`PathMayBeMissing`) a tree that has the shape in which the path was looked up, and in which it names
/// nothing. The findings of these eight faults have one, and those of the others have none.
#[derive(Drop)]
pub struct Finding {
    pub state: String,
    pub field: String,
    pub fault: FindingFault,
    pub example: Option<Tree>,
}

/// A path that may name nothing, as its text, which is its printed form and spells it.
///
/// The number of its first segment that may name nothing, counted from 0, and the name of the nearest field of an object
/// in a template are told as the walk through the state has them: no clause speaks of these two. Elsewhere than in a
/// template the name is empty.
#[derive(Drop)]
pub struct MissingPath {
    pub text: String,
    pub segment: usize,
    pub name: String,
}

/// A finding, and the path that may name nothing where that is what it says.
#[derive(Drop)]
pub struct Located {
    pub finding: Finding,
    pub path: Option<MissingPath>,
}

/// The checker's answer. The findings, at least one, stand in byte order of their states' names, one a name, each with
/// the example that shows it, if its fault has one.
#[derive(Drop)]
pub enum Verdict {
    /// Every rule holds.
    Yes,
    /// These rules are broken.
    No(Vec<Finding>),
}
