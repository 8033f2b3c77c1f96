//! Paths that are found in a shape, or are doubtful there.

use asl_path::RefPath;

/// A path that may name nothing in trees of the shape of that number; `segment` is the number of the first segment where
/// that may be so, counted from 0.
#[derive(Clone, Copy, Drop)]
pub struct DoubtfulPath<'p> {
    pub path: &'p RefPath,
    pub segment: usize,
    pub shape: usize,
}

/// The number of the shape that a path names in every tree of another, or the path as a doubtful one.
pub type Found<'p> = Result<usize, DoubtfulPath<'p>>;
