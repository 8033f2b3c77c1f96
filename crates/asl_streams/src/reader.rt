//! How shapes are read.

use std::alloc::Global;

/// How the shapes of a record are read.
#[derive(Clone, Copy, Drop)]
pub(crate) struct Reader<'n> {
    pub(crate) alloc: Global,
    /// Whether lists of types may stand in the shapes of a certificate; in declared shapes they may.
    pub(crate) several: bool,
    /// The numbers of the shapes that references mean, where a certificate lists shapes.
    pub(crate) listed: Option<&'n [usize]>,
}
