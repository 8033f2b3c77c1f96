//! The two files.

/// A file's text, with the path that is told.
#[derive(Clone, Copy, Drop)]
pub struct File<'a> {
    pub path: &'a str,
    pub text: &'a [u8],
}
