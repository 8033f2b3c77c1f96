/// Which definitions are looked at, and how it is told.
#[derive(Drop)]
pub struct LintRequest<'a> {
    /// Files and folders, at least one.
    pub names: Vec<&'a str>,
    /// The file with the declared shapes of all of them.
    pub declared: Option<&'a str>,
    pub format: LintFormat,
    /// Whether a warning weighs as much as an error.
    pub deny_warnings: bool,
}

/// How diagnostics are written.
#[derive(Clone, Copy)]
pub enum LintFormat {
    /// A line for each, for people.
    Text,
    /// A JSON list.
    Json,
    /// A log in SARIF.
    Sarif,
    /// Commands for a workflow of GitHub.
    Github,
}
