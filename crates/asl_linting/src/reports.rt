//! What a run of the command `lint` tells: diagnostics, lines for standard error, and an exit status.

use asl_diagnostics::{
    Diagnostic, Severity, github_lines, json_text, sarif_text, sort, text_lines,
};
use asl_files::{LintFormat, Look, look_of, with_break};
use asl_lint::{File, Linted};
use asl_tree::{OutOfMemory, in_line};
use std::alloc::Global;

/// What was found so far.
#[derive(Drop)]
pub(crate) struct Report {
    diagnostics: Vec<Diagnostic>,
    /// How many definitions were checked.
    checked: usize,
    /// The definitions without declared shapes.
    undeclared: Vec<String>,
    /// Lines for standard error, on what couldn't be looked at and on what seems to be no definition.
    notes: String,
    /// How many these are.
    unread: usize,
    /// Whether a file couldn't be read, or is no JSON.
    is_partial: bool,
}

/// What the program writes of a report, and its exit status.
#[derive(Drop)]
pub(crate) struct Printout {
    /// What goes to standard output.
    pub(crate) output: String,
    /// What goes to standard error in front of it.
    pub(crate) notes: String,
    /// What goes to standard error behind it.
    pub(crate) counts: String,
    pub(crate) status: u8,
}

/// How many diagnostics there are of each severity.
#[derive(Clone, Copy)]
struct Counts {
    errors: usize,
    warnings: usize,
}

impl Report {
    /// A report of nothing.
    pub(crate) fn new(alloc: Global) -> Report {
        Report {
            diagnostics: Vec::new(alloc),
            checked: 0,
            undeclared: Vec::new(alloc),
            notes: String::new(alloc),
            unread: 0,
            is_partial: false,
        }
    }

    /// Takes what was found in a definition.
    pub(crate) fn add_checked(
        &mut self,
        alloc: Global,
        definition: File<'_>,
        linted: Linted,
    ) -> Result<(), OutOfMemory> {
        self.checked = self.checked.saturating_add(1);
        self.is_partial |= !linted.is_read;
        if lacks_start(&linted.diagnostics) && seems_declared(alloc, definition.text)? {
            self.note(
                definition.path,
                "it has the fields of declared shapes; they are given by --declared",
            )?;
        }
        for diagnostic in linted.diagnostics {
            self.diagnostics.push(diagnostic)?;
        }
        Ok(())
    }

    /// Takes a definition without declared shapes.
    pub(crate) fn add_undeclared(&mut self, path: &str) -> Result<(), OutOfMemory> {
        let alloc = *self.undeclared.allocator();
        self.undeclared.push(String::from_str(alloc, path)?)?;
        Ok(())
    }

    /// Takes the path of a file or folder that couldn't be looked at, and why.
    pub(crate) fn add_unread(&mut self, path: &str, why: &str) -> Result<(), OutOfMemory> {
        self.is_partial = true;
        self.unread = self.unread.saturating_add(1);
        self.note(path, why)
    }

    /// Puts a line for standard error down that says that of a path.
    fn note(&mut self, path: &str, what: &str) -> Result<(), OutOfMemory> {
        let alloc = *self.undeclared.allocator();
        let path = in_line(alloc, path)?;
        write!(self.notes, "{path}: {what}\n")?;
        Ok(())
    }

    /// How many files and folders couldn't be looked at.
    pub(crate) fn unread(&self) -> usize {
        self.unread
    }

    /// What is written of the report, the diagnostics of all definitions in one order. What is said twice at a place, as of
    /// shapes that are declared for two definitions, is told once.
    pub(crate) fn told(
        self,
        alloc: Global,
        format: LintFormat,
        deny_warnings: bool,
    ) -> Result<Printout, OutOfMemory> {
        let diagnostics = in_order(alloc, self.diagnostics)?;
        let counts = Counts::of(&diagnostics);
        let mut notes = self.notes;
        push_yaml(alloc, &mut notes, &diagnostics)?;
        push_undeclared(alloc, &mut notes, &self.undeclared)?;
        Ok(Printout {
            output: written(alloc, &diagnostics, format)?,
            notes,
            counts: counts.line(alloc, self.checked)?,
            status: counts.status(self.is_partial, deny_warnings),
        })
    }
}

impl Counts {
    /// The counts of diagnostics.
    fn of(diagnostics: &[Diagnostic]) -> Counts {
        let errors = diagnostics
            .iter()
            .filter(|it| it.severity == Severity::Error)
            .count();
        Counts {
            errors,
            warnings: diagnostics.len().saturating_sub(errors),
        }
    }

    /// The last line on standard error, with its break.
    fn line(&self, alloc: Global, checked: usize) -> Result<String, OutOfMemory> {
        let errors = counted(alloc, self.errors, "error")?;
        let warnings = counted(alloc, self.warnings, "warning")?;
        let definitions = counted(alloc, checked, "definition")?;
        Ok(format!(in alloc; "{errors}, {warnings} in {definitions}\n")?)
    }

    /// The exit status: 2 where something couldn't be read, 1 where there is an error, or a warning that weighs as much.
    fn status(&self, is_partial: bool, deny_warnings: bool) -> u8 {
        if is_partial {
            2
        } else if self.errors > 0 || (deny_warnings && self.warnings > 0) {
            1
        } else {
            0
        }
    }
}

/// Whether it is told that a whole machine lacks its start.
fn lacks_start(diagnostics: &[Diagnostic]) -> bool {
    diagnostics.iter().any(|it| it.rule.id == "MissingField"
        && it.state.is_none()
        && it.field.as_deref() == Some("StartAt"))
}

/// Whether a text has the fields of declared shapes, and none of a definition.
fn seems_declared(alloc: Global, text: &[u8]) -> Result<bool, OutOfMemory> {
    match look_of(alloc, text)? {
        Some(Look::Declared) => Ok(true),
        Some(Look::Definition | Look::Certificate) | None => Ok(false),
    }
}

/// A number and what is counted, in the plural where it isn't one.
fn counted(alloc: Global, count: usize, what: &str) -> Result<String, OutOfMemory> {
    let ending = if count == 1 { "" } else { "s" };
    Ok(format!(in alloc; "{count} {what}{ending}")?)
}

/// Puts a line behind the text for each file that is no JSON and has a name of YAML.
fn push_yaml(
    alloc: Global,
    text: &mut String,
    diagnostics: &[Diagnostic],
) -> Result<(), OutOfMemory> {
    for diagnostic in diagnostics {
        if is_yaml(diagnostic) {
            let path = in_line(alloc, &diagnostic.file)?;
            write!(text, "{path}: YAML isn't read: make JSON of it first\n")?;
        }
    }
    Ok(())
}

/// Whether the diagnostic is of a file that is no JSON and has a name of YAML.
fn is_yaml(diagnostic: &Diagnostic) -> bool {
    diagnostic.rule.id == "NotJson"
        && (diagnostic.file.ends_with(".yaml") || diagnostic.file.ends_with(".yml"))
}

/// Puts the line on definitions without declared shapes behind the text, where there are any.
fn push_undeclared(alloc: Global, text: &mut String, paths: &[String]) -> Result<(), OutOfMemory> {
    match paths {
        [] => {}
        [path] => {
            let path = in_line(alloc, path)?;
            write!(
                text,
                "{path}: no shapes are declared for it, so its structure alone is checked\n"
            )?;
        }
        _ => {
            let count = paths.len();
            write!(
                text,
                "{count} definitions have no declared shapes, so their structure alone is checked\n"
            )?;
        }
    }
    Ok(())
}

/// The diagnostics in one order, each once.
fn in_order(alloc: Global, diagnostics: Vec<Diagnostic>) -> Result<Vec<Diagnostic>, OutOfMemory> {
    let mut diagnostics = diagnostics;
    sort(&mut diagnostics)?;
    without_repeats(alloc, diagnostics)
}

/// The diagnostics, without those that say at one place what one before says there.
fn without_repeats(
    alloc: Global,
    diagnostics: Vec<Diagnostic>,
) -> Result<Vec<Diagnostic>, OutOfMemory> {
    let mut kept = Vec::with_capacity(alloc, diagnostics.len())?;
    for diagnostic in diagnostics {
        if !is_repeated(&kept, &diagnostic) {
            kept.push(diagnostic)?;
        }
    }
    Ok(kept)
}

/// Whether one of those at the same place, which stand last, says the same.
fn is_repeated(kept: &[Diagnostic], diagnostic: &Diagnostic) -> bool {
    kept.iter()
        .rev()
        .take_while(|it| it.place == diagnostic.place && it.file == diagnostic.file)
        .any(|it| says_the_same(it, diagnostic))
}

/// Whether two diagnostics at one place say the same, perhaps with another example: a rule that a Choice breaks by a field of
/// its own, such as `OutputPath`, is broken at each way out of it.
fn says_the_same(one: &Diagnostic, other: &Diagnostic) -> bool {
    one.rule.id == other.rule.id
        && one.state == other.state
        && one.field == other.field
        && one.message == other.message
}

/// The diagnostics in a format, as they go to standard output.
fn written(
    alloc: Global,
    diagnostics: &[Diagnostic],
    format: LintFormat,
) -> Result<String, OutOfMemory> {
    match format {
        LintFormat::Text => text_lines(alloc, diagnostics),
        LintFormat::Json => with_break(json_text(alloc, diagnostics)?),
        LintFormat::Sarif => with_break(sarif_text(alloc, diagnostics)?),
        LintFormat::Github => github_lines(alloc, diagnostics),
    }
}
