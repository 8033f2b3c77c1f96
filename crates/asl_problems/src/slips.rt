//! Strings that are hardly meant, each at its byte of a text.
ghost use Rattle.std.specs.Prelude.{◌≡◌, OnOk, IfOk};
ghost use Rattle.asl_diagnostics.specs.declared.Severity.{Severity};
ghost use Rattle.asl_problems.specs.Told.{errors_of};

use crate::problems::{Kind, Problem, Which};
use asl_diagnostics::{Rule, Severity};
use asl_tree::OutOfMemory;
use std::alloc::Global;

/// A string that is hardly meant.
#[derive(Clone, Copy, Drop)]
pub(crate) struct Slip<'a> {
    pub(crate) which: Which,
    /// The byte at which it stands.
    pub(crate) byte: usize,
    pub(crate) rule: &'static Rule,
    /// What is said of it, behind the string itself.
    pub(crate) said: &'static str,
    /// The state in which it stands, and that one's field, where it stands in one.
    pub(crate) state: Option<&'a str>,
    pub(crate) field: Option<&'static str>,
}

impl Slip<'_> {
    /// The slip as a problem.
    fn problem(&self, alloc: Global) -> Result<Problem, OutOfMemory>
        ensures { IfOk result (λ problem. problem.severity ≡ Severity.Warning) }
    {
        let state = copied(alloc, self.state)?;
        let field = copied(alloc, self.field)?;
        Ok(Problem {
            kind: Kind::Slip {
                which: self.which,
                byte: self.byte,
                said: self.said,
            },
            severity: Severity::Warning,
            rule: self.rule,
            state,
            field,
            example: None,
        })
    }
}

/// A text of its own, where there is one.
fn copied(alloc: Global, text: Option<&str>) -> Result<Option<String>, OutOfMemory> {
    match text {
        Some(text) => Ok(Some(String::from_str(alloc, text)?)),
        None => Ok(None),
    }
}

/// Adds a problem for each of the slips.
pub(crate) fn add_each(
    alloc: Global,
    problems: &mut Vec<Problem>,
    slips: &[Slip<'_>],
) -> Result<(), OutOfMemory>
    ensures { OnOk result (errors_of problems.new.items ≡ errors_of problems.old.items) }
{
    for slip in slips {
        let problem = slip.problem(alloc)?;
        problems.push(problem)?;
    }
    Ok(())
}
