//! What is told of the texts, before it has a place and a message.
ghost use Rattle.std.specs.Prelude.{◌≡◌, IfOk, IfSome, None, Some, codes, option_map, string_bytes};
ghost use Rattle.asl_check.specs.View.{finding_view};
ghost use Rattle.asl_fields.specs.View.{refusal_view};
ghost use Rattle.asl_records.specs.View.{complaint_view};
ghost use Rattle.asl_problems.specs.Told.{error, not_json, not_settled, not_whole, of_complaint, of_finding, of_record, told_by, unless_empty};

use asl_check::{Finding, FindingFault, MissingPath};
use asl_diagnostics::{
    Rule, Severity, rule_of_definition, rule_of_finding, rule_of_record, rule_of_text,
    rule_of_unsettled,
};
use asl_machine::{DefFault, DefRefusal};
use asl_records::{RecordFault, RecordRefusal};
use asl_tree::{OutOfMemory, Tree, TreeRefusal};

/// One of the two texts.
#[derive(Clone, Copy, Debug, Drop, PartialEq, Eq)]
pub enum Which {
    Definition,
    Declared,
}

/// What a problem is about, by which it gets its place and its message.
#[derive(Drop)]
pub(crate) enum Kind {
    /// The text is no JSON.
    NotJson(Which),
    /// A number of the declared shapes isn't whole.
    NotWhole,
    /// The definition breaks a rule.
    Complaint(DefFault),
    /// The declared shapes break a rule.
    Record(RecordFault),
    /// The machine breaks a rule; a path tells it, or none.
    Finding(FindingFault, Option<MissingPath>),
    /// The rounds of the inference don't settle.
    NotSettled,
    /// Something is hardly meant, as the sentence says; in an element of a list, counted from 0, or in none.
    Odd {
        index: Option<usize>,
        sentence: String,
    },
    /// The string at that byte is hardly meant; behind it is said why.
    Slip {
        which: Which,
        byte: usize,
        said: &'static str,
    },
}

/// What is wrong, or hardly meant.
#[derive(Drop)]
pub struct Problem {
    pub(crate) kind: Kind,
    pub(crate) severity: Severity,
    pub(crate) rule: &'static Rule,
    pub(crate) state: Option<String>,
    pub(crate) field: Option<String>,
    pub(crate) example: Option<Tree>,
}

impl Problem {
    /// An error about a whole text or a whole machine.
    fn whole(kind: Kind, rule: &'static Rule) -> Problem
        ensures { told_by result ≡ error rule.now.id.now None None None }
    {
        Problem {
            kind,
            severity: Severity::Error,
            rule,
            state: None,
            field: None,
            example: None,
        }
    }

    /// The text in which it stands.
    pub(crate) fn which(&self) -> Which {
        match &self.kind {
            Kind::NotJson(which) | Kind::Slip { which, .. } => *which,
            Kind::NotWhole | Kind::Record(_) | Kind::Finding(FindingFault::TaskUnknown, _) => {
                Which::Declared
            }
            Kind::Complaint(_) | Kind::Finding(_, _) | Kind::NotSettled | Kind::Odd { .. } => {
                Which::Definition
            }
        }
    }

    /// The text is no JSON.
    pub fn not_json(which: Which) -> Result<Problem, OutOfMemory>
        ensures { IfOk result (λ problem. told_by problem ≡ not_json) }
    {
        let rule = rule_of_no_json().ok_or(OutOfMemory)?;
        Ok(Problem::whole(Kind::NotJson(which), rule))
    }

    /// A number of the declared shapes isn't whole.
    pub fn not_whole() -> Result<Problem, OutOfMemory>
        ensures { IfOk result (λ problem. told_by problem ≡ not_whole) }
    {
        let rule = rule_of_not_whole().ok_or(OutOfMemory)?;
        Ok(Problem::whole(Kind::NotWhole, rule))
    }

    /// The rounds of the inference don't settle.
    pub fn not_settled() -> Problem
        ensures { told_by result ≡ not_settled }
    {
        Problem::whole(Kind::NotSettled, rule_of_unsettled())
    }

    /// A complaint of a definition. Refuses the one that there was no memory to tell.
    pub(crate) fn complaint(refusal: DefRefusal) -> Result<Problem, OutOfMemory>
        ensures { IfOk result
            (λ problem. option_map of_complaint (refusal_view refusal) ≡ Some (told_by problem)) }
    {
        let rule = rule_of_definition(refusal.fault).ok_or(OutOfMemory)?;
        Ok(Problem {
            kind: Kind::Complaint(refusal.fault),
            severity: Severity::Error,
            rule,
            state: unless_empty(refusal.state),
            field: unless_empty(refusal.field),
            example: None,
        })
    }

    /// A complaint of declared shapes. Refuses the one that there was no memory to tell.
    pub(crate) fn record(refusal: RecordRefusal) -> Result<Problem, OutOfMemory>
        ensures { IfOk result
            (λ problem. option_map of_record (complaint_view refusal) ≡ Some (told_by problem)) }
    {
        let rule = rule_of_record(&refusal.fault).ok_or(OutOfMemory)?;
        Ok(Problem {
            kind: Kind::Record(refusal.fault),
            severity: Severity::Error,
            rule,
            state: unless_empty(refusal.name),
            field: unless_empty(refusal.field),
            example: None,
        })
    }

    /// A broken rule of a machine, with the path that tells it, if one does.
    pub fn finding(finding: Finding, path: Option<MissingPath>) -> Problem
        ensures { told_by result ≡ of_finding (finding_view finding) }
    {
        Problem {
            kind: Kind::Finding(finding.fault, path),
            severity: Severity::Error,
            rule: rule_of_finding(finding.fault),
            state: Some(finding.state),
            field: Some(finding.field),
            example: finding.example,
        }
    }
}

/// The text, unless it is empty.
fn unless_empty(text: String) -> Option<String>
    ensures { option_map string_bytes result ≡ unless_empty (string_bytes text) }
{
    if text.is_empty() { None } else { Some(text) }
}

/// The rule of a text that is no JSON.
fn rule_of_no_json() -> Option<&'static Rule>
    ensures { IfSome result (λ rule. rule.now.id.now ≡ codes "NotJson") }
{
    rule_of_text(&TreeRefusal::NotJson)
}

/// The rule of a text with a number that isn't whole.
fn rule_of_not_whole() -> Option<&'static Rule>
    ensures { IfSome result (λ rule. rule.now.id.now ≡ codes "NotWhole") }
{
    rule_of_text(&TreeRefusal::NotWhole)
}
