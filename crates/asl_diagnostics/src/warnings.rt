//! Rules of warnings: what is no fault of a machine, and is hardly meant.
ghost use Rattle.std.specs.Prelude.{◌≡◌, codes};
ghost use Rattle.asl_diagnostics.specs.Rules.{warning_name};

use crate::{Rule, Severity};

/// What is hardly meant.
#[derive(Clone, Copy, Debug, PartialEq, Eq)]
pub enum Warning {
    /// No way from the start leads to a state.
    UnreachableState,
    /// A way leads to a state, and no data comes along it.
    NoDataReaches,
    /// A catcher takes no error.
    CatcherNeverTaken,
    /// A retrier takes no error.
    RetrierNeverTaken,
    /// A choice rule leads on with no data.
    RuleNeverTrue,
    /// A `Default` is led to with no data.
    DefaultNeverTaken,
}

const UNREACHABLE_STATE: Rule = Rule {
    id: "UnreachableState",
    severity: Severity::Warning,
    short: "No way from the start leads to this state.",
    full: "No run enters this state: nothing that can be reached from `StartAt`, by `Next`, `Default`, choice \
        rules and catchers, leads to it.",
    help: "Lead to the state, or remove it.",
};

const NO_DATA_REACHES: Rule = Rule {
    id: "NoDataReaches",
    severity: Severity::Warning,
    short: "No data reaches this state.",
    full: "A way leads to this state, but by the declared shapes no data comes along it: a choice rule on the \
        way can't be true, or a task on it gives no value. Of a state behind an error that may stop data it \
        isn't told.",
    help: "See whether a rule asks for what never comes, or whether shapes are declared more narrowly than the \
        data is. What is meant to be so can be removed.",
};

const CATCHER_NEVER_TAKEN: Rule = Rule {
    id: "CatcherNeverTaken",
    severity: Severity::Warning,
    short: "A catcher is never taken.",
    full: "Each error that this catcher names is taken by a catcher in front of it, or is never raised here.",
    help: "Correct the names in its `ErrorEquals`, move it in front of the other one, or remove it.",
};

const RETRIER_NEVER_TAKEN: Rule = Rule {
    id: "RetrierNeverTaken",
    severity: Severity::Warning,
    short: "A retrier is never taken.",
    full: "Each error that this retrier names is taken by a retrier in front of it, or is never raised here.",
    help: "Correct the names in its `ErrorEquals`, move it in front of the other one, or remove it.",
};

const RULE_NEVER_TRUE: Rule = Rule {
    id: "RuleNeverTrue",
    severity: Severity::Warning,
    short: "A choice rule never leads on.",
    full: "By the declared shapes the rule is true for no data that comes to this state, or for such data only \
        as a rule in front of it takes.",
    help: "Correct the rule's path or value, see whether shapes are declared more narrowly than the data is, or \
        remove the rule.",
};

const DEFAULT_NEVER_TAKEN: Rule = Rule {
    id: "DefaultNeverTaken",
    severity: Severity::Warning,
    short: "The `Default` is never taken.",
    full: "By the declared shapes one of the rules is true for all data that comes to this state.",
    help: "Remove the `Default`, or keep it for data that isn't as declared.",
};

const REPEATED_NAME: Rule = Rule {
    id: "RepeatedName",
    severity: Severity::Warning,
    short: "A name stands again further on in its object.",
    full: "The object has another member of this name further on. Of members of one name the last counts, so this \
        one doesn't, with all that stands in it: of two states of one name the first is none.",
    help: "Remove one of the two, or give it a name of its own.",
};

const PATH_AS_TEXT: Rule = Rule {
    id: "PathAsText",
    severity: Severity::Warning,
    short: "A text that reads as a path or a call stands for itself.",
    full: "In a template a text is a path or a call only as the value of a field whose name ends in `.$`. This one stands \
        elsewhere, so it is handed on letter by letter.",
    help: "Let the name of the field end in `.$`. For a list of values write a call, as `\"names.$\": \"States.Array($.first, \
        $.last)\"`.",
};

const UNKNOWN_ERROR: Rule = Rule {
    id: "UnknownError",
    severity: Severity::Warning,
    short: "The States Language has no error of this name.",
    full: "The States Language keeps the names that begin with `States.` for its own errors, and this is none of them. \
        Upper and lower case count.",
    help: "Correct the name, as to `States.ALL` or `States.Timeout`, or give an error of your own a name that begins \
        otherwise.",
};

/// The rule of a text that reads as a path or a call, and stands for itself.
pub fn rule_of_path_as_text() -> &'static Rule
    ensures { result.now.id.now ≡ codes "PathAsText" }
{
    &PATH_AS_TEXT
}

/// The rule of a name of an error that the language would have, and has not.
pub fn rule_of_unknown_error() -> &'static Rule
    ensures { result.now.id.now ≡ codes "UnknownError" }
{
    &UNKNOWN_ERROR
}

/// The rule of a name that stands again in its object.
pub fn rule_of_repeated_name() -> &'static Rule
    ensures { result.now.id.now ≡ codes "RepeatedName" }
{
    &REPEATED_NAME
}

/// The rule of a warning.
pub fn rule_of_warning(warning: Warning) -> &'static Rule
    ensures { result.now.id.now ≡ warning_name warning }
{
    match warning {
        Warning::UnreachableState => &UNREACHABLE_STATE,
        Warning::NoDataReaches => &NO_DATA_REACHES,
        Warning::CatcherNeverTaken => &CATCHER_NEVER_TAKEN,
        Warning::RetrierNeverTaken => &RETRIER_NEVER_TAKEN,
        Warning::RuleNeverTrue => &RULE_NEVER_TRUE,
        Warning::DefaultNeverTaken => &DEFAULT_NEVER_TAKEN,
    }
}
