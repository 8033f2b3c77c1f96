//! Rules of texts that are refused as definitions, or as JSON.
ghost use Rattle.std.specs.Prelude.{◌≡◌, [], option_map};
ghost use Rattle.asl_fields.specs.View.{def_fault_view};
ghost use Rattle.asl_model.specs.Printed.{definition_fault_name, refusal_line, refusal_text};
ghost use Rattle.asl_model.specs.Texts.{Which};
ghost use Rattle.asl_diagnostics.specs.Rules.{text_fault};

use crate::shared_rules::{MISSING_FIELD, NOT_OBJECT, UNKNOWN_FIELD, WRONG_KIND};
use crate::{Rule, Severity};
use asl_machine::DefFault;
use asl_tree::TreeRefusal;

const NOT_JSON: Rule = Rule {
    id: "NotJson",
    severity: Severity::Error,
    short: "The text is no JSON.",
    full: "The text isn't one JSON value in UTF-8 (RFC 8259), or arrays and objects nest deeper than 127 levels \
        in it. A number that is too large for any reader, as 1e309, makes it no JSON, too.",
    help: "Look at the place that is told and just before it: often a comma, a colon, a quote or a closing \
        bracket is missing, or a comma stands behind the last element. Comments, single quotes and a byte \
        order mark are no JSON; a text in YAML has to be converted first.",
};

const NOT_WHOLE: Rule = Rule {
    id: "NotWhole",
    severity: Severity::Error,
    short: "A number isn't a whole number of 64 bits.",
    full: "A number has a fraction or an exponent, or lies outside of -9223372036854775808 to \
        9223372036854775807. The spelling counts: 1.0, 1e3 and -0 aren't whole. In a definition \
        `BackoffRate` alone may be any number.",
    help: "Write the number without fraction and exponent and within that range; in data it may be given as a \
        text.",
};

const LEFT_OUT: Rule = Rule {
    id: "LeftOut",
    severity: Severity::Error,
    short: "This part of the States Language isn't read.",
    full: "The field, or the query language, belongs to a part of the States Language that is left out: JSONata \
        with its fields, variables (`Assign`), `ErrorPath` and `CausePath`, `Credentials`, times and limits \
        as paths, tolerated failures, and a Map's readers, batches, writers and `Label`. It is refused, \
        since what it does to the data isn't known here.",
    help: "Say the same by what is read, where that is possible: `Parameters`, `ResultSelector`, `ResultPath` \
        and `OutputPath` with JSONPath, numbers in place of paths to times and limits, `Error` and `Cause` \
        as texts. Otherwise this definition can't be checked.",
};

const UNKNOWN_TYPE: Rule = Rule {
    id: "UnknownType",
    severity: Severity::Error,
    short: "There is no such type of state.",
    full: "`Type` is none of Pass, Task, Choice, Wait, Succeed, Fail, Parallel and Map. Upper and lower case \
        count.",
    help: "Correct the `Type`.",
};

const NAME_TOO_LONG: Rule = Rule {
    id: "NameTooLong",
    severity: Severity::Error,
    short: "A state's name is too long.",
    full: "The name of the state has more than 80 Unicode characters.",
    help: "Give the state a shorter name, also where `StartAt`, `Next` or `Default` names it. What doesn't fit \
        can stand in its `Comment`.",
};

const DUPLICATE_NAME: Rule = Rule {
    id: "DuplicateName",
    severity: Severity::Error,
    short: "Two states have the same name.",
    full: "Two scopes have a state of that name. The machine, each branch of a Parallel and the processor of \
        each Map are scopes, and the states of all of them must have different names.",
    help: "Rename one of the two, also where `StartAt`, `Next` or `Default` of its scope names it; where it is \
        a Task, also in the declared shapes.",
};

const NO_SUCH_STATE: Rule = Rule {
    id: "NoSuchState",
    severity: Severity::Error,
    short: "A name is that of no state of this scope.",
    full: "`StartAt`, `Default`, or the `Next` of a state, a choice rule or a catcher names no state of its own \
        scope. The machine, each branch of a Parallel and the processor of each Map are scopes: no state of \
        another scope can be named, neither of one outside nor of one inside.",
    help: "Correct the name (spaces and case count), or add the state to `States` of the same scope. What \
        follows on a branch or on an item is said by the `Next` of the Parallel or of the Map.",
};

const NEXT_OR_END: Rule = Rule {
    id: "NextOrEnd",
    severity: Severity::Error,
    short: "A state has not exactly one of `Next` and \"End\": true.",
    full: "A state of this type needs either `Next` or \"End\": true, and it has both or neither. \"End\": \
        false counts as absent.",
    help: "Add `Next` with the name of the state that follows, or \"End\": true where the machine, the branch \
        or the item ends with this state; or remove one of the two.",
};

const BAD_PATH: Rule = Rule {
    id: "BadPath",
    severity: Severity::Error,
    short: "A text is no reference path.",
    full: "A reference path is `$`, followed by names, as in `$.order.id` or `$['order id']`, and by indices, \
        as in `$.items[0]`. Paths that may name several values (with `*`, `..`, filters or slices) and paths \
        into the context object (`$$`) are none.",
    help: "Begin the path with `$`, quote a name that has other characters than letters, digits and `_`, write \
        an index without leading zeros, and name one value.",
};

const BAD_TEMPLATE: Rule = Rule {
    id: "BadTemplate",
    severity: Severity::Error,
    short: "A value is no payload template.",
    full: "`Parameters`, `ItemSelector` or `ResultSelector` is no object, or at some depth of it: the value of \
        a field whose name ends in `.$` is neither a reference path nor a call of `States.Array`, \
        `States.ArrayLength` or `States.Format`; it goes into the context object elsewhere than to a Map's \
        item in that Map's `ItemSelector`; or two fields of one object have the same name without `.$`.",
    help: "Make the value of each field whose name ends in `.$` a text with a path or a call, and take `.$` \
        from the names of the other fields. Other intrinsic functions aren't read: let a Task compute their \
        value.",
};

const BAD_RULE: Rule = Rule {
    id: "BadRule",
    severity: Severity::Error,
    short: "A value is no choice rule.",
    full: "A choice rule has `Next` and either `Variable`, a reference path, with exactly one operator, or \
        exactly one of `And` and `Or`, with a list of rules that isn't empty, and `Not`, with a rule; rules \
        within a rule have no `Next`. The operators are `IsPresent`, `IsNull`, `IsBoolean`, `IsNumeric`, \
        `IsString`, `BooleanEquals`, `StringMatches`, and comparisons of texts and of whole numbers, also \
        with a path as their value. Comparisons of timestamps are left out.",
    help: "Give the rule one operator with a value of its kind; put several tests of one rule into `And` or \
        `Or`, each with its own `Variable`. In `StringMatches` a backslash stands only before `*` or a \
        backslash.",
};

const BAD_ERROR_EQUALS: Rule = Rule {
    id: "BadErrorEquals",
    severity: Severity::Error,
    short: "`States.ALL` doesn't stand alone and last.",
    full: "`States.ALL` takes every error. So it must be the only name in its `ErrorEquals`, and its retrier or \
        catcher the last of the list.",
    help: "Move the retrier or catcher with `States.ALL` to the end of its list, and take the other names out \
        of its `ErrorEquals`.",
};

const EMPTY_LIST: Rule = Rule {
    id: "EmptyList",
    severity: Severity::Error,
    short: "A list that needs an element is empty.",
    full: "`Choices`, `Branches` or `ErrorEquals` is an empty list.",
    help: "Add an element; or remove the retrier or catcher that has no error names, or the state that has no \
        rules or branches.",
};

const HEARTBEAT_NOT_SMALLER: Rule = Rule {
    id: "HeartbeatNotSmaller",
    severity: Severity::Error,
    short: "The heartbeat isn't shorter than the timeout.",
    full: "`HeartbeatSeconds` isn't smaller than `TimeoutSeconds`, and so could never take effect.",
    help: "Make `HeartbeatSeconds` smaller, `TimeoutSeconds` larger, or remove one of them.",
};

const TOO_LARGE: Rule = Rule {
    id: "TooLarge",
    severity: Severity::Error,
    short: "The machine has too many states.",
    full: "The machine has more than 10,000 states, those of branches and processors counted.",
    help: "Divide the machine into several, of which one starts another by a Task.",
};

/// The rule of a text that is no JSON, or has a number that isn't whole; want of memory has none.
pub fn rule_of_text(refusal: &TreeRefusal) -> Option<&'static Rule>
    ensures { (which : Which) → option_map (λ rule. refusal_text which rule.now.id.now []) result
        ≡ option_map (refusal_line which) (text_fault refusal.now) }
{
    match refusal {
        TreeRefusal::NotJson => Some(&NOT_JSON),
        TreeRefusal::NotWhole => Some(&NOT_WHOLE),
        TreeRefusal::OutOfMemory => None,
    }
}

/// The rule of a fault of a definition; want of memory has none.
pub fn rule_of_definition(fault: DefFault) -> Option<&'static Rule>
    ensures { option_map (λ rule. rule.now.id.now) result
        ≡ option_map definition_fault_name (def_fault_view fault) }
{
    match fault {
        DefFault::NotObject => Some(&NOT_OBJECT),
        DefFault::MissingField => Some(&MISSING_FIELD),
        DefFault::WrongKind => Some(&WRONG_KIND),
        DefFault::UnknownField => Some(&UNKNOWN_FIELD),
        DefFault::LeftOut => Some(&LEFT_OUT),
        DefFault::UnknownType => Some(&UNKNOWN_TYPE),
        DefFault::NameTooLong => Some(&NAME_TOO_LONG),
        DefFault::DuplicateName => Some(&DUPLICATE_NAME),
        DefFault::NoSuchState => Some(&NO_SUCH_STATE),
        DefFault::NextOrEnd => Some(&NEXT_OR_END),
        DefFault::BadPath => Some(&BAD_PATH),
        DefFault::BadTemplate => Some(&BAD_TEMPLATE),
        DefFault::BadRule => Some(&BAD_RULE),
        DefFault::BadErrorEquals => Some(&BAD_ERROR_EQUALS),
        DefFault::EmptyList => Some(&EMPTY_LIST),
        DefFault::HeartbeatNotSmaller => Some(&HEARTBEAT_NOT_SMALLER),
        DefFault::TooLarge => Some(&TOO_LARGE),
        DefFault::OutOfMemory => None,
        DefFault::NotWhole => Some(&NOT_WHOLE),
    }
}
