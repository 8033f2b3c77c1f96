//! Rules of faults that several texts have under one name.
use crate::{Rule, Severity};

pub(crate) const NOT_OBJECT: Rule = Rule {
    id: "NotObject",
    severity: Severity::Error,
    short: "An object is wanted here.",
    full: "The machine or a state, the declared shapes or a certificate as a whole, or an entry of one of these \
        two is no JSON object.",
    help: "Write an object: for the machine and for a state one with its fields, for the entry of a task one \
        with `gives` and, where it matters, `takes`, for the entry of a state in a certificate one with \
        `input` and `output`.",
};

pub(crate) const MISSING_FIELD: Rule = Rule {
    id: "MissingField",
    severity: Severity::Error,
    short: "A required field is absent.",
    full: "An object lacks a field that it must have. In a definition these are `StartAt` and `States` of the \
        machine, a branch and a processor; `Type` of a state; `Resource` of a Task, `Choices` of a Choice, \
        `Branches` of a Parallel; one of `ItemProcessor` and `Iterator` of a Map; one of `Seconds`, \
        `SecondsPath`, `Timestamp` and `TimestampPath` of a Wait; `ErrorEquals` of a retrier, `ErrorEquals` \
        and `Next` of a catcher. In declared shapes these are `input`, and `gives` of each task; in a \
        certificate `version`, `output` and `states`, and `input` and `output` of each state.",
    help: "Add the field that is named. Upper and lower case count: a field that is written otherwise counts as \
        absent.",
};

pub(crate) const UNKNOWN_FIELD: Rule = Rule {
    id: "UnknownField",
    severity: Severity::Error,
    short: "The object may not have this field.",
    full: "There is no field of that name in an object of this kind: in a definition the machine, a branch, a \
        processor, a state of this type, a retrier or a catcher; in declared shapes or a certificate the \
        whole or one of its entries. It is refused and not passed over, since a field that is misspelled \
        would be without effect.",
    help: "Correct the name (upper and lower case count), move the field to where it belongs, or remove it. In \
        a definition a remark may stand in `Comment`.",
};

pub(crate) const WRONG_KIND: Rule = Rule {
    id: "WrongKind",
    severity: Severity::Error,
    short: "A value is or may be of another kind than is wanted here.",
    full: "In a text that is refused: the value of the field is of another kind than the field wants, or a \
        whole number out of the field's range, or the field may not stand beside another one that is there \
        (as two of a Wait's times, `ItemProcessor` beside `Iterator`, `ItemSelector` beside `Parameters`). \
        Of a definition that is read: what `ItemsPath` names may be no list, what `SecondsPath` names no \
        whole number, or what `TimestampPath` names no text, in some value of the shape that it goes into.",
    help: "Where a text is refused, give the field a value of the kind that it wants, or remove one of the \
        fields that exclude each other. Where a path may name a value of another kind, name another one, \
        declare what it names more narrowly, in the machine's input or in what a task gives, or let only the \
        wanted kind come here, by a choice rule in front with `IsNumeric` or `IsString` on that path.",
};
