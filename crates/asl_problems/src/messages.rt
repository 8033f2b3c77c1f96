//! What is wrong, in a sentence without a period.
use crate::found::At;
use crate::problems::{Kind, Problem};
use asl_breaks::break_of;
use asl_check::FindingFault;
use asl_diagnostics::Rule;
use asl_faults::{
    Words, goes_into_item, isnt_path, sentence_of_kind, string_at, text_at, text_from,
};
use asl_machine::DefFault;
use asl_records::RecordFault;
use asl_tree::OutOfMemory;
use std::alloc::Global;

/// The sentence about a problem that is found at a byte of a text: the words that were found for it, or what its kind says.
pub(crate) fn message_at(
    alloc: Global,
    problem: &Problem,
    text: &[u8],
    at: At,
) -> Result<String, OutOfMemory> {
    match at.words {
        Some(Words::Said(sentence)) => Ok(sentence),
        Some(Words::OfText(isnt)) => {
            about_string(alloc, problem.rule, text_from(text, at.byte), isnt)
        }
        None => message_of(alloc, problem, text, at.byte),
    }
}

/// The sentence about a problem of its kind that stands at a byte of a text.
fn message_of(
    alloc: Global,
    problem: &Problem,
    text: &[u8],
    offset: usize,
) -> Result<String, OutOfMemory> {
    let field = field_of(problem);
    match &problem.kind {
        Kind::NotJson(_) => break_of(alloc, text)?.words(alloc, text),
        Kind::Complaint(fault) => about_complaint(alloc, *fault, problem, text_from(text, offset)),
        Kind::Record(RecordFault::MissingField) => about_absence(alloc, field),
        Kind::Record(RecordFault::UnknownField) => about_unknown(alloc, field),
        Kind::Record(RecordFault::WrongKind) => about_wrong_kind(alloc, problem.rule, field),
        Kind::Finding(FindingFault::WrongKind, _) => about_kind(alloc, field),
        Kind::Finding(FindingFault::PathMayBeMissing, Some(path)) => {
            about_missing(alloc, &path.text, text_from(text, offset))
        }
        Kind::Odd { sentence, .. } => Ok(sentence.clone()?),
        Kind::Slip { said, .. } => {
            about_string(alloc, problem.rule, text_from(text, offset), said)
        }
        Kind::NotWhole | Kind::NotSettled | Kind::Record(_) | Kind::Finding(_, _) => {
            general(alloc, problem.rule)
        }
    }
}

/// The name of the field, empty where there is none.
fn field_of(problem: &Problem) -> &str {
    match &problem.field {
        Some(field) => field,
        None => "",
    }
}

/// A text of its own.
fn sentence(alloc: Global, text: &str) -> Result<String, OutOfMemory> {
    Ok(String::from_str(alloc, text)?)
}

/// What the rule says.
fn general(alloc: Global, rule: &Rule) -> Result<String, OutOfMemory> {
    sentence(alloc, without_period(rule.short))
}

/// The sentence without its period.
fn without_period(text: &str) -> &str {
    text.strip_suffix(".").unwrap_or(text)
}

/// About a complaint of a definition, at whose place the text goes on so.
fn about_complaint(
    alloc: Global,
    fault: DefFault,
    problem: &Problem,
    text: &[u8],
) -> Result<String, OutOfMemory> {
    let field = field_of(problem);
    match fault {
        DefFault::MissingField => about_absence_in_definition(alloc, field),
        DefFault::UnknownField => about_unknown(alloc, field),
        DefFault::LeftOut => about_left_out(alloc, field),
        DefFault::NoSuchState => about_string(
            alloc,
            problem.rule,
            text,
            "is the name of no state of this scope",
        ),
        DefFault::UnknownType => about_string(alloc, problem.rule, text, "is no type of state"),
        DefFault::BadPath => about_path(alloc, problem.rule, text),
        DefFault::WrongKind => about_wrong_kind(alloc, problem.rule, field),
        _ => general(alloc, problem.rule),
    }
}

/// About a path that isn't read, with which the text goes on.
fn about_path(alloc: Global, rule: &Rule, text: &[u8]) -> Result<String, OutOfMemory> {
    match text_at(alloc, text)? {
        Some(said) => about_string(alloc, rule, text, isnt_path(alloc, &said)?),
        None => general(alloc, rule),
    }
}

/// About a value that isn't what its field wants.
fn about_wrong_kind(alloc: Global, rule: &Rule, field: &str) -> Result<String, OutOfMemory> {
    match sentence_of_kind(alloc, field)? {
        Some(sentence) => Ok(sentence),
        None => general(alloc, rule),
    }
}

/// About a field that is required and absent.
fn about_absence(alloc: Global, field: &str) -> Result<String, OutOfMemory> {
    Ok(format!(in alloc; "The field `{field}` is required, and it is absent")?)
}

/// About a field that an object of a definition lacks. Of a field that one alone of several has to be, or that a retrier or a
/// catcher has to have, that is said.
fn about_absence_in_definition(alloc: Global, field: &str) -> Result<String, OutOfMemory> {
    match field {
        "Seconds" => sentence(
            alloc,
            "One of the fields `Seconds`, `SecondsPath`, `Timestamp` and `TimestampPath` is required, and none is there",
        ),
        "ItemProcessor" => sentence(
            alloc,
            "One of the fields `ItemProcessor` and `Iterator` is required, and none is there",
        ),
        "Next" => sentence(
            alloc,
            "The field `Next` of a catcher is required, and it is absent",
        ),
        "ErrorEquals" => sentence(
            alloc,
            "The field `ErrorEquals` of a retrier or a catcher is required, and it is absent",
        ),
        _ => about_absence(alloc, field),
    }
}

/// About a field that an object may not have.
fn about_unknown(alloc: Global, field: &str) -> Result<String, OutOfMemory> {
    Ok(format!(in alloc; "The object may not have a field `{field}`")?)
}

/// About a field of a part of the language that isn't read.
fn about_left_out(alloc: Global, field: &str) -> Result<String, OutOfMemory> {
    Ok(format!(in alloc;
        "What `{field}` says isn't read: it belongs to a part of the States Language that is left out"
    )?)
}

/// About a path that may name nothing, where the text goes on with it, or with a call in which it stands: a path into the
/// item of a Map is told as one.
fn about_missing(alloc: Global, path: &str, text: &[u8]) -> Result<String, OutOfMemory> {
    let is_of_item = match text_at(alloc, text)? {
        Some(said) => goes_into_item(alloc, &said, path)?,
        None => false,
    };
    match path.strip_prefix("$") {
        Some(part) if is_of_item => {
            Ok(format!(in alloc; "$$.Map.Item.Value{part} may name nothing")?)
        }
        _ => Ok(format!(in alloc; "{path} may name nothing")?),
    }
}

/// About a string with which the text goes on, and what it isn't; or what the rule says, where it goes on otherwise.
fn about_string(
    alloc: Global,
    rule: &Rule,
    text: &[u8],
    isnt: &str,
) -> Result<String, OutOfMemory> {
    match about_text(alloc, text, isnt)? {
        Some(sentence) => Ok(sentence),
        None => general(alloc, rule),
    }
}

/// About a string with which the text goes on, and what it isn't; none where it goes on otherwise.
pub(crate) fn about_text(
    alloc: Global,
    text: &[u8],
    isnt: &str,
) -> Result<Option<String>, OutOfMemory> {
    match shown_at(alloc, text)? {
        Some(shown) => Ok(Some(format!(in alloc; "{shown} {isnt}")?)),
        None => Ok(None),
    }
}

/// The string with which the text goes on, as it is shown; none where it goes on otherwise.
pub(crate) fn shown_at(alloc: Global, text: &[u8]) -> Result<Option<String>, OutOfMemory> {
    match string_at(text).and_then(|string| str::from_utf8(string).ok()) {
        Some(string) => Ok(Some(shortened(alloc, string)?)),
        None => Ok(None),
    }
}

/// How many characters of a string are told.
const MOST_CHARACTERS: usize = 60;

/// The string with its quotes, cut where it has more characters than are told.
fn shortened(alloc: Global, string: &str) -> Result<String, OutOfMemory> {
    if string.chars().nth(MOST_CHARACTERS + 2).is_none() {
        return sentence(alloc, string);
    }
    let mut shown = String::new(alloc);
    for character in string.chars().take(MOST_CHARACTERS + 1) {
        shown.push(character)?;
    }
    shown.push_str("\"..")?;
    Ok(shown)
}

/// About a path to a value of another kind.
fn about_kind(alloc: Global, field: &str) -> Result<String, OutOfMemory> {
    let words = match field {
        "ItemsPath" => "What the path names may be no list",
        "SecondsPath" => "What the path names may be no whole number",
        "TimestampPath" => "What the path names may be no text",
        _ => "What the path names may be of another kind than is wanted here",
    };
    sentence(alloc, words)
}
