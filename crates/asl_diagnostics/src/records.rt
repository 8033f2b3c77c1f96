//! Rules of declared shapes and certificates that are refused.
ghost use Rattle.std.specs.Prelude.{◌≡◌, option_map};
ghost use Rattle.asl_model.specs.Printed.{record_fault_name};
ghost use Rattle.asl_model.specs.Records.{BadShape};
ghost use Rattle.asl_records.specs.View.{record_fault_view};
ghost use Rattle.asl_shape.specs.Refusal.{fault_named};

use crate::shared_rules::{MISSING_FIELD, NOT_OBJECT, UNKNOWN_FIELD, WRONG_KIND};
use crate::{Rule, Severity};
use asl_records::RecordFault;
use asl_shape::ShapeRefusal;

const BAD_SHAPE: Rule = Rule {
    id: "BadShape",
    severity: Severity::Error,
    short: "A value is no shape.",
    full: "A shape is true, false, or an object in which `type` names one type, or several in a list, and the \
        other keywords belong to one of these: `properties`, `required` and `additionalProperties` to \
        object, `items`, `prefixItems` and `minItems` to array. The types are array, boolean, integer, null, \
        object and string. Of JSON Schema nothing else is read but annotations, as `title` and \
        `description`: a keyword that is passed over would change what a yes says. In a certificate of \
        version 1 a shape may not have a list of types.",
    help: "Remove other keywords, as `enum`, `format`, `minimum`, `$ref` or `anyOf`, and write `integer` for \
        numbers; write several types as a list in which none stands twice; make `minItems` the number of \
        shapes in `prefixItems`, `additionalProperties` true or false, and name each field once in \
        `required`.",
};

const BAD_VERSION: Rule = Rule {
    id: "BadVersion",
    severity: Severity::Error,
    short: "The certificate's version isn't known.",
    full: "`version` of the certificate is a whole number other than 1 and 2.",
    help: "Infer the certificate anew with `asl infer`.",
};

const BAD_NUMBER: Rule = Rule {
    id: "BadNumber",
    severity: Severity::Error,
    short: "A reference means none of the listed shapes.",
    full: "A reference in the certificate, an object with `shape` alone, has to hold the number of an element \
        of its list `shapes`, counted from 0; within that list the number of an element in front of its own.",
    help: "Infer the certificate anew with `asl infer`, or correct the number.",
};

/// The rule of a fault of declared shapes or a certificate; want of memory has none.
pub fn rule_of_record(fault: &RecordFault) -> Option<&'static Rule>
    ensures { option_map (λ rule. rule.now.id.now) result
        ≡ option_map record_fault_name (record_fault_view fault.now) }
{
    match fault {
        RecordFault::NotObject => Some(&NOT_OBJECT),
        RecordFault::MissingField => Some(&MISSING_FIELD),
        RecordFault::UnknownField => Some(&UNKNOWN_FIELD),
        RecordFault::WrongKind => Some(&WRONG_KIND),
        RecordFault::BadShape(refusal) => rule_of_shape(refusal),
        RecordFault::BadVersion => Some(&BAD_VERSION),
        RecordFault::BadNumber => Some(&BAD_NUMBER),
        RecordFault::OutOfMemory => None,
    }
}

/// That of a value that is no shape.
fn rule_of_shape(refusal: &ShapeRefusal) -> Option<&'static Rule>
    ensures { option_map (λ rule. rule.now.id.now) result
        ≡ option_map (λ fault. record_fault_name (BadShape fault)) (fault_named refusal.now) }
{
    match refusal {
        ShapeRefusal::NotAShape
        | ShapeRefusal::Keyword
        | ShapeRefusal::BadType
        | ShapeRefusal::MinItems => Some(&BAD_SHAPE),
        ShapeRefusal::OutOfMemory => None,
    }
}
