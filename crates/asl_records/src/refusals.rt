//! Why declared shapes or a certificate are refused.

ghost use Rattle.std.specs.Prelude.{◌≡◌, ◌∷◌, [], Some, IfSome};

use asl_shape::ShapeRefusal;
use asl_tree::WantOfMemory;
use std::alloc::Global;

/// What is wrong with declared shapes or a certificate.
#[derive(Debug, Drop)]
pub enum RecordFault {
    /// The record or one of its entries is no object.
    NotObject,
    /// A field that is required isn't there.
    MissingField,
    /// There is no such field.
    UnknownField,
    /// A field has a value of another kind.
    WrongKind,
    /// A shape is none; in a certificate of version 1 also where its type is a list.
    BadShape(ShapeRefusal),
    /// The version of the certificate is a whole number other than 1 and 2.
    BadVersion,
    /// A reference means none of the shapes that the certificate lists.
    BadNumber,
    /// There was no memory to tell.
    OutOfMemory,
}

impl RecordFault {
    ghost use Rattle.asl_model.specs.Printed.{record_fault_name};
    ghost use Rattle.asl_records.specs.View.{record_fault_view};

    /// The fault's name, as it is printed.
    pub fn name(&self) -> &'static str
        ensures { IfSome (record_fault_view self.now)
            (λ fault. result.now ≡ record_fault_name fault) }
    {
        match self {
            RecordFault::NotObject => "NotObject",
            RecordFault::MissingField => "MissingField",
            RecordFault::UnknownField => "UnknownField",
            RecordFault::WrongKind => "WrongKind",
            RecordFault::BadShape(_) => "BadShape",
            RecordFault::BadVersion => "BadVersion",
            RecordFault::BadNumber => "BadNumber",
            RecordFault::OutOfMemory => "OutOfMemory",
        }
    }
}

/// Why declared shapes or a certificate are refused: the fault, the name of its entry, empty for the record itself, and
/// the field.
#[derive(Debug, Drop)]
pub struct RecordRefusal {
    pub fault: RecordFault,
    pub name: String,
    pub field: String,
}

/// Why a tree is read as no declared shapes or no certificate.
#[derive(Debug, Drop)]
pub enum ReadFault {
    /// A rule of records is broken.
    Record(RecordRefusal),
    /// There was no memory to read it. No other fault says so.
    OutOfMemory,
}

impl ReadFault {
    ghost use Rattle.asl_model.specs.Records as model;
    ghost use Rattle.asl_records.specs.View.{record_fault_view};
    ghost use Rattle.asl_records.specs.Parts.{TellsOneOf, complaint_of};

    /// A fault at an entry and a field, or out of memory where there is none for their names.
    pub(crate) fn record(alloc: Global, fault: RecordFault, name: &str, field: &str) -> ReadFault
        ensures { (f : model.RecordFault) → record_fault_view fault ≡ Some f
            → TellsOneOf (complaint_of name.now field.now f ∷ []) result }
    {
        match (
            String::from_str(alloc, name),
            String::from_str(alloc, field),
        ) {
            (Ok(name), Ok(field)) => ReadFault::Record(RecordRefusal { fault, name, field }),
            _ => ReadFault::OutOfMemory,
        }
    }
}

impl<E: WantOfMemory + Drop> From<E> for ReadFault {
    ghost use Rattle.asl_records.specs.declared.refusals.ReadFault.{ReadFault};

    ghost from_gives = { λ _ fault. fault ≡ ReadFault.OutOfMemory };

    fn from(_want: E) -> ReadFault {
        ReadFault::OutOfMemory
    }
}
