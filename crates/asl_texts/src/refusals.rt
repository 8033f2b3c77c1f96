//! Why a text is refused, and how a call over a reader and a writer can fail.

ghost use Rattle.std.specs.Prelude.{◌≡◌};

use asl_machine::DefRefusal;
use asl_records::RecordRefusal;
use asl_tree::{TreeRefusal, WantOfMemory};
use thiserror::Error;

/// One of the texts.
#[derive(Clone, Copy, Debug)]
pub enum Which {
    Definition,
    Declared,
    Certificate,
    Input,
    Answers,
}

impl Which {
    ghost use Rattle.asl_model.specs.Printed.{which_name};
    ghost use Rattle.asl_texts.specs.View.{which_view};

    /// The text's name.
    pub(crate) fn name(self) -> &'static str
        ensures { result.now ≡ which_name (which_view self) }
    {
        match self {
            Which::Definition => "definition",
            Which::Declared => "declared",
            Which::Certificate => "certificate",
            Which::Input => "input",
            Which::Answers => "answers",
        }
    }
}

/// What is wrong with a text.
#[derive(Debug, Drop)]
pub enum TextFault {
    /// It is no JSON text, or has a number that isn't whole.
    Tree(TreeRefusal),
    /// It is no definition.
    Def(DefRefusal),
    /// It isn't declared shapes, or no certificate.
    Record(RecordRefusal),
    /// The element at this position is no answer.
    BadAnswer(usize),
    /// There was no memory to read it. No other fault says so here.
    OutOfMemory,
}

/// A refused text: which one, and why.
#[derive(Debug, Drop)]
pub struct TextRefusal {
    pub which: Which,
    pub fault: TextFault,
}

/// How a call over a reader and a writer can fail.
#[derive(Debug, Drop, Error)]
pub enum RunFault {
    #[error("a text is refused")]
    Text(TextRefusal),
    #[error("text too long")]
    TooLong,
    #[error("read failed")]
    Read,
    #[error("write failed")]
    Write,
    #[error("out of memory")]
    OutOfMemory,
}

impl From<TextRefusal> for RunFault {
    ghost use Rattle.asl_texts.specs.declared.refusals.RunFault.{RunFault};

    ghost from_gives = { λ refusal fault. fault ≡ RunFault.Text refusal };

    fn from(refusal: TextRefusal) -> RunFault {
        RunFault::Text(refusal)
    }
}

impl<E: WantOfMemory + Drop> From<E> for RunFault {
    ghost use Rattle.asl_texts.specs.declared.refusals.RunFault.{RunFault};

    ghost from_gives = { λ _ fault. fault ≡ RunFault.OutOfMemory };

    fn from(_want: E) -> RunFault {
        RunFault::OutOfMemory
    }
}
