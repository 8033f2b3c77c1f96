//! From a definition to a picture of it, on standard output.

use asl_command_line::{GraphFormat, GraphRequest};
use asl_files::{Given, ROUNDS, end_given, finish, print_text, text_or_status};
use asl_graph::{Drawn, Format, graph_texts};
use asl_tool::{Closing, RunFault};
use std::rt::Files;

/// Writes a picture of the definition in a file to standard output, and gives the exit status. The definition and then the
/// declared shapes are read before a text is looked at; a file that can't be read is told on standard error.
pub(crate) fn graph_file<R: Files + Input + Print + Eprint + AllocGlobal>(
    rt: &R,
    request: &GraphRequest<'_>,
) -> u8 {
    let definition = match text_or_status(rt, request.definition) {
        Ok(text) => text,
        Err(status) => return status,
    };
    let declared = match request.declared {
        None => None,
        Some(name) => match text_or_status(rt, name) {
            Ok(text) => Some(text),
            Err(status) => return status,
        },
    };
    let texts = Texts {
        definition,
        declared,
    };
    end_given(
        rt,
        graphed_on(rt, request, &texts.definition, texts.declared.as_deref()),
        &texts.given(),
    )
}

/// The texts of a picture.
#[derive(Drop)]
struct Texts {
    definition: Vec<u8>,
    declared: Option<Vec<u8>>,
}

impl Texts {
    /// The texts as they were given.
    fn given(&self) -> Given<'_> {
        Given {
            definition: &self.definition,
            declared: self.declared.as_deref(),
            certificate: None,
            order: "--declared gives the declared shapes of the definition",
        }
    }
}

/// Writes a picture of a definition, and gives the exit status.
///
/// Refused: Text for a refused text; Write; OutOfMemory.
fn graphed_on<R: Print + Eprint + AllocGlobal>(
    rt: &R,
    request: &GraphRequest<'_>,
    definition: &[u8],
    declared: Option<&[u8]>,
) -> Result<u8, RunFault> {
    let format = match request.format {
        GraphFormat::Mermaid => Format::Mermaid,
        GraphFormat::Dot => Format::Dot,
    };
    let shapes = request.shapes;
    let drawn = graph_texts(rt.alloc(), definition, declared, format, shapes, ROUNDS)?;
    match drawn {
        Drawn::Graph(text) => {
            print_text(rt, &text)?;
            Ok(0)
        }
        Drawn::NotSettled => Ok(finish(rt, &Closing::NotSettled)),
    }
}
