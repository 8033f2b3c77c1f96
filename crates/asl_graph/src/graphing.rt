//! From texts to pictures.

ghost use Rattle.std.specs.Prelude.{◌≡◌, IfErr, IfOk, IfSome, None, Ok};
ghost use Rattle.asl_model.specs.Names.{Bytes};
ghost use Rattle.asl_texts.specs.Subjects.{DefinitionFaultStands, Describes, SubjectFaultStands};
ghost use Rattle.asl_texts.specs.declared.refusals.RunFault.TheVariants as faults;
ghost use Rattle.asl_graph.specs.Answers.{Draws, DrawsAlone};

use crate::drawing::Drawer;
use crate::known::Known;
use crate::order::written_order;
use crate::picture::Format;
use crate::scopes::Scopes;
use asl_machine_table::Machine;
use asl_texts::{RunFault, Subject, read_definition, read_subject};
use asl_tree::OutOfMemory;
use std::alloc::Global;

/// What is drawn.
#[derive(Drop)]
pub enum Drawn {
    /// The text of a picture.
    Graph(String),
    /// Some shape still changed in the last round, so that nothing is known of the data.
    NotSettled,
}

/// Draws the states of a definition, given as a JSON text, and the lines between them.
///
/// With declared shapes, also a JSON text, a certificate is inferred leniently in at most `max_rounds` rounds, as
/// [`infer_leniently`](asl_infer::infer_leniently) does; where its rounds don't settle, nothing is drawn. States at which it
/// breaks a rule are marked, and so are states whose certified input no tree has, unless a way leads to them from a broken
/// rule that may stop data. With `with_shapes` the lines tell the shapes of what flows along them; without declared shapes
/// nothing is known of that.
///
/// Refused as by [`read_subject`]; without declared shapes as by [`read_definition`].
pub fn graph_texts<'t>(
    alloc: Global,
    definition: &'t [u8],
    declared: Option<&'t [u8]>,
    format: Format,
    with_shapes: bool,
    max_rounds: u32,
) -> Result<Drawn, RunFault>
    ensures drawn { IfSome declared.entry (λ text.
        IfOk result (Draws max_rounds definition.now text.now)) }
    ensures drawn_alone { declared.entry ≡ None → IfOk result (DrawsAlone definition.now) }
    ensures refused { IfSome declared.entry (λ text.
        IfErr result (SubjectFaultStands definition.now text.now)) }
    ensures refused_alone { declared.entry ≡ None
        → IfErr result (DefinitionFaultStands definition.now) }
{
    let request = Request {
        definition,
        format,
        with_shapes,
        max_rounds,
    };
    match declared {
        Some(declared) => request.draw(alloc, declared),
        None => draw_alone(alloc, definition, format),
    }
}

/// Draws a definition of which nothing is declared.
fn draw_alone(alloc: Global, definition: &[u8], format: Format) -> Result<Drawn, RunFault>
    ensures drawn { IfOk result (DrawsAlone definition.now) }
    ensures refused { IfErr result (DefinitionFaultStands definition.now) }
{
    let machine = read_definition(alloc, definition)?;
    let known: Option<Known> = None;
    let picture = picture_of(alloc, definition, &machine, known.as_ref(), format);
    Ok(Drawn::Graph(picture?))
}

/// A picture that is wanted of a definition with declared shapes.
#[derive(Clone, Copy, Drop)]
struct Request<'t> {
    definition: &'t [u8],
    format: Format,
    with_shapes: bool,
    max_rounds: u32,
}

impl Request<'_> {
    /// Draws it with these declared shapes.
    fn draw(&self, alloc: Global, declared: &[u8]) -> Result<Drawn, RunFault>
        ensures drawn { IfOk result
            (Draws self.now.max_rounds self.now.definition.now declared.now) }
        ensures refused { IfErr result (SubjectFaultStands self.now.definition.now declared.now) }
    {
        let subject = read_subject(alloc, self.definition, declared)?;
        Ok(self.draw_subject(alloc, &subject)?)
    }

    /// Draws what the two texts read as.
    fn draw_subject(&self, alloc: Global, subject: &Subject) -> Result<Drawn, OutOfMemory>
        ensures { (definition : Bytes) (declared : Bytes)
            → Describes definition declared subject.now
            → IfOk result (Draws self.now.max_rounds definition declared) }
    {
        let Subject { machine, declared } = subject;
        let Some(known) = Known::find(alloc, machine, declared, self.with_shapes, self.max_rounds)?
        else {
            return Ok(Drawn::NotSettled);
        };
        let picture = picture_of(alloc, self.definition, machine, Some(&known), self.format)?;
        Ok(Drawn::Graph(picture))
    }
}

/// The picture of a machine, the states in the order of its definition.
fn picture_of<'m>(
    alloc: Global,
    definition: &[u8],
    machine: &'m Machine,
    known: Option<&'m Known>,
    format: Format,
) -> Result<String, OutOfMemory> {
    let numbers = written_order(alloc, machine, definition)?;
    let scopes = Scopes::of(alloc, machine, &numbers)?;
    let drawer = Drawer {
        alloc,
        machine,
        scopes,
        known,
    };
    drawer.picture(format)
}
