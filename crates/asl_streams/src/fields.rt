//! The fields of a certificate, read from tokens one after another.
ghost use Rattle.std.specs.Prelude.{◌≡◌, ◌<◌, Bool, List, codes, length, option_map, IfOk, IfSome, OnOk};
ghost use Rattle.asl_model.specs.Shape.{Shape};
ghost use Rattle.asl_numbered.specs.Expansion.{AreBelow, Keeps};
ghost use Rattle.asl_numbered.specs.References.{numbers_given};
ghost use Rattle.asl_streams.specs.Fielded.{ReadsField, ReadsFields};

use crate::entries::{next_listed, next_states};
use crate::outputs::{Output, next_output};
use crate::reader::Reader;
use crate::unread::{Unread, no_tree};
use asl_numbered::Shapes;
use asl_records::StateNumbers;
use asl_tree::{Tree, next_tree};
use json::{Reader as Tokens, Token};
use std::alloc::Global;
use std::collections::BTreeMap;

/// How many levels the tree of a field may have, and how many a listed shape or the entry of a state.
const FIELD_LEVELS: usize = 126;

const PART_LEVELS: usize = 125;

/// The fields of a certificate that have been read.
#[derive(Drop)]
pub(crate) struct Fields {
    pub(crate) version: Option<Tree>,
    pub(crate) listed: Option<Vec<usize>>,
    pub(crate) output: Option<Output>,
    pub(crate) states: Option<BTreeMap<String, StateNumbers>>,
}

impl Fields {
    /// Reads the field of that name; the last one of a name stays. A list of shapes is read in front of the states alone, in
    /// which references mean it, and only once.
    fn read_next(
        &mut self,
        alloc: Global,
        several: bool,
        name: &str,
        tokens: &mut Tokens<'_>,
        shapes: &mut Shapes,
    ) -> Result<(), Unread>
        requires listed { IfSome self.old.listed (λ ns. AreBelow (length shapes.old) ns.items) }
        ensures read { IfOk result (λ _. ReadsField several name.now shapes.old shapes.new
            tokens.old tokens.new self.old self.new) }
        ensures shorter { OnOk result (length tokens.new < length tokens.old) }
        ensures keeps { Keeps shapes.old shapes.new }
    {
        match name {
            "version" => self.read_version(alloc, tokens),
            "output" => self.read_output(alloc, several, tokens, shapes),
            "shapes" => self.read_shapes(alloc, several, tokens, shapes),
            "states" => self.read_states(alloc, several, tokens, shapes),
            _ => Err(Unread::Whole),
        }
    }

    fn read_version(&mut self, alloc: Global, tokens: &mut Tokens<'_>) -> Result<(), Unread>
        ensures read { IfOk result (λ _. (several : Bool) (table : List Shape)
            → ReadsField several (codes "version") table table tokens.old tokens.new
            self.old self.new) }
        ensures shorter { OnOk result (length tokens.new < length tokens.old) }
    {
        match next_tree(alloc, tokens, FIELD_LEVELS) {
            Ok(tree) => {
                self.version = Some(tree);
                Ok(())
            }
            Err(refusal) => Err(no_tree(refusal)),
        }
    }

    /// Reads shapes in which references mean those that are listed.
    fn reader(&self, alloc: Global, several: bool) -> Reader<'_>
        ensures several { result.several ≡ several }
        ensures listed { numbers_given result.listed
            ≡ option_map (λ ns. ns.items) self.now.listed }
    {
        Reader {
            alloc,
            several,
            listed: self.listed.as_deref(),
        }
    }

    fn read_output(
        &mut self,
        alloc: Global,
        several: bool,
        tokens: &mut Tokens<'_>,
        shapes: &mut Shapes,
    ) -> Result<(), Unread>
        requires listed { IfSome self.old.listed (λ ns. AreBelow (length shapes.old) ns.items) }
        ensures read { IfOk result (λ _. ReadsField several (codes "output") shapes.old shapes.new
            tokens.old tokens.new self.old self.new) }
        ensures shorter { OnOk result (length tokens.new < length tokens.old) }
        ensures keeps { Keeps shapes.old shapes.new }
    {
        let reader = self.reader(alloc, several);
        self.output = Some(next_output(reader, tokens, FIELD_LEVELS, shapes)?);
        Ok(())
    }

    fn read_shapes(
        &mut self,
        alloc: Global,
        several: bool,
        tokens: &mut Tokens<'_>,
        shapes: &mut Shapes,
    ) -> Result<(), Unread>
        ensures read { IfOk result (λ _. ReadsField several (codes "shapes") shapes.old shapes.new
            tokens.old tokens.new self.old self.new) }
        ensures shorter { OnOk result (length tokens.new < length tokens.old) }
        ensures keeps { Keeps shapes.old shapes.new }
    {
        if self.states.is_some() || self.listed.is_some() {
            return Err(Unread::Whole);
        }
        let Some(Token::BeginArray) = tokens.next() else {
            return Err(Unread::Whole);
        };
        self.listed = Some(next_listed(alloc, several, tokens, PART_LEVELS, shapes)?);
        Ok(())
    }

    fn read_states(
        &mut self,
        alloc: Global,
        several: bool,
        tokens: &mut Tokens<'_>,
        shapes: &mut Shapes,
    ) -> Result<(), Unread>
        requires listed { IfSome self.old.listed (λ ns. AreBelow (length shapes.old) ns.items) }
        ensures read { IfOk result (λ _. ReadsField several (codes "states") shapes.old shapes.new
            tokens.old tokens.new self.old self.new) }
        ensures shorter { OnOk result (length tokens.new < length tokens.old) }
        ensures keeps { Keeps shapes.old shapes.new }
    {
        let Some(Token::BeginObject) = tokens.next() else {
            return Err(Unread::Whole);
        };
        let reader = self.reader(alloc, several);
        self.states = Some(next_states(reader, tokens, PART_LEVELS, shapes)?);
        Ok(())
    }
}

/// The fields up to the end of the object.
pub(crate) fn next_fields(
    alloc: Global,
    several: bool,
    tokens: &mut Tokens<'_>,
    shapes: &mut Shapes,
) -> Result<Fields, Unread>
    ensures { IfOk result (ReadsFields several shapes.new tokens.old tokens.new) }
{
    let mut fields = Fields {
        version: None,
        listed: None,
        output: None,
        states: None,
    };
    'fields: loop {
        match tokens.next_key() {
            Ok(Some(name)) => fields.read_next(alloc, several, name, tokens, shapes)?,
            Ok(None) => return Ok(fields),
            Err(_) => return Err(Unread::Whole),
        }
    }
}
