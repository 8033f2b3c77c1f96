//! Declared shapes read from the tokens of their text.
ghost use Rattle.std.specs.Prelude.{◌≡◌, ◌<◌, Some, length, IfOk, IfSome, OnOk};
ghost use Rattle.serde_json.specs.Data.{Data, Members, object};
ghost use Rattle.serde_json.specs.Read.{read};
ghost use Rattle.asl_model.specs.Records.{StandsForDeclared};
ghost use Rattle.asl_records.specs.View.{declared_view};
ghost use Rattle.asl_streams.specs.Declaring.{AreDeclarations, AreShapesOf, ReadsDeclaration, ReadsDeclarations, ReadsEntries, ReadsOwn, ReadsTask, ReadsTaskPart, ReadsTaskParts, ReadsTasks};

use crate::reader::Reader;
use crate::shapes::next_shape;
use crate::unread::Unread;
use asl_numbered::Shapes;
use asl_records::{Declared, TaskShapes};
use asl_shape::Shape;
use asl_tree::OutOfMemory;
use json::{Reader as Tokens, Scratch, Token};
use std::alloc::Global;
use std::collections::BTreeMap;

/// How many levels the input's shape may have, or the object of the tasks.
const FIELD_LEVELS: usize = 126;

/// The declared shapes that a JSON text stands for, read shape by shape: of the text no more is a tree at a time than a
/// keyword's value in one of them. None where it isn't read so, which says nothing of the text.
///
/// Refused only where an allocation was refused.
pub fn read_streamed_declared(alloc: Global, text: &str) -> Result<Option<Declared>, OutOfMemory>
    ensures declared { IfOk result (λ found. IfSome found (λ declared.
        (v : Data) × (read text.now ≡ Some v) × StandsForDeclared v (declared_view declared))) }
{
    match read_declared_tokens(alloc, text) {
        Ok(declared) => Ok(Some(declared)),
        Err(Unread::Whole) => Ok(None),
        Err(Unread::OutOfMemory) => Err(OutOfMemory),
    }
}

/// The declared shapes that a text stands for.
fn read_declared_tokens(alloc: Global, text: &str) -> Result<Declared, Unread>
    ensures { IfOk result (λ declared. (v : Data) × (read text.now ≡ Some v)
        × StandsForDeclared v (declared_view declared)) }
{
    let mut scratch = Scratch::new(alloc);
    let mut tokens = Tokens::new(text, &mut scratch)?;
    let Some(Token::BeginObject) = tokens.next() else {
        return Err(Unread::Whole);
    };
    let declared = next_declarations(alloc, &mut tokens)?;
    if tokens.next().is_some() {
        return Err(Unread::Whole);
    }
    declared.whole(alloc)
}

/// The fields of declared shapes that have been read.
#[derive(Drop)]
pub(crate) struct Declarations {
    pub(crate) input: Option<Shape>,
    pub(crate) tasks: Option<BTreeMap<String, TaskShapes>>,
}

impl Declarations {
    /// Reads the field of that name; the last one of a name stays.
    fn read_next(
        &mut self,
        alloc: Global,
        name: &str,
        tokens: &mut Tokens<'_>,
    ) -> Result<(), Unread>
        ensures read { IfOk result
            (λ _. ReadsDeclaration name.now tokens.old tokens.new self.old self.new) }
        ensures shorter { OnOk result (length tokens.new < length tokens.old) }
    {
        match name {
            "input" => self.input = Some(next_own_shape(alloc, tokens, FIELD_LEVELS)?),
            "tasks" => self.tasks = Some(next_tasks(alloc, tokens, FIELD_LEVELS)?),
            _ => return Err(Unread::Whole),
        }
        Ok(())
    }

    /// The declared shapes, where there is an input.
    fn whole(self, alloc: Global) -> Result<Declared, Unread>
        ensures { (found : Members) → AreDeclarations found self
            → IfOk result (λ declared. StandsForDeclared (object found) (declared_view declared)) }
    {
        let Declarations { input, tasks } = self;
        let Some(input) = input else {
            return Err(Unread::Whole);
        };
        let tasks = tasks.unwrap_or(BTreeMap::new(alloc));
        Ok(Declared { input, tasks })
    }
}

/// The fields up to the end of the object.
fn next_declarations(alloc: Global, tokens: &mut Tokens<'_>) -> Result<Declarations, Unread>
    ensures { IfOk result (ReadsDeclarations tokens.old tokens.new) }
{
    let mut fields = Declarations {
        input: None,
        tasks: None,
    };
    'fields: loop {
        match tokens.next_key() {
            Ok(Some(name)) => fields.read_next(alloc, name, tokens)?,
            Ok(None) => return Ok(fields),
            Err(_) => return Err(Unread::Whole),
        }
    }
}

/// The shapes of the tasks that the next tokens spell, with at most so many levels.
fn next_tasks(
    alloc: Global,
    tokens: &mut Tokens<'_>,
    levels: usize,
) -> Result<BTreeMap<String, TaskShapes>, Unread>
    ensures tasks { IfOk result (λ m. ReadsTasks levels tokens.old tokens.new m.entries) }
    ensures shorter { OnOk result (length tokens.new < length tokens.old) }
{
    let Some(Token::BeginObject) = tokens.next() else {
        return Err(Unread::Whole);
    };
    if levels == 0 {
        return Err(Unread::Whole);
    }
    next_entries(alloc, tokens, levels - 1)
}

/// The shapes of the tasks up to the end of the object, with at most so many levels.
fn next_entries(
    alloc: Global,
    tokens: &mut Tokens<'_>,
    levels: usize,
) -> Result<BTreeMap<String, TaskShapes>, Unread>
    ensures tasks { IfOk result (λ m. ReadsEntries levels tokens.old tokens.new m.entries) }
    ensures shorter { OnOk result (length tokens.new < length tokens.old) }
{
    let mut tasks = BTreeMap::new(alloc);
    'tasks: loop {
        match tokens.next_key() {
            Ok(Some(name)) => {
                let name = String::from_str(alloc, name)?;
                let task = next_task(alloc, tokens, levels)?;
                drop(tasks.insert(name, task)?);
            }
            Ok(None) => return Ok(tasks),
            Err(_) => return Err(Unread::Whole),
        }
    }
}

/// The fields of a task that have been read.
#[derive(Drop)]
pub(crate) struct Task {
    pub(crate) takes: Option<Shape>,
    pub(crate) gives: Option<Shape>,
}

impl Task {
    /// Reads the field of that name, with at most so many levels; the last one of a name stays.
    fn read_next(
        &mut self,
        alloc: Global,
        name: &str,
        tokens: &mut Tokens<'_>,
        levels: usize,
    ) -> Result<(), Unread>
        ensures read { IfOk result
            (λ _. ReadsTaskPart levels name.now tokens.old tokens.new self.old self.new) }
        ensures shorter { OnOk result (length tokens.new < length tokens.old) }
    {
        match name {
            "takes" => self.takes = Some(next_own_shape(alloc, tokens, levels)?),
            "gives" => self.gives = Some(next_own_shape(alloc, tokens, levels)?),
            _ => return Err(Unread::Whole),
        }
        Ok(())
    }

    /// The task's shapes, where it says what it gives.
    fn shapes(self) -> Result<TaskShapes, Unread>
        ensures theirs { IfOk result (AreShapesOf self) }
    {
        let Task { takes, gives } = self;
        let Some(gives) = gives else {
            return Err(Unread::Whole);
        };
        let takes = takes.unwrap_or(Shape::Any);
        Ok(TaskShapes { takes, gives })
    }
}

/// The shapes of the task that the next tokens spell, with at most so many levels.
fn next_task(alloc: Global, tokens: &mut Tokens<'_>, levels: usize) -> Result<TaskShapes, Unread>
    ensures task { IfOk result (ReadsTask levels tokens.old tokens.new) }
    ensures shorter { OnOk result (length tokens.new < length tokens.old) }
{
    let Some(Token::BeginObject) = tokens.next() else {
        return Err(Unread::Whole);
    };
    if levels == 0 {
        return Err(Unread::Whole);
    }
    next_task_parts(alloc, tokens, levels - 1)
}

/// The shapes in the fields up to the end of the object, with at most so many levels.
fn next_task_parts(
    alloc: Global,
    tokens: &mut Tokens<'_>,
    levels: usize,
) -> Result<TaskShapes, Unread>
    ensures task { IfOk result (ReadsTaskParts levels tokens.old tokens.new) }
    ensures shorter { OnOk result (length tokens.new < length tokens.old) }
{
    let mut task = Task {
        takes: None,
        gives: None,
    };
    'parts: loop {
        match tokens.next_key() {
            Ok(Some(name)) => task.read_next(alloc, name, tokens, levels)?,
            Ok(None) => return task.shapes(),
            Err(_) => return Err(Unread::Whole),
        }
    }
}

/// The shape that the next tokens spell, with at most so many levels, as one of its own.
fn next_own_shape(alloc: Global, tokens: &mut Tokens<'_>, levels: usize) -> Result<Shape, Unread>
    ensures shape { IfOk result (ReadsOwn levels tokens.old tokens.new) }
    ensures shorter { OnOk result (length tokens.new < length tokens.old) }
{
    let mut shapes = Shapes::new(alloc);
    let reader = Reader {
        alloc,
        several: true,
        listed: None,
    };
    let number = next_shape(reader, tokens, levels, &mut shapes)?;
    match shapes.expand(number)? {
        Some(shape) => Ok(shape),
        None => unreachable!(),
    }
}
