//! What the two texts read as, or what is wrong with them.
ghost use Rattle.std.specs.Prelude.{◌≡◌, ◌≢◌, ◌++◌, ◌∷◌, [], IfOk, None, map};
ghost use Rattle.serde_json.specs.Data.{Data};
ghost use Rattle.serde_json.specs.View.{view};
ghost use Rattle.asl_model.specs.Json.{ReadsAsTree, ReadsAsValue, tree_of};
ghost use Rattle.asl_model.specs.Names.{Bytes};
ghost use Rattle.asl_model.specs.Records.{declared_complaints};
ghost use Rattle.asl_model.specs.Texts.{IsNoJson};
ghost use Rattle.asl_records.specs.Values.{IsValue};
ghost use Rattle.asl_lint.specs.Reading.{IsDeclaration, IsDefinition, IsValueOf};
ghost use Rattle.asl_problems.specs.Told.{told_by};
ghost use Rattle.asl_tree.specs.View.{view as tree_view};

use asl_machine::Machine;
use asl_problems::{Problem, Which, problems_of_declared, problems_of_value};
use asl_records::{Declared, ReadFault, read_declared};
use asl_tree::{OutOfMemory, Tree, TreeRefusal, read_value};
use serde_json::Value;
use std::alloc::Global;

/// A definition that is read.
#[derive(Drop)]
pub(crate) enum Definition {
    /// The machine that it stands for.
    Machine(Machine),
    /// What is wrong with it.
    Refused(Vec<Problem>),
}

/// Declared shapes that are read.
#[derive(Drop)]
pub(crate) enum Declaration {
    Declared(Declared),
    /// What is wrong with them.
    Refused(Vec<Problem>),
}

/// The definition that a text is.
pub(crate) fn read_definition(alloc: Global, text: &[u8]) -> Result<Definition, OutOfMemory>
    ensures { IfOk result (IsDefinition text.now) }
{
    let value = json_value(alloc, text)?;
    match value {
        Some(value) => definition_of(alloc, &value),
        None => no_definition(alloc),
    }
}

/// What is told of a definition that is no JSON.
fn no_definition(alloc: Global) -> Result<Definition, OutOfMemory>
    ensures { (text : Bytes) → IsNoJson text → IfOk result (IsDefinition text) }
{
    let problem = Problem::not_json(Which::Definition)?;
    let problems = added(Vec::new(alloc), problem)?;
    Ok(Definition::Refused(problems))
}

/// The definition that a value is.
fn definition_of(alloc: Global, value: &Value) -> Result<Definition, OutOfMemory>
    ensures { (text : Bytes) → ReadsAsValue text (view value.now)
        → IfOk result (IsDefinition text) }
{
    match asl_machine::read(alloc, value) {
        Ok(machine) => Ok(Definition::Machine(machine)),
        Err(_) => refused_value(alloc, value),
    }
}

/// What is wrong with a value that isn't read as a machine. Where nothing is, there was no memory to read it.
fn refused_value(alloc: Global, value: &Value) -> Result<Definition, OutOfMemory>
    ensures { (text : Bytes) → ReadsAsValue text (view value.now)
        → IfOk result (IsDefinition text) }
{
    let problems = problems_of_value(alloc, value)?;
    if problems.is_empty() {
        return Err(OutOfMemory);
    }
    Ok(Definition::Refused(problems))
}

/// The declared shapes that a text is.
pub(crate) fn read_declaration(alloc: Global, text: &[u8]) -> Result<Declaration, OutOfMemory>
    ensures { IfOk result (IsDeclaration text.now) }
{
    match asl_tree::read(alloc, text) {
        Ok(tree) => declaration_of(alloc, &tree),
        Err(TreeRefusal::NotJson) => no_declaration(alloc),
        Err(TreeRefusal::NotWhole) => not_whole_declaration(alloc),
        Err(TreeRefusal::OutOfMemory) => Err(OutOfMemory),
    }
}

/// What is told of declared shapes that are no JSON.
fn no_declaration(alloc: Global) -> Result<Declaration, OutOfMemory>
    ensures { (text : Bytes) → IsNoJson text → IfOk result (IsDeclaration text) }
{
    let problem = Problem::not_json(Which::Declared)?;
    let problems = added(Vec::new(alloc), problem)?;
    Ok(Declaration::Refused(problems))
}

/// The declared shapes that a tree stands for.
fn declaration_of(alloc: Global, tree: &Tree) -> Result<Declaration, OutOfMemory>
    ensures { (text : Bytes) → ReadsAsTree text (tree_view tree.now)
        → IfOk result (IsDeclaration text) }
{
    match read_declared(alloc, tree) {
        Ok(declared) => Ok(Declaration::Declared(declared)),
        Err(ReadFault::Record(refusal)) => {
            drop(refusal);
            refused_declaration(alloc, tree)
        }
        Err(ReadFault::OutOfMemory) => Err(OutOfMemory),
    }
}

/// What is told of declared shapes with a number that isn't whole.
fn not_whole_declaration(alloc: Global) -> Result<Declaration, OutOfMemory>
    ensures { (text : Bytes) (v : Data) → ReadsAsValue text v → tree_of v ≡ None
        → IfOk result (IsDeclaration text) }
{
    let problem = Problem::not_whole()?;
    let problems = added(Vec::new(alloc), problem)?;
    Ok(Declaration::Refused(problems))
}

/// What is told of a tree that isn't read as declared shapes.
fn refused_declaration(alloc: Global, tree: &Tree) -> Result<Declaration, OutOfMemory>
    ensures { (text : Bytes) (v : Data) → ReadsAsValue text v → IsValue (tree_view tree.now) v
        → declared_complaints v ≢ [] → IfOk result (IsDeclaration text) }
{
    let problems = problems_of_declared(alloc, tree)?;
    Ok(Declaration::Refused(problems))
}

/// The JSON value that a text is, if it is one.
fn json_value(alloc: Global, text: &[u8]) -> Result<Option<Value>, OutOfMemory>
    ensures { IfOk result (IsValueOf text.now) }
{
    match read_value(alloc, text) {
        Ok(value) => Ok(Some(value)),
        Err(TreeRefusal::OutOfMemory) => Err(OutOfMemory),
        Err(TreeRefusal::NotJson | TreeRefusal::NotWhole) => Ok(None),
    }
}

/// The problems with one more behind them.
pub(crate) fn added(problems: Vec<Problem>, problem: Problem) -> Result<Vec<Problem>, OutOfMemory>
    ensures { IfOk result (λ all. map told_by all.items
        ≡ map told_by problems.items ++ told_by problem ∷ []) }
{
    let mut all = problems;
    all.push(problem)?;
    Ok(all)
}
