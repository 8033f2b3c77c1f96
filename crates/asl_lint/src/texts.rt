//! What is told of two texts, or of one.
ghost use Rattle.std.specs.Prelude.{◌≡◌, ◌++◌, ℕ, IfOk, map, option_map};
ghost use Rattle.asl_model.specs.Names.{Bytes};
ghost use Rattle.asl_machine_table.specs.Table.{scope_in};
ghost use Rattle.asl_records.specs.View.{declared_view};
ghost use Rattle.asl_texts.specs.Verifying.{ReadsInto};
ghost use Rattle.asl_lint.specs.Reading.{IsDeclaration};
ghost use Rattle.asl_lint.specs.Tells.{TellsOfBoth, TellsOfDefinition, TellsOfMachine, TellsOfOne, TellsOfTexts};
ghost use Rattle.asl_problems.specs.Told.{errors_of, told_by};

use crate::inferring::judge;
use crate::reading::{Declaration, Definition, read_declaration, read_definition};
use asl_machine::Machine;
use asl_problems::{Problem, Which, add_misspelt, add_repeats, add_warnings};
use asl_records::{Declared, NumberedCertificate};
use asl_tree::OutOfMemory;
use std::alloc::Global;

/// What is wrong with texts; and the machine, where the definition reads, with the certificate by which it was judged,
/// where there is one.
#[derive(Drop)]
struct Found {
    problems: Vec<Problem>,
    machine: Option<Machine>,
    certificate: Option<NumberedCertificate>,
}

impl Found {
    /// What is wrong where there is no machine.
    fn refused(problems: Vec<Problem>) -> Found
        ensures { result.problems ≡ problems }
    {
        Found {
            problems,
            machine: None,
            certificate: None,
        }
    }
}

/// What is told of a definition, and of declared shapes where they are given: what is wrong, and then what is hardly
/// meant.
pub(crate) fn problems_of_texts(
    alloc: Global,
    definition: &[u8],
    declared: Option<&[u8]>,
    max_rounds: u32,
) -> Result<Vec<Problem>, OutOfMemory>
    ensures { IfOk result (λ problems. TellsOfTexts max_rounds definition.now
        (option_map (λ text. text.now) declared.entry) (errors_of problems.items)) }
{
    let found = find(alloc, definition, declared, max_rounds)?;
    let problems = with_warnings(alloc, found)?;
    let all = with_slips(alloc, problems, definition, declared)?;
    Ok(all)
}

/// The problems, and behind them the names that stand again in their object, and the texts of the definition that are hardly
/// meant as they stand.
fn with_slips(
    alloc: Global,
    problems: Vec<Problem>,
    definition: &[u8],
    declared: Option<&[u8]>,
) -> Result<Vec<Problem>, OutOfMemory>
    ensures { IfOk result (λ all. errors_of all.items ≡ errors_of problems.items) }
{
    let mut all = problems;
    add_repeats(alloc, &mut all, Which::Definition, definition)?;
    add_misspelt(alloc, &mut all, definition)?;
    if let Some(declared) = declared {
        add_repeats(alloc, &mut all, Which::Declared, declared)?;
    }
    Ok(all)
}

/// What is wrong, and behind it what is hardly meant.
fn with_warnings(alloc: Global, found: Found) -> Result<Vec<Problem>, OutOfMemory>
    ensures { IfOk result (λ problems. errors_of problems.items ≡ errors_of found.problems.items) }
{
    let mut problems = found.problems;
    let mut certificate = found.certificate;
    if let Some(machine) = &found.machine {
        add_warnings(alloc, &mut problems, machine, certificate.as_mut())?;
    }
    Ok(problems)
}

/// What is wrong with a definition, and with declared shapes where they are given.
fn find(
    alloc: Global,
    definition: &[u8],
    declared: Option<&[u8]>,
    max_rounds: u32,
) -> Result<Found, OutOfMemory>
    ensures { IfOk result (λ found. TellsOfTexts max_rounds definition.now
        (option_map (λ text. text.now) declared.entry) (map told_by found.problems.items)) }
{
    match declared {
        None => find_in_one(alloc, definition),
        Some(declared) => find_in_both(alloc, definition, declared, max_rounds),
    }
}

/// What is wrong with a definition alone.
fn find_in_one(alloc: Global, definition: &[u8]) -> Result<Found, OutOfMemory>
    ensures { IfOk result
        (λ found. TellsOfOne definition.now (map told_by found.problems.items)) }
{
    let read = read_definition(alloc, definition)?;
    match read {
        Definition::Machine(machine) => Ok(Found {
            problems: Vec::new(alloc),
            machine: Some(machine),
            certificate: None,
        }),
        Definition::Refused(problems) => Ok(Found::refused(problems)),
    }
}

/// What is wrong with a definition and with declared shapes.
fn find_in_both(
    alloc: Global,
    definition: &[u8],
    declared: &[u8],
    max_rounds: u32,
) -> Result<Found, OutOfMemory>
    ensures { IfOk result (λ found. TellsOfBoth max_rounds definition.now declared.now
        (map told_by found.problems.items)) }
{
    let read = read_definition(alloc, definition)?;
    let declaration = read_declaration(alloc, declared)?;
    match read {
        Definition::Machine(machine) => find_in_machine(alloc, machine, declaration, max_rounds),
        Definition::Refused(problems) => find_behind(problems, declaration),
    }
}

/// What is wrong with declared shapes, and with a machine under them.
fn find_in_machine(
    alloc: Global,
    machine: Machine,
    declaration: Declaration,
    max_rounds: u32,
) -> Result<Found, OutOfMemory>
    ensures { IfOk result (λ found. (definition declared : Bytes) → ReadsInto definition machine
        → IsDeclaration declared declaration
        → TellsOfBoth max_rounds definition declared (map told_by found.problems.items)) }
{
    match declaration {
        Declaration::Declared(declared) => find_under(alloc, machine, &declared, max_rounds),
        Declaration::Refused(problems) => Ok(Found {
            problems,
            machine: Some(machine),
            certificate: None,
        }),
    }
}

/// What is wrong with a machine under declared shapes.
fn find_under(
    alloc: Global,
    machine: Machine,
    declared: &Declared,
    max_rounds: u32,
) -> Result<Found, OutOfMemory>
    ensures { IfOk result (λ found. TellsOfMachine max_rounds (scope_in machine)
        (declared_view declared.now) (map told_by found.problems.items)) }
{
    let judged = judge(alloc, &machine, declared, max_rounds)?;
    Ok(Found {
        problems: judged.problems,
        machine: Some(machine),
        certificate: judged.certificate,
    })
}

/// What is wrong with declared shapes, behind what is wrong with the definition.
fn find_behind(problems: Vec<Problem>, declaration: Declaration) -> Result<Found, OutOfMemory>
    ensures { (max_rounds : ℕ) → IfOk result (λ found. (definition declared : Bytes)
        → TellsOfDefinition definition (map told_by problems.items)
        → IsDeclaration declared declaration
        → TellsOfBoth max_rounds definition declared (map told_by found.problems.items)) }
{
    match declaration {
        Declaration::Declared(_) => Ok(Found::refused(problems)),
        Declaration::Refused(others) => {
            let all = joined(problems, others)?;
            Ok(Found::refused(all))
        }
    }
}

/// The problems with others behind them.
fn joined(problems: Vec<Problem>, others: Vec<Problem>) -> Result<Vec<Problem>, OutOfMemory>
    ensures { IfOk result (λ all. map told_by all.items
        ≡ map told_by problems.items ++ map told_by others.items) }
{
    let mut all = problems;
    let mut others = others;
    all.append(&mut others)?;
    Ok(all)
}
