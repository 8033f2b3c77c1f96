//! From suites of test cases to which of them pass, on standard output.

use crate::hints::with_hint;
use crate::loading::{Loaded, LoadedCase, Unfit, load, placed};
use asl_cases::{Coverage, difference, play};
use asl_files::{end, print_text};
use asl_machine::Machine;
use asl_records::Declared;
use asl_results::{CaseResult, Format, SuiteResult, report};
use asl_texts::RunFault;
use asl_tree::{OutOfMemory, in_line, quoted};
use std::alloc::Global;
use std::rt::Files;

/// How many steps the run of a case takes at most.
const MOST_STEPS: u64 = 1_000_000;

/// What is said of a suite in which nothing is tested.
const NO_CASE: &str = "cases: there is no case";

/// Which suites are tested, and how it is told.
#[derive(Drop)]
pub struct TestRequest<'a> {
    /// Files, at least one.
    pub names: Vec<&'a str>,
    /// The name of the only case that is to be run.
    pub case: Option<&'a str>,
    pub format: Format,
    /// Whether it is told what no case took.
    pub coverage: bool,
}

/// What was tested so far.
#[derive(Drop)]
struct Tests {
    results: Vec<SuiteResult>,
    /// Lines for standard error, on suites that can't be used.
    notes: String,
    /// Such lines on suites that don't have the case that is asked for.
    absences: String,
}

/// Plays the cases of the suites in files, writes which pass to standard output, and gives the exit status: 1 where one
/// doesn't, 2 where a suite can't be used, has no case, or none has the case that is asked for, which is told on standard
/// error.
pub fn test_files<R: Files + Input + Print + Eprint + AllocGlobal>(
    rt: &R,
    request: &TestRequest<'_>,
) -> u8 {
    end(rt, tested_on(rt, request))
}

/// Writes which cases pass, and gives the exit status.
///
/// Refused: Write; OutOfMemory.
fn tested_on<R: Files + Input + Print + Eprint + AllocGlobal>(
    rt: &R,
    request: &TestRequest<'_>,
) -> Result<u8, RunFault> {
    let tests = tests_in(rt, request)?;
    let _ = rt.eprint(&tests.notes);
    let text = report(rt.alloc(), &tests.results, request.format)?;
    print_text(rt, &text)?;
    Ok(tests.status())
}

/// What the suites that are asked for come to.
fn tests_in<R: Files + Input + AllocGlobal>(
    rt: &R,
    request: &TestRequest<'_>,
) -> Result<Tests, OutOfMemory> {
    let mut tests = Tests {
        results: Vec::new(rt.alloc()),
        notes: String::new(rt.alloc()),
        absences: String::new(rt.alloc()),
    };
    for name in &request.names {
        match load(rt, name) {
            Ok(loaded) if loaded.cases.is_empty() => {
                tests.note(rt.alloc(), name, NO_CASE)?;
            }
            Ok(loaded) => tests.add(rt.alloc(), request, name, loaded)?,
            Err(Unfit::Why(why)) => tests.note(rt.alloc(), name, &why)?,
            Err(Unfit::Broken(place, why)) => {
                tests.note(rt.alloc(), &placed(rt.alloc(), name, place)?, &why)?;
            }
            Err(Unfit::OutOfMemory) => return Err(OutOfMemory),
        }
    }
    if tests.results.is_empty() {
        tests.notes.push_str(&tests.absences)?;
    }
    Ok(tests)
}

impl Tests {
    /// Notes why a suite can't be used.
    fn note(&mut self, alloc: Global, suite: &str, why: &str) -> Result<(), OutOfMemory> {
        let suite = in_line(alloc, suite)?;
        write!(self.notes, "{suite}: {why}\n")?;
        Ok(())
    }

    /// Plays the cases of a suite that are asked for, or notes that it has none of them.
    fn add(
        &mut self,
        alloc: Global,
        request: &TestRequest<'_>,
        name: &str,
        loaded: Loaded,
    ) -> Result<(), OutOfMemory> {
        match request.case {
            Some(case) if !loaded.cases.iter().any(|it| is_asked_for(request, it)) => {
                self.note_absence(alloc, name, case, &loaded.cases)
            }
            _ => {
                let result = result_of(alloc, request, name, loaded)?;
                self.results.push(result)?;
                Ok(())
            }
        }
    }

    /// Notes which cases a suite has that doesn't have the one of that name.
    fn note_absence(
        &mut self,
        alloc: Global,
        suite: &str,
        case: &str,
        cases: &[LoadedCase],
    ) -> Result<(), OutOfMemory> {
        let suite = in_line(alloc, suite)?;
        let case = quoted(alloc, case)?;
        let others = names_in_row(alloc, cases)?;
        write!(
            self.absences,
            "{suite}: there is no case {case}: its cases are {others}\n"
        )?;
        Ok(())
    }

    /// The exit status.
    fn status(&self) -> u8 {
        if !self.notes.is_empty() {
            2
        } else if self.results.iter().all(have_passed) {
            0
        } else {
            1
        }
    }
}

/// The names of cases in quotes, in a row.
fn names_in_row(alloc: Global, cases: &[LoadedCase]) -> Result<String, OutOfMemory> {
    let mut names = Vec::new(alloc);
    for case in cases {
        names.push(quoted(alloc, &case.name)?)?;
    }
    Ok(names.join(alloc, ", ")?)
}

/// Whether all cases of a suite have passed.
fn have_passed(tested: &SuiteResult) -> bool {
    tested.cases.iter().all(|case| case.difference.is_none())
}

/// Whether the case is to be played.
fn is_asked_for(request: &TestRequest<'_>, case: &LoadedCase) -> bool {
    match request.case {
        Some(name) => case.name.as_str() == name,
        None => true,
    }
}

/// Which cases of a suite pass, of those that are asked for.
fn result_of(
    alloc: Global,
    request: &TestRequest<'_>,
    name: &str,
    loaded: Loaded,
) -> Result<SuiteResult, OutOfMemory> {
    let Loaded {
        machine,
        declared,
        cases,
    } = loaded;
    let mut coverage = Coverage::new(alloc, &machine)?;
    let mut results = Vec::new(alloc);
    for case in cases {
        if is_asked_for(request, &case) {
            results.push(result_of_case(alloc, &machine, declared.as_ref(), case, &mut coverage)?)?;
        }
    }
    Ok(SuiteResult {
        name: String::from_str(alloc, name)?,
        cases: results,
        lacking: if request.coverage {
            Some(coverage.lacking(alloc, &machine)?)
        } else {
            None
        },
    })
}

/// Whether a case passes, and if it doesn't, what differs from what it expects.
fn result_of_case(
    alloc: Global,
    machine: &Machine,
    declared: Option<&Declared>,
    case: LoadedCase,
    coverage: &mut Coverage,
) -> Result<CaseResult, OutOfMemory> {
    let LoadedCase {
        name,
        input,
        mut answers,
        expected,
    } = case;
    let played = play(alloc, machine, declared, input, &mut answers, MOST_STEPS)?;
    coverage.add(machine, &played.trace);
    let difference = match difference(alloc, machine, declared, &played, &expected)? {
        Some(words) => Some(with_hint(alloc, machine, &played.trace, words)?),
        None => None,
    };
    Ok(CaseResult { name, difference })
}
