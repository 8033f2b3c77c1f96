//! Suites of test cases with the files that they name.

use asl_breaks::refused_at;
use asl_cases::{mistake_in, mistake_in_answers};
use asl_files::{is_input, other_look, text_or_why};
use asl_machine::Machine;
use asl_places::Place;
use asl_records::Declared;
use asl_suites::{
    Case, CaseAnswers, Expected, Input as CaseInput, MockSource, Mocks, Suite, SuiteRefusal,
    read_mocks, read_suite,
};
use asl_texts::{
    Closing, RunFault, TextFault, TextRefusal, closing, read_declared_text, read_definition,
};
use asl_tree::{OutOfMemory, Tree, TreeRefusal, in_line, read};
use std::alloc::Global;
use std::rt::Files;

/// Why a suite can't be used.
#[derive(Drop)]
pub(crate) enum Unfit {
    /// In words, behind the place in the suite where it isn't as it should be, and behind the name of the file, where that is
    /// another one.
    Why(String),
    /// So of a text that breaks at that place.
    Broken(Place, String),
    OutOfMemory,
}

impl From<OutOfMemory> for Unfit {
    fn from(_error: OutOfMemory) -> Unfit {
        Unfit::OutOfMemory
    }
}

/// A suite that is read with all the files that it names.
#[derive(Drop)]
pub(crate) struct Loaded {
    pub(crate) machine: Machine,
    pub(crate) declared: Option<Declared>,
    pub(crate) cases: Vec<LoadedCase>,
}

/// A case that can be played.
#[derive(Drop)]
pub(crate) struct LoadedCase {
    pub(crate) name: String,
    pub(crate) input: Tree,
    pub(crate) answers: CaseAnswers,
    pub(crate) expected: Expected,
}

/// A file with mocks that a suite names.
#[derive(Drop)]
struct MockFile {
    path: String,
    mocks: Mocks,
}

/// The suite in a file, with the definition, the declared shapes, the mocks and the inputs that it names.
///
/// Refused: in words where one of these can't be read, or where a case has a name that the machine hasn't; OutOfMemory.
pub(crate) fn load<R: Files + Input + AllocGlobal>(rt: &R, name: &str) -> Result<Loaded, Unfit> {
    let Suite {
        definition,
        declared,
        mocks,
        cases,
    } = suite_in(rt, name)?;
    let machine = machine_beside(rt, name, &definition)?;
    let declared = declared_beside(rt, name, &declared)?;
    let cases = cases_beside(rt, name, &machine, &mocks, cases)?;
    Ok(Loaded {
        machine,
        declared,
        cases,
    })
}

/// The suite that the text of a file stands for.
///
/// Refused: in words where it can't be read, or is no suite; OutOfMemory.
fn suite_in<R: Files + Input + AllocGlobal>(rt: &R, name: &str) -> Result<Suite, Unfit> {
    match read_suite(rt.alloc(), tree_in(rt, name)?) {
        Ok(suite) => Ok(suite),
        Err(refusal) => Err(unfit_suite(rt.alloc(), refusal)?),
    }
}

/// The machine whose definition a suite names.
///
/// Refused: in words where its file can't be read, or is no definition; OutOfMemory.
fn machine_beside<R: Files + Input + AllocGlobal>(
    rt: &R,
    suite: &str,
    definition: &str,
) -> Result<Machine, Unfit> {
    match machine_of(rt, &beside(rt.alloc(), suite, definition)?) {
        Ok(machine) => Ok(machine),
        Err(why) => Err(at(rt.alloc(), "definition", why)?),
    }
}

/// The declared shapes that a suite names, where it names some.
///
/// Refused: in words where their file can't be read, or isn't declared shapes; OutOfMemory.
fn declared_beside<R: Files + Input + AllocGlobal>(
    rt: &R,
    suite: &str,
    declared: &Option<String>,
) -> Result<Option<Declared>, Unfit> {
    let Some(declared) = declared else {
        return Ok(None);
    };
    match declared_of(rt, &beside(rt.alloc(), suite, declared)?) {
        Ok(declared) => Ok(Some(declared)),
        Err(why) => Err(at(rt.alloc(), "declared", why)?),
    }
}

/// The mocks that a suite names, where it names some.
///
/// Refused: in words where they can't be read; OutOfMemory.
fn mocks_beside<R: Files + Input + AllocGlobal>(
    rt: &R,
    suite: &str,
    mocks: &Option<MockSource>,
) -> Result<Option<MockFile>, Unfit> {
    match mocks {
        Some(source) => {
            let path = beside(rt.alloc(), suite, &source.file)?;
            Ok(Some(mocks_in(rt, path, &source.state_machine)?))
        }
        None => Ok(None),
    }
}

/// The cases of a suite, with the mocks that it names, as they can be played.
///
/// Refused: in words where the mocks can't be read, or a case can't be played; OutOfMemory.
fn cases_beside<R: Files + Input + AllocGlobal>(
    rt: &R,
    suite: &str,
    machine: &Machine,
    mocks: &Option<MockSource>,
    cases: Vec<Case>,
) -> Result<Vec<LoadedCase>, Unfit> {
    let mocks = mocks_beside(rt, suite, mocks)?;
    load_cases(rt, suite, machine, &mocks, cases)
}

/// The cases of a suite, as they can be played.
///
/// Refused: in words where one can't; OutOfMemory.
fn load_cases<R: Files + Input + AllocGlobal>(
    rt: &R,
    suite: &str,
    machine: &Machine,
    mocks: &Option<MockFile>,
    cases: Vec<Case>,
) -> Result<Vec<LoadedCase>, Unfit> {
    let mut loaded = Vec::new(rt.alloc());
    for (number, case) in cases.into_iter().enumerate() {
        let case = load_case(rt, suite, number, machine, mocks, case)?;
        let case = without_mistake(rt.alloc(), number, machine, case)?;
        if loaded.push(case).is_err() {
            return Err(Unfit::OutOfMemory);
        }
    }
    Ok(loaded)
}

/// The case of that number, whose names are those of the machine.
///
/// Refused: in words where one isn't; OutOfMemory.
fn without_mistake(
    alloc: Global,
    number: usize,
    machine: &Machine,
    case: LoadedCase,
) -> Result<LoadedCase, Unfit> {
    match mistake_in(alloc, machine, &case.answers, &case.expected)? {
        Some(mistake) => Err(at_case(alloc, number, "", Unfit::Why(mistake))?),
        None => Ok(case),
    }
}

/// The case of that number, with its input and its answers.
///
/// Refused: in words where its input can't be read, or there is no such test case; OutOfMemory.
fn load_case<R: Files + Input + AllocGlobal>(
    rt: &R,
    suite: &str,
    number: usize,
    machine: &Machine,
    mocks: &Option<MockFile>,
    case: Case,
) -> Result<LoadedCase, Unfit> {
    let Case {
        name,
        input,
        answers,
        test_case,
        expected,
    } = case;
    Ok(LoadedCase {
        name,
        input: input_of(rt, suite, number, input)?,
        answers: match (test_case, mocks) {
            (Some(test_case), Some(mocks)) => {
                mocks.added_to(rt.alloc(), machine, answers, &test_case)?
            }
            _ => answers,
        },
        expected,
    })
}

/// The input of the case of that number.
///
/// Refused: in words where its file can't be read; OutOfMemory.
fn input_of<R: Files + Input + AllocGlobal>(
    rt: &R,
    suite: &str,
    number: usize,
    input: CaseInput,
) -> Result<Tree, Unfit> {
    let name = match input {
        CaseInput::Given(tree) => return Ok(tree),
        CaseInput::File(name) => name,
    };
    let path = beside(rt.alloc(), suite, &name)?;
    match tree_of(rt, &path) {
        Ok(tree) => Ok(tree),
        Err(why) => Err(at_case(rt.alloc(), number, ".inputFile", why)?),
    }
}

/// The same with the place in the suite of the case of that number, or of a field of it, in front.
fn at_case(alloc: Global, number: usize, field: &str, why: Unfit) -> Result<Unfit, OutOfMemory> {
    let place = format!(in alloc; "cases[{number}]{field}")?;
    at(alloc, &place, why)
}

impl MockFile {
    /// The answers of a case, and for states without some those of the test case of that name.
    ///
    /// Refused: in words where there is no such test case, or where it has a name that the machine hasn't; OutOfMemory.
    fn added_to(
        &self,
        alloc: Global,
        machine: &Machine,
        answers: CaseAnswers,
        name: &str,
    ) -> Result<CaseAnswers, Unfit> {
        let mocked = match self.mocks.answers(alloc, name) {
            Ok(mocked) => mocked,
            Err(refusal) => return Err(self.unfit(alloc, unfit_suite(alloc, refusal)?)?),
        };
        if let Some(mistake) = mistake_in_answers(alloc, machine, &mocked)? {
            let place = self.mocks.place_of(alloc, name)?;
            return Err(self.unfit(alloc, words_at(alloc, &place, &mistake)?)?);
        }
        Ok(answers.or_mocked(mocked)?)
    }

    /// That a suite can't be used for what stands in the file.
    fn unfit(&self, alloc: Global, why: Unfit) -> Result<Unfit, OutOfMemory> {
        unfit_mocks(alloc, &self.path, why)
    }
}

/// The mocks in a file for the state machine of that name.
///
/// Refused: in words where they can't be read; OutOfMemory.
fn mocks_in<R: Files + Input + AllocGlobal>(
    rt: &R,
    path: String,
    state_machine: &str,
) -> Result<MockFile, Unfit> {
    let tree = match tree_of(rt, &path) {
        Ok(tree) => tree,
        Err(why) => return Err(at(rt.alloc(), MOCKS, why)?),
    };
    match read_mocks(rt.alloc(), tree, state_machine) {
        Ok(mocks) => Ok(MockFile { path, mocks }),
        Err(refusal) => {
            let why = unfit_suite(rt.alloc(), refusal)?;
            Err(unfit_mocks(rt.alloc(), &path, why)?)
        }
    }
}

/// The place in a suite of the name of a mock file.
const MOCKS: &str = "mocks.file";

/// That a suite can't be used for what stands in the mock file of that path.
fn unfit_mocks(alloc: Global, path: &str, why: Unfit) -> Result<Unfit, OutOfMemory> {
    at(alloc, MOCKS, at(alloc, path, why)?)
}

/// The machine that the text of a file stands for.
///
/// Refused: in words where it can't be read, or is no definition; OutOfMemory.
fn machine_of<R: Files + Input + AllocGlobal>(rt: &R, path: &str) -> Result<Machine, Unfit> {
    let text = text_of(rt, path)?;
    match read_definition(rt.alloc(), &text) {
        Ok(machine) => Ok(machine),
        Err(fault) => Err(at(rt.alloc(), path, unfit_text(rt.alloc(), &text, fault)?)?),
    }
}

/// The declared shapes that the text of a file stands for.
///
/// Refused: in words where it can't be read, or isn't declared shapes; OutOfMemory.
fn declared_of<R: Files + Input + AllocGlobal>(rt: &R, path: &str) -> Result<Declared, Unfit> {
    let text = text_of(rt, path)?;
    match read_declared_text(rt.alloc(), &text) {
        Ok(declared) => Ok(declared),
        Err(fault) => Err(at(rt.alloc(), path, unfit_text(rt.alloc(), &text, fault)?)?),
    }
}

/// All bytes of a file that a suite names.
///
/// Refused: in words where it can't be read; OutOfMemory.
fn text_of<R: Files + Input + AllocGlobal>(rt: &R, path: &str) -> Result<Vec<u8>, Unfit> {
    match text_or_why(rt, path) {
        Ok(text) => Ok(text),
        Err(why) => Err(at(rt.alloc(), path, Unfit::Why(why.words(rt.alloc())?))?),
    }
}

/// The tree that the text of a file is which a suite names.
///
/// Refused: in words where it can't be read, or is no JSON with whole numbers; OutOfMemory.
fn tree_of<R: Files + Input + AllocGlobal>(rt: &R, path: &str) -> Result<Tree, Unfit> {
    match tree_in(rt, path) {
        Ok(tree) => Ok(tree),
        Err(why) => Err(at(rt.alloc(), path, why)?),
    }
}

/// The tree that the text of a file is.
///
/// Refused: in words where it can't be read, or is no JSON with whole numbers; OutOfMemory.
fn tree_in<R: Files + Input + AllocGlobal>(rt: &R, path: &str) -> Result<Tree, Unfit> {
    let text = match text_or_why(rt, path) {
        Ok(text) => text,
        Err(why) => return Err(Unfit::Why(why.words(rt.alloc())?)),
    };
    match read(rt.alloc(), &text) {
        Ok(tree) => Ok(tree),
        Err(refusal) => Err(unfit_tree(rt.alloc(), &text, &refusal)?),
    }
}

/// That a file is no suite, or has no such mocks.
fn unfit_suite(alloc: Global, refusal: SuiteRefusal) -> Result<Unfit, OutOfMemory> {
    let SuiteRefusal::Wrong { place, fault } = refusal else {
        return Ok(Unfit::OutOfMemory);
    };
    let why = Unfit::Why(fault.words(alloc)?);
    if place.is_empty() {
        Ok(why)
    } else {
        at(alloc, &place, why)
    }
}

/// That the text of a file is no JSON, or has a number that isn't whole.
fn unfit_tree(alloc: Global, text: &[u8], refusal: &TreeRefusal) -> Result<Unfit, OutOfMemory> {
    match refused_at(alloc, text, refusal)? {
        Some((place, words)) => Ok(Unfit::Broken(place, words)),
        None => Ok(Unfit::OutOfMemory),
    }
}

/// That a text is refused as a definition or as declared shapes.
fn unfit_text(alloc: Global, text: &[u8], fault: RunFault) -> Result<Unfit, OutOfMemory> {
    match fault {
        RunFault::OutOfMemory
        | RunFault::Text(
            TextRefusal {
                fault: TextFault::OutOfMemory,
                ..
            },
        ) => Ok(Unfit::OutOfMemory),
        RunFault::Text(
            TextRefusal {
                fault: TextFault::Tree(refusal),
                ..
            },
        ) => unfit_tree(alloc, text, &refusal),
        fault => Ok(Unfit::Why(refused_words(alloc, text, fault)?)),
    }
}

/// The fault of a text that is refused, and behind it what the text seems to be, where that is something else.
fn refused_words(alloc: Global, text: &[u8], fault: RunFault) -> Result<String, OutOfMemory> {
    let look = match &fault {
        RunFault::Text(refusal) => other_look(alloc, text, refusal)?,
        _ => None,
    };
    let (_, line) = closing(alloc, &Closing::Fault(fault))?;
    let line = line.trim_end();
    match look {
        Some(look) => {
            let look = look.words();
            Ok(format!(in alloc; "{line}; this looks like {look}")?)
        }
        None => Ok(String::from_str(alloc, line)?),
    }
}

/// The same with that place, or that name of a file, in front.
fn at(alloc: Global, place: &str, why: Unfit) -> Result<Unfit, OutOfMemory> {
    match why {
        Unfit::Why(words) => words_at(alloc, place, &words),
        Unfit::Broken(found, words) => words_at(alloc, &placed(alloc, place, found)?, &words),
        Unfit::OutOfMemory => Ok(Unfit::OutOfMemory),
    }
}

/// Why a suite can't be used, behind that place, or that name of a file.
fn words_at(alloc: Global, place: &str, words: &str) -> Result<Unfit, OutOfMemory> {
    let place = in_line(alloc, place)?;
    Ok(Unfit::Why(format!(in alloc; "{place}: {words}")?))
}

/// The name of a file with a place in it.
pub(crate) fn placed(alloc: Global, name: &str, place: Place) -> Result<String, OutOfMemory> {
    let Place { line, column } = place;
    let name = in_line(alloc, name)?;
    Ok(format!(in alloc; "{name}:{line}:{column}")?)
}

/// The path of a file that a suite names: from the suite's own folder on, where it isn't from the root. None of them is
/// standard input.
fn beside(alloc: Global, suite: &str, name: &str) -> Result<String, OutOfMemory> {
    let (folder, slash) = match suite.rsplit_once('/') {
        _ if name.starts_with('/') => ("", ""),
        Some((folder, _)) => (folder, "/"),
        None if is_input(name) => (".", "/"),
        None => ("", ""),
    };
    Ok(format!(in alloc; "{folder}{slash}{name}")?)
}
