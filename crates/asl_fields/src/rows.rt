// The fields of a machine, of its states, and of what stands in these, a row a field (States Language, "Top-level
// fields", "State Types", "Errors").

ghost use Rattle.std.specs.Prelude.{◌≡◌, Some, option_map, map, if◌then◌else◌};
ghost use Rattle.asl_model.specs.DefinitionTable as model;
ghost use Rattle.asl_model.specs.ShapeSpelling.{is_among};
ghost use Rattle.asl_model.specs.StandsFor.{has_row as model_has_row};
ghost use Rattle.asl_fields.specs.View.{def_fault_view};
ghost use Rattle.asl_fields.specs.Rows.{every_table, rows_view, type_view, wanted_among as model_wanted_among, wanted_in as model_wanted_in, wanted_view};

use crate::refusals::DefFault;

/// What the value of a field has to be.
#[derive(Clone, Copy)]
pub enum Wanted {
    Text,
    /// A whole number above 0.
    Positive,
    /// A whole number, 0 or more.
    Count,
    /// Any number.
    Number,
    /// `true` or `false`.
    Truth,
    /// The text `JSONPath`.
    Language,
    /// A reference path.
    Path,
    /// A reference path or null.
    PathOrNull,
    /// A payload template.
    Template,
    /// A payload template in which paths to a Map's item are allowed.
    ItemTemplate,
    /// Any value whose numbers are whole.
    Any,
    /// Any such object.
    Config,
    /// An object of states.
    States,
    /// A machine of its own.
    Scope,
    /// A list of machines of their own, not empty.
    Scopes,
    /// A list of rules, not empty.
    Rules,
    /// A list of texts, not empty.
    Names,
    /// A list of retriers.
    Retriers,
    /// A list of catchers.
    Catchers,
}

impl Wanted {
    ghost use Rattle.asl_fields.specs.Reading.{is_read as model_is_read};

    /// Whether such a value is read where it is wanted, which finds what is wrong with it.
    pub(crate) fn is_read(self) -> bool
        ensures { result ≡ model_is_read (wanted_view self) }
    {
        matches!(
            self,
            Wanted::Path
                | Wanted::PathOrNull
                | Wanted::Template
                | Wanted::ItemTemplate
                | Wanted::Rules
        )
    }
}

/// A field of an object.
#[derive(Clone, Copy)]
pub struct Row {
    pub(crate) name: &'static str,
    pub(crate) wanted: Wanted,
    pub(crate) required: bool,
}

// A field that has to be there.
macro_rules! required {
    ($name:literal, $wanted:ident) => {
        Row {
            name: $name,
            wanted: Wanted::$wanted,
            required: true,
        }
    };
}

// A field that may be absent.
macro_rules! optional {
    ($name:literal, $wanted:ident) => {
        Row {
            name: $name,
            wanted: Wanted::$wanted,
            required: false,
        }
    };
}

/// A type of states.
#[derive(Clone, Copy)]
pub enum StateType {
    Pass,
    Task,
    Choice,
    Wait,
    Succeed,
    Fail,
    Parallel,
    Map,
}

/// The fields of the machine itself.
pub const MACHINE: [Row; 6] = [
    optional!("Version", Text),
    optional!("TimeoutSeconds", Positive),
    required!("StartAt", Text),
    required!("States", States),
    optional!("Comment", Text),
    optional!("QueryLanguage", Language),
];

/// The fields of a branch of a Parallel.
pub const BRANCH: [Row; 4] = [
    required!("StartAt", Text),
    required!("States", States),
    optional!("Comment", Text),
    optional!("QueryLanguage", Language),
];

/// The fields of the processor of a Map.
pub const PROCESSOR: [Row; 5] = [
    optional!("ProcessorConfig", Config),
    required!("StartAt", Text),
    required!("States", States),
    optional!("Comment", Text),
    optional!("QueryLanguage", Language),
];

/// The fields of a state of any type.
pub const EVERY_STATE: [Row; 3] = [
    required!("Type", Text),
    optional!("Comment", Text),
    optional!("QueryLanguage", Language),
];

/// The fields of a Pass state.
const PASS: [Row; 10] = [
    optional!("Parameters", Template),
    optional!("Result", Any),
    optional!("ResultPath", PathOrNull),
    optional!("Next", Text),
    optional!("End", Truth),
    optional!("InputPath", PathOrNull),
    optional!("OutputPath", PathOrNull),
    required!("Type", Text),
    optional!("Comment", Text),
    optional!("QueryLanguage", Language),
];

/// The fields of a Task state.
const TASK: [Row; 15] = [
    optional!("Parameters", Template),
    required!("Resource", Text),
    optional!("TimeoutSeconds", Positive),
    optional!("HeartbeatSeconds", Positive),
    optional!("ResultSelector", Template),
    optional!("Retry", Retriers),
    optional!("Catch", Catchers),
    optional!("ResultPath", PathOrNull),
    optional!("Next", Text),
    optional!("End", Truth),
    optional!("InputPath", PathOrNull),
    optional!("OutputPath", PathOrNull),
    required!("Type", Text),
    optional!("Comment", Text),
    optional!("QueryLanguage", Language),
];

/// The fields of a Choice state.
const CHOICE: [Row; 7] = [
    required!("Choices", Rules),
    optional!("Default", Text),
    optional!("InputPath", PathOrNull),
    optional!("OutputPath", PathOrNull),
    required!("Type", Text),
    optional!("Comment", Text),
    optional!("QueryLanguage", Language),
];

/// The fields of a Wait state.
const WAIT: [Row; 11] = [
    optional!("Seconds", Count),
    optional!("SecondsPath", Path),
    optional!("Timestamp", Text),
    optional!("TimestampPath", Path),
    optional!("Next", Text),
    optional!("End", Truth),
    optional!("InputPath", PathOrNull),
    optional!("OutputPath", PathOrNull),
    required!("Type", Text),
    optional!("Comment", Text),
    optional!("QueryLanguage", Language),
];

/// The fields of a Succeed state.
const SUCCEED: [Row; 5] = [
    optional!("InputPath", PathOrNull),
    optional!("OutputPath", PathOrNull),
    required!("Type", Text),
    optional!("Comment", Text),
    optional!("QueryLanguage", Language),
];

/// The fields of a Fail state.
const FAIL: [Row; 5] = [
    optional!("Error", Text),
    optional!("Cause", Text),
    required!("Type", Text),
    optional!("Comment", Text),
    optional!("QueryLanguage", Language),
];

/// The fields of a Parallel state.
const PARALLEL: [Row; 13] = [
    optional!("Parameters", Template),
    required!("Branches", Scopes),
    optional!("ResultSelector", Template),
    optional!("Retry", Retriers),
    optional!("Catch", Catchers),
    optional!("ResultPath", PathOrNull),
    optional!("Next", Text),
    optional!("End", Truth),
    optional!("InputPath", PathOrNull),
    optional!("OutputPath", PathOrNull),
    required!("Type", Text),
    optional!("Comment", Text),
    optional!("QueryLanguage", Language),
];

/// The fields of a Map state, the older names included.
const MAP: [Row; 17] = [
    optional!("ItemProcessor", Scope),
    optional!("Iterator", Scope),
    optional!("ItemsPath", Path),
    optional!("ItemSelector", ItemTemplate),
    optional!("Parameters", ItemTemplate),
    optional!("MaxConcurrency", Count),
    optional!("ResultSelector", Template),
    optional!("Retry", Retriers),
    optional!("Catch", Catchers),
    optional!("ResultPath", PathOrNull),
    optional!("Next", Text),
    optional!("End", Truth),
    optional!("InputPath", PathOrNull),
    optional!("OutputPath", PathOrNull),
    required!("Type", Text),
    optional!("Comment", Text),
    optional!("QueryLanguage", Language),
];

/// The fields of an element of `Retry`.
pub const RETRIER: [Row; 7] = [
    required!("ErrorEquals", Names),
    optional!("IntervalSeconds", Positive),
    optional!("MaxAttempts", Count),
    optional!("BackoffRate", Number),
    optional!("MaxDelaySeconds", Positive),
    optional!("JitterStrategy", Text),
    optional!("Comment", Text),
];

/// The fields of an element of `Catch`.
pub const CATCHER: [Row; 4] = [
    required!("ErrorEquals", Names),
    required!("Next", Text),
    optional!("ResultPath", PathOrNull),
    optional!("Comment", Text),
];

/// The fields of all objects of a definition.
const TABLES: [&[Row]; 13] = [
    &MACHINE, &BRANCH, &PROCESSOR, &PASS, &TASK, &CHOICE, &WAIT, &SUCCEED, &FAIL, &PARALLEL, &MAP,
    &RETRIER, &CATCHER,
];

/// The fields of parts of the language that are left out.
const LEFT_OUT: [&str; 19] = [
    "Arguments",
    "Assign",
    "CausePath",
    "Condition",
    "Credentials",
    "ErrorPath",
    "HeartbeatSecondsPath",
    "ItemBatcher",
    "ItemReader",
    "Items",
    "Label",
    "MaxConcurrencyPath",
    "Output",
    "ResultWriter",
    "TimeoutSecondsPath",
    "ToleratedFailureCount",
    "ToleratedFailureCountPath",
    "ToleratedFailurePercentage",
    "ToleratedFailurePercentagePath",
];

impl StateType {
    /// The type of this name; none where no type has it.
    pub fn named(name: &str) -> Option<StateType>
        ensures { option_map type_view result ≡ model.type_named name.now }
    {
        match name {
            "Pass" => Some(StateType::Pass),
            "Task" => Some(StateType::Task),
            "Choice" => Some(StateType::Choice),
            "Wait" => Some(StateType::Wait),
            "Succeed" => Some(StateType::Succeed),
            "Fail" => Some(StateType::Fail),
            "Parallel" => Some(StateType::Parallel),
            "Map" => Some(StateType::Map),
            _ => None,
        }
    }

    /// The fields of a state of this type.
    pub fn rows(self) -> &'static [Row]
        ensures { rows_view result.now ≡ model.rows_of (type_view self) }
    {
        match self {
            StateType::Pass => &PASS,
            StateType::Task => &TASK,
            StateType::Choice => &CHOICE,
            StateType::Wait => &WAIT,
            StateType::Succeed => &SUCCEED,
            StateType::Fail => &FAIL,
            StateType::Parallel => &PARALLEL,
            StateType::Map => &MAP,
        }
    }
}

/// What the value of a field of this name has to be; none where no object has such a field. A field has the same kind
/// wherever it may stand, but for the templates of a Map, in which paths to an item are allowed: of its `Parameters` this
/// tells those of the other states.
pub fn wanted_of(field: &str) -> Option<Wanted>
    ensures { option_map wanted_view result ≡ model_wanted_in field.now every_table }
{
    wanted_in(&TABLES, field)
}

/// What the first of the tables with a row of this name wants.
fn wanted_in(tables: &[&[Row]], name: &str) -> Option<Wanted>
    ensures { option_map wanted_view result
        ≡ model_wanted_in name.now (map (λ rows. rows_view rows.now) tables.now) }
{
    for rows in tables {
        if let Some(wanted) = wanted_among(rows, name) {
            return Some(wanted);
        }
    }
    None
}

/// What the first of the rows of this name wants.
fn wanted_among(rows: &[Row], name: &str) -> Option<Wanted>
    ensures { option_map wanted_view result ≡ model_wanted_among name.now (rows_view rows.now) }
{
    for row in rows {
        if row.name == name {
            return Some(row.wanted);
        }
    }
    None
}

/// Whether one of the rows is of the field of this name.
pub(crate) fn has_row(rows: &[Row], name: &str) -> bool
    ensures { result ≡ model_has_row name.now (rows_view rows.now) }
{
    for row in rows {
        if row.name == name {
            return true;
        }
    }
    false
}

/// What is wrong with a field that has no row: it is left out, or unknown.
pub(crate) fn foreign(name: &str) -> DefFault
    ensures { def_fault_view result
        ≡ Some
        (if is_among name.now model.left_out_fields then model.LeftOut else model.UnknownField) }
{
    if is_left_out(name) {
        DefFault::LeftOut
    } else {
        DefFault::UnknownField
    }
}

/// Whether a field of this name belongs to a part of the language that is left out.
fn is_left_out(name: &str) -> bool
    ensures { result ≡ is_among name.now model.left_out_fields }
{
    is_one_of(&LEFT_OUT, name)
}

/// Whether one of the texts is that name.
fn is_one_of(texts: &[&str], name: &str) -> bool
    ensures { result ≡ is_among name.now (map (λ text. text.now) texts.now) }
{
    for text in texts {
        if *text == name {
            return true;
        }
    }
    false
}
