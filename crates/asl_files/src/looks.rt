//! What a text seems to be, by the names in it, where it is refused for another one.

use asl_texts::{RunFault, TextFault, TextRefusal, Which};
use asl_tree::{OutOfMemory, TreeRefusal, read_value};
use serde_json::{Map, Value};
use std::alloc::Global;

/// What a text seems to be.
#[derive(Clone, Copy, Drop)]
pub enum Look {
    Definition,
    Declared,
    Certificate,
}

/// The texts that a command was given, and in which order it takes them.
#[derive(Clone, Copy, Drop)]
pub struct Given<'t> {
    pub definition: &'t [u8],
    pub declared: Option<&'t [u8]>,
    pub certificate: Option<&'t [u8]>,
    /// The order, in words.
    pub order: &'static str,
}

impl Look {
    /// What it is, in words.
    pub fn words(self) -> &'static str {
        match self {
            Look::Definition => "a definition",
            Look::Declared => "declared shapes",
            Look::Certificate => "a certificate",
        }
    }

    /// Whether that text is meant.
    fn is(self, which: Which) -> bool {
        match (self, which) {
            (Look::Definition, Which::Definition)
            | (Look::Declared, Which::Declared)
            | (Look::Certificate, Which::Certificate) => true,
            _ => false,
        }
    }
}

impl<'t> Given<'t> {
    /// The text of that kind, where the command was given one.
    fn text(&self, which: Which) -> Option<&'t [u8]> {
        match which {
            Which::Definition => Some(self.definition),
            Which::Declared => self.declared,
            Which::Certificate => self.certificate,
            Which::Input | Which::Answers => None,
        }
    }
}

/// What a text seems to be that was refused for another one, with a line break behind it; empty where it seems to be none.
///
/// Refused: OutOfMemory.
pub(crate) fn hint_line(
    alloc: Global,
    fault: &RunFault,
    given: &Given<'_>,
) -> Result<String, OutOfMemory> {
    let RunFault::Text(refusal) = fault else {
        return Ok(String::new(alloc));
    };
    let look = match given.text(refusal.which) {
        Some(text) => other_look(alloc, text, refusal)?,
        None => None,
    };
    match look {
        Some(look) => {
            let (look, order) = (look.words(), given.order);
            Ok(format!(in alloc; "this looks like {look}; {order}\n")?)
        }
        None => Ok(String::new(alloc)),
    }
}

/// What a text that is refused seems to be, where that is something else than it was taken for.
///
/// Refused: OutOfMemory.
pub fn other_look(
    alloc: Global,
    text: &[u8],
    refusal: &TextRefusal,
) -> Result<Option<Look>, OutOfMemory> {
    match refusal.fault {
        TextFault::Def(_) | TextFault::Record(_) => {}
        TextFault::Tree(_) | TextFault::BadAnswer(_) | TextFault::OutOfMemory => return Ok(None),
    }
    match look_of(alloc, text)? {
        Some(look) if !look.is(refusal.which) => Ok(Some(look)),
        Some(_) | None => Ok(None),
    }
}

/// What a text seems to be; none where it is no object, or has the names of several of them or of none.
///
/// Refused: OutOfMemory.
pub fn look_of(alloc: Global, text: &[u8]) -> Result<Option<Look>, OutOfMemory> {
    match read_value(alloc, text) {
        Ok(Value::Object(members)) => Ok(look_of_members(&members)),
        Ok(_) | Err(TreeRefusal::NotJson | TreeRefusal::NotWhole) => Ok(None),
        Err(TreeRefusal::OutOfMemory) => Err(OutOfMemory),
    }
}

/// What an object with these members seems to be.
fn look_of_members(members: &Map<String, Value>) -> Option<Look> {
    let is_definition = members.contains_key("StartAt") || members.contains_key("States");
    let is_declared = members.contains_key("input") || members.contains_key("tasks");
    let is_certificate = members.contains_key("states")
        && (members.contains_key("version") || members.contains_key("output"));
    match (is_definition, is_declared, is_certificate) {
        (true, false, false) => Some(Look::Definition),
        (false, true, false) => Some(Look::Declared),
        (false, false, true) => Some(Look::Certificate),
        _ => None,
    }
}
