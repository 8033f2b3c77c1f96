//! Texts in a definition that are taken for what they say, and hardly meant so: paths and calls in fields whose names don't end
//! in `.$`, and names of errors that begin as those of the language and are none of them.
ghost use Rattle.std.specs.Prelude.{◌≡◌, OnOk};
ghost use Rattle.asl_problems.specs.Told.{errors_of};

use crate::problems::{Problem, Which};
use crate::scopes::{Inner, Text};
use crate::slips::{Slip, add_each};
use crate::sources::Outlined;
use crate::telling::index_of;
use asl_diagnostics::{Rule, rule_of_path_as_text, rule_of_unknown_error};
use asl_faults::{SUFFIX, refusal_of, text_at, text_from, values_within};
use asl_places::{Member, Spot, members_by_name};
use asl_template::SpellingRefusal;
use asl_tree::OutOfMemory;
use json::Scratch;
use std::alloc::Global;

/// The fields of a state that hold templates.
const TEMPLATES: [&str; 3] = ["Parameters", "ItemSelector", "ResultSelector"];

/// How the names of errors begin that the language keeps for itself.
const RESERVED: &str = "States.";

/// Those that it has (States Language, Appendix A), and those that AWS Step Functions raises beside them.
const ERRORS: [&str; 17] = [
    "States.ALL",
    "States.BranchFailed",
    "States.DataLimitExceeded",
    "States.ExceedToleratedFailureThreshold",
    "States.HeartbeatTimeout",
    "States.Http.Socket",
    "States.IntrinsicFailure",
    "States.ItemReaderFailed",
    "States.NoChoiceMatched",
    "States.ParameterPathFailure",
    "States.Permissions",
    "States.QueryEvaluationError",
    "States.ResultPathMatchFailure",
    "States.ResultWriterFailed",
    "States.Runtime",
    "States.TaskFailed",
    "States.Timeout",
];

/// What the service raises for each status of HTTP begins so.
const HTTP_STATUS: &str = "States.Http.StatusCode.";

/// A state, and all that is looked through for its slips.
#[derive(Clone, Copy)]
struct Around<'p, 's, 'f, 'a> {
    definition: Text<'p, 's, 'f, 'a>,
    name: &'a str,
    state: Member,
}

/// Adds each text of a template in the definition that would be read as a path or a call, or that goes into the context object,
/// and stands for itself, since the name of its field doesn't end in `.$`; and each name of an error in a retrier or a catcher
/// that begins with `States.` and is neither one of the language nor one that AWS Step Functions raises beside them. A text
/// that is no JSON has none. Refuses only where an allocation was refused.
pub fn add_misspelt(
    alloc: Global,
    problems: &mut Vec<Problem>,
    definition: &[u8],
) -> Result<(), OutOfMemory>
    ensures { OnOk result (errors_of problems.new.items ≡ errors_of problems.old.items) }
{
    let mut scratch = Scratch::new(alloc);
    let outlined = Outlined::read(alloc, definition, &mut scratch)?;
    let slips = slips_of(alloc, &outlined, definition)?;
    add_each(alloc, problems, &slips)
}

/// The slips in an outlined text.
fn slips_of<'a>(
    alloc: Global,
    outlined: &Outlined<'a>,
    text: &[u8],
) -> Result<Vec<Slip<'a>>, OutOfMemory> {
    match index_of(alloc, outlined, text)? {
        Some(index) => slips_in(Text {
            alloc,
            text,
            index: &index,
        }),
        None => Ok(Vec::new(alloc)),
    }
}

/// The slips in the states of a definition.
fn slips_in<'a>(definition: Text<'_, '_, '_, 'a>) -> Result<Vec<Slip<'a>>, OutOfMemory> {
    let mut slips = Vec::new(definition.alloc);
    let states = definition.states()?;
    for (name, alike) in states.iter() {
        for scoped in alike {
            let around = Around {
                definition,
                name: *name,
                state: scoped.state,
            };
            around.push_templates(&mut slips)?;
            around.push_troubles(&mut slips)?;
        }
    }
    Ok(slips)
}

impl<'a> Around<'_, '_, '_, 'a> {
    /// Puts those in the state's templates behind the others.
    fn push_templates(self, slips: &mut Vec<Slip<'a>>) -> Result<(), OutOfMemory> {
        for field in &TEMPLATES {
            if let Some(template) = self.definition.index.member(self.state.value, field) {
                self.push_template(field, template.value, slips)?;
            }
        }
        Ok(())
    }

    /// Puts those in one template behind the others.
    fn push_template(
        self,
        field: &'static str,
        template: Spot,
        slips: &mut Vec<Slip<'a>>,
    ) -> Result<(), OutOfMemory> {
        let Text { alloc, text, index } = self.definition;
        for value in &values_within(alloc, index.outline(), text.len(), template)? {
            self.push_fields(field, *value, slips)?;
            self.push_elements(field, *value, slips)?;
        }
        Ok(())
    }

    /// Puts those behind the others that are fields of an object in a template.
    fn push_fields(
        self,
        field: &'static str,
        object: Spot,
        slips: &mut Vec<Slip<'a>>,
    ) -> Result<(), OutOfMemory> {
        let Text { alloc, index, .. } = self.definition;
        for (name, member) in members_by_name(alloc, index.outline(), object)?.iter() {
            if !name.ends_with(SUFFIX) {
                self.push_path(field, member.value, slips)?;
            }
        }
        Ok(())
    }

    /// Puts those behind the others that are elements of a list in a template.
    fn push_elements(
        self,
        field: &'static str,
        list: Spot,
        slips: &mut Vec<Slip<'a>>,
    ) -> Result<(), OutOfMemory> {
        let Text { alloc, index, .. } = self.definition;
        for element in &index.elements(alloc, list)? {
            self.push_path(field, *element, slips)?;
        }
        Ok(())
    }

    /// Puts a value behind the others if it is a text that reads as a path or a call.
    fn push_path(
        self,
        field: &'static str,
        value: Spot,
        slips: &mut Vec<Slip<'a>>,
    ) -> Result<(), OutOfMemory> {
        let Some(text) = self.text_of(value)? else {
            return Ok(());
        };
        if !reads_as_path(self.definition.alloc, &text)? {
            return Ok(());
        }
        let said = "stands for itself here: it isn't the value of a field whose name ends in `.$`";
        slips.push(self.slip(field, value, rule_of_path_as_text(), said))?;
        Ok(())
    }

    /// Puts the names of errors in the state's retriers and catchers behind the others that are none of the language.
    fn push_troubles(self, slips: &mut Vec<Slip<'a>>) -> Result<(), OutOfMemory> {
        for inner in &self.definition.objects_in(self.state)? {
            if !inner.nested.is_scope() {
                self.push_errors(*inner, slips)?;
            }
        }
        Ok(())
    }

    /// Puts those in one retrier or catcher behind the others.
    fn push_errors(self, inner: Inner, slips: &mut Vec<Slip<'a>>) -> Result<(), OutOfMemory> {
        let Text { alloc, index, .. } = self.definition;
        let Some(names) = index.member(inner.value, "ErrorEquals") else {
            return Ok(());
        };
        for name in &index.elements(alloc, names.value)? {
            self.push_error(inner.nested.field, *name, slips)?;
        }
        Ok(())
    }

    /// Puts the name of an error behind the others if it begins as those of the language and is none of them.
    fn push_error(
        self,
        field: &'static str,
        name: Spot,
        slips: &mut Vec<Slip<'a>>,
    ) -> Result<(), OutOfMemory> {
        match self.text_of(name)? {
            Some(text) if is_unknown(&text) => {
                let said =
                    "is no error of the States Language, which keeps the names that begin with `States.` for itself";
                slips.push(self.slip(field, name, rule_of_unknown_error(), said))?;
            }
            _ => {}
        }
        Ok(())
    }

    /// The text that a value is, if it is one.
    fn text_of(self, value: Spot) -> Result<Option<String>, OutOfMemory> {
        let Text { alloc, text, index } = self.definition;
        text_at(alloc, text_from(text, index.offset(value)))
    }

    /// The slip at that value.
    fn slip(
        self,
        field: &'static str,
        value: Spot,
        rule: &'static Rule,
        said: &'static str,
    ) -> Slip<'a> {
        Slip {
            which: Which::Definition,
            byte: self.definition.index.offset(value),
            rule,
            said,
            state: Some(self.name),
            field: Some(field),
        }
    }
}

/// Whether a text is a path or a call, as the value of a field is whose name ends in `.$`. A dollar sign alone may be meant.
fn reads_as_path(alloc: Global, text: &str) -> Result<bool, OutOfMemory> {
    if text == "$" || !(text.starts_with('$') || text.starts_with(RESERVED)) {
        return Ok(false);
    }
    match refusal_of(alloc, text, true)? {
        None | Some(SpellingRefusal::LeftOutContext) => Ok(true),
        Some(_) => Ok(false),
    }
}

/// Whether the name of an error begins as those of the language, and is none of them.
fn is_unknown(name: &str) -> bool {
    name.starts_with(RESERVED)
        && !name.starts_with(HTTP_STATUS)
        && !ERRORS.iter().any(|known| *known == name)
}
