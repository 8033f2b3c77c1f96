//! What usually helps.

use crate::causes::{Cause, Way};
use crate::flows::Explainer;
use crate::places::{Place, it_or};
use crate::sources::Source;
use crate::there::ITEM;
use asl_check::{FindingFault, Located};
use asl_diagnostics::rule_of_finding;
use asl_numbered::Shapes;
use asl_phrases::{Apart, Lack, Stop, difference, stop_of};
use asl_state_edges::{Broken, Step};
use asl_tree::{OutOfMemory, quoted};

impl<'m> Explainer<'m> {
    /// What usually helps against a finding; `on_some_way` says that there is another way on which the rule isn't broken.
    pub(crate) fn help_for(
        &self,
        shapes: &mut Shapes,
        located: &Located,
        cause: Option<&Cause<'m>>,
        on_some_way: bool,
    ) -> Result<String, OutOfMemory> {
        let finding = &located.finding;
        match finding.fault {
            FindingFault::TaskUndeclared => self.help_to_declare(&finding.state),
            FindingFault::TaskUnknown => self.help_to_remove(&finding.state),
            FindingFault::NoDefault => self.sentence(
                "Add a Default, if only to a Fail; or, where the last rule is true whenever no other is, make its \
                Next the Default in its place.",
            ),
            FindingFault::PathMayBeMissing => {
                self.help_with_path(shapes, finding.fault, cause, on_some_way)
            }
            FindingFault::IntrinsicMayFail => match cause {
                Some(cause) => self.help_with_call(shapes, cause, &finding.field),
                None => self.general(finding.fault),
            },
            FindingFault::PayloadNotTaken => self.help_with_payload(shapes, finding.fault, cause),
            FindingFault::ResultMayNotFit => self.help_to_place(&finding.field),
            FindingFault::WrongKind => self.help_with_kind(&finding.field),
            fault => self.general(fault),
        }
    }

    /// A text of its own.
    fn sentence(&self, words: &str) -> Result<String, OutOfMemory> {
        Ok(String::from_str(self.alloc, words)?)
    }

    /// What generally helps against a fault.
    fn general(&self, fault: FindingFault) -> Result<String, OutOfMemory> {
        self.sentence(rule_of_finding(fault).help)
    }

    /// To declare a task.
    fn help_to_declare(&self, name: &str) -> Result<String, OutOfMemory> {
        let name = quoted(self.alloc, name)?;
        let entry = "{\"takes\": true, \"gives\": true}";
        Ok(format!(in self.alloc;
            "Add an entry to the declared \"tasks\": {name}: {entry}, with shapes in place of true, the shape of anything."
        )?)
    }

    /// To remove what is declared of a name that no Task has.
    fn help_to_remove(&self, name: &str) -> Result<String, OutOfMemory> {
        match self.state_named(name) {
            Some(state) => {
                let kind = state.kind.name();
                Ok(format!(in self.alloc;
                    "Take the entry out of \"tasks\": the state of this name is a {kind}, and only a Task has one."
                )?)
            }
            None => self.sentence(
                "Correct the name in \"tasks\" to that of a Task state, or take the entry out: no state has this name.",
            ),
        }
    }

    /// To give a task what it takes.
    fn help_with_payload(
        &self,
        shapes: &mut Shapes,
        fault: FindingFault,
        cause: Option<&Cause>,
    ) -> Result<String, OutOfMemory> {
        match self.lack_of_payload(shapes, cause)? {
            Some(Lack::Absent) => self.sentence(
                "Put the field into the payload by Parameters, or see in the states in front that it is always there; or, where \
                the task does without it, take it out of \"required\" in what it is declared to take.",
            ),
            Some(Lack::Surplus) => self.sentence(
                "Name by Parameters only what the task takes; or, where it takes other fields, too, leave \
                \"additionalProperties\": false out of what it is declared to take.",
            ),
            Some(Lack::Kind) => self.sentence(
                "Let only what is of a kind that the task takes come here, by IsNull, IsNumeric, IsString or IsBoolean in a Choice \
                in front and by that rule alone; see in the states in front that it is always of it; or declare that the task \
                `takes` more or that the machine's input and other tasks give less.",
            ),
            Some(Lack::Other) | None => self.general(fault),
        }
    }

    /// How a payload may lack what its task takes.
    fn lack_of_payload(
        &self,
        shapes: &mut Shapes,
        cause: Option<&Cause>,
    ) -> Result<Option<Lack>, OutOfMemory> {
        match cause {
            Some(cause) => Ok(
                self.apart_of_payload(shapes, cause)?
                    .map(|apart| apart.lack),
            ),
            None => Ok(None),
        }
    }

    /// Where a payload may lack what its task takes.
    pub(crate) fn apart_of_payload(
        &self,
        shapes: &mut Shapes,
        cause: &Cause,
    ) -> Result<Option<Apart>, OutOfMemory> {
        match (cause.step, self.machine.name(cause.state)) {
            (Step::Flows(edge), Some(name)) => {
                let takes = self.taken_by(shapes, name)?;
                Ok(Some(difference(self.alloc, shapes, edge.flowing, takes, "the task")?))
            }
            _ => Ok(None),
        }
    }

    /// To place a result where it fits.
    fn help_to_place(&self, field: &str) -> Result<String, OutOfMemory> {
        let result = match field {
            "Catch" => "the error output",
            _ => "the result",
        };
        Ok(format!(in self.alloc;
            "Place {result} under a name at the top of an input that is always an object, as in \"$.result\"; on a longer \
            path each part in front of the last has to be an object wherever it is there. \"$\" replaces the whole input, null \
            keeps it and drops {result}."
        )?)
    }

    /// To see that what a path names is there.
    fn help_with_path(
        &self,
        shapes: &mut Shapes,
        fault: FindingFault,
        cause: Option<&Cause<'m>>,
        on_some_way: bool,
    ) -> Result<String, OutOfMemory> {
        let Some(cause) = cause else {
            return self.general(fault);
        };
        let Step::Breaks(
            Broken {
                field,
                path: Some(path),
                ..
            },
        ) = cause.step
        else {
            return self.general(fault);
        };
        match stop_of(self.alloc, shapes, path.shape, path.path, path.segment)? {
            Some(stop) => {
                let place = self.place_of_stop(shapes, cause, field, &path, &stop)?;
                self.help_at_place(shapes, field, &place, &stop, cause, on_some_way)
            }
            None => self.general(fault),
        }
    }

    /// To see that there is something at a place, by what it comes from.
    fn help_at_place(
        &self,
        shapes: &Shapes,
        field: &str,
        place: &Place,
        stop: &Stop,
        cause: &Cause,
        on_some_way: bool,
    ) -> Result<String, OutOfMemory> {
        match (self.maker_of(place, cause), place.source) {
            (Some(maker), _) => self.help_with_maker(shapes, field, place, stop, maker),
            (None, Some(Source::Emptied)) => self.help_with_emptied(place),
            (None, Some(Source::Built)) => self.help_with_built(field, place, stop, cause),
            _ if stop.is_field => self.help_with_field(field, place, stop, cause, on_some_way),
            _ => self.help_with_element(place),
        }
    }

    /// To see that an element is there.
    fn help_with_element(&self, place: &Place) -> Result<String, OutOfMemory> {
        let list = match place.front.as_str() {
            "$" => place.whole,
            front => front,
        };
        Ok(format!(in self.alloc;
            "See that {list} is always a list that is long enough: where it comes from the machine's input or from a task, \
            \"prefixItems\" with \"minItems\" declares the elements that are always there. A Map goes over all elements, however \
            many."
        )?)
    }

    /// To see that a field is there.
    fn help_with_field(
        &self,
        field: &str,
        place: &Place,
        stop: &Stop,
        cause: &Cause,
        on_some_way: bool,
    ) -> Result<String, OutOfMemory> {
        let is_set = on_some_way && self.goes_into_input(cause.state, field);
        let named = if is_set { &place.absent } else { &place.unsure };
        let test = if stop.is_narrowed {
            self.words_on_test(field, place, named)?
        } else {
            String::new(self.alloc)
        };
        let have = self.help_to_have(place, cause, on_some_way, is_set)?;
        let limit = self.limit_of_test(place, stop)?;
        Ok(format!(in self.alloc; "{have}{test}.{limit}")?)
    }

    /// That a test for a field doesn't do where a value may be anything; empty where it may not.
    fn limit_of_test(&self, place: &Place, stop: &Stop) -> Result<String, OutOfMemory> {
        if !stop.is_anything {
            return Ok(String::new(self.alloc));
        }
        let value = match (place.source, place.front.as_str()) {
            (Some(Source::Work), "$") => place.whole,
            (_, front) => front,
        };
        Ok(format!(in self.alloc;
            " As long as {value} may be anything, IsPresent doesn't make sure of its fields."
        )?)
    }

    /// To have a field on every way; `is_set` says that a state in front can set it.
    fn help_to_have(
        &self,
        place: &Place,
        cause: &Cause,
        on_some_way: bool,
        is_set: bool,
    ) -> Result<String, OutOfMemory> {
        if let Some(Source::Work) = place.source {
            self.help_with_result(place, cause)
        } else if on_some_way {
            self.help_on_one_way(place, is_set)
        } else {
            self.help_on_all_ways(place, cause)
        }
    }

    /// To have a field also on the way on which it may be absent; `is_set` says that a state in front can set it.
    fn help_on_one_way(&self, place: &Place, is_set: bool) -> Result<String, OutOfMemory> {
        let Place {
            whole,
            absent,
            unsure,
            ..
        } = place;
        if is_set {
            Ok(format!(in self.alloc;
                "Set {absent} on that way, too, for example by a Pass with Result and ResultPath"
            )?)
        } else {
            Ok(format!(in self.alloc; "See that {whole} has {unsure} on that way, too")?)
        }
    }

    /// To have a field that may be absent on all ways.
    fn help_on_all_ways(&self, place: &Place, cause: &Cause) -> Result<String, OutOfMemory> {
        let (whole, unsure) = (place.whole, place.unsure.as_str());
        if whole == ITEM {
            Ok(format!(in self.alloc;
                "See that each item has {unsure}; where the list comes from the machine's input or from a task, and each item always \
                has it, say so in what is declared of its \"items\""
            )?)
        } else if self.is_at_start(cause) {
            Ok(format!(in self.alloc;
                "See that {whole} has {unsure}; if the machine's input always has it, say so in the declared \"input\""
            )?)
        } else {
            Ok(format!(in self.alloc;
                "See that {whole} has {unsure}: set it in a state in front, keep it where a state in front drops it, or declare it \
                as required where it comes from the machine's input or from a task that always gives it"
            )?)
        }
    }

    /// How to test for a field; `named` is the path that was told last.
    fn words_on_test(
        &self,
        field: &str,
        place: &Place,
        named: &str,
    ) -> Result<String, OutOfMemory> {
        let alloc = self.alloc;
        if let Some(Source::Work) = place.source {
            let left_out = if field == "OutputPath" { field } else { "it" };
            let Some(behind) = &place.behind else {
                return Ok(format!(in alloc; "; or do without {left_out} here")?);
            };
            let it = it_or(named, behind);
            return Ok(format!(in alloc;
                "; or do without {left_out} here, and test for {it} by IsPresent in a Choice behind"
            )?);
        }
        if place.whole == ITEM {
            let words =
                "; or hand on the whole item, and test for it by IsPresent in a Choice with which the processor begins";
            return self.sentence(words);
        }
        if field == "Choices" {
            let it = it_or(named, &place.own);
            return Ok(format!(in alloc;
                "; or test for {it} first in the rule, by an And with IsPresent in front"
            )?);
        }
        let it = it_or(named, &place.unsure);
        Ok(format!(in alloc;
            "; or test for {it} by IsPresent in a Choice in front, and come here by that rule alone"
        )?)
    }

    /// To have a field in a result.
    fn help_with_result(&self, place: &Place, cause: &Cause) -> Result<String, OutOfMemory> {
        let unsure = place.unsure.as_str();
        match self.machine.state(cause.state) {
            Some(state) if state.kind.is_task() => Ok(format!(in self.alloc;
                "If the task always gives {unsure}, say so in its declared \"gives\""
            )?),
            _ => Ok(format!(in self.alloc; "See that the result has {unsure}")?),
        }
    }

    /// Whether the data is the machine's input as it is given.
    pub(crate) fn is_at_start(&self, cause: &Cause) -> bool {
        match cause.way {
            Way::Visit(number) => match self.flows.visits.get(number) {
                Some(visit) => visit.arrival.origin.is_none(),
                None => false,
            },
            Way::Arrival(_) | Way::Together => false,
        }
    }

    /// To have a value of the right kind.
    fn help_with_kind(&self, field: &str) -> Result<String, OutOfMemory> {
        let (wanted, test) = match field {
            "SecondsPath" => (
                "whole number",
                "; or let only numbers come here, by IsNumeric in a Choice in front",
            ),
            "TimestampPath" => (
                "text",
                "; or let only texts come here, by IsString in a Choice in front",
            ),
            _ => ("list", ""),
        };
        Ok(format!(in self.alloc;
            "Let {field} name a {wanted}: where it is always one, say so in what is declared of the machine's input or of the task \
            that it comes from{test}."
        )?)
    }
}
