//! Places of complaints that a state has by two of its fields.
use crate::complaint_places::add;
use crate::definition_places::DefinitionPlaces;
use asl_faults::{Found, text_from, whole_at};
use asl_places::{Member, Spot};
use asl_tree::OutOfMemory;

/// The types of states that go on by `Next` or by `End`.
const GOING_ON: [&str; 5] = ["Pass", "Task", "Wait", "Parallel", "Map"];

impl DefinitionPlaces<'_, '_, '_, '_> {
    /// Adds the field of a state, or its name, where it has not exactly one of `Next` and `"End": true`, and needs one.
    pub(crate) fn add_next_or_end(
        &self,
        state: Member,
        field: &str,
        found: &mut Vec<Found>,
    ) -> Result<(), OutOfMemory> {
        match self.is_one_of(state, &GOING_ON)? && self.goes_on_wrongly(state) {
            true => add(self.index.field_or_name(state, field), found),
            false => Ok(()),
        }
    }

    /// Adds the field of a Task, or its name, where its heartbeat isn't below its timeout.
    pub(crate) fn add_heartbeat(
        &self,
        state: Member,
        field: &str,
        found: &mut Vec<Found>,
    ) -> Result<(), OutOfMemory> {
        match self.is_one_of(state, &["Task"])? && self.has_late_heartbeat(state) {
            true => add(self.index.field_or_name(state, field), found),
            false => Ok(()),
        }
    }

    /// Whether the type of a state is one of these.
    fn is_one_of(&self, state: Member, types: &[&str]) -> Result<bool, OutOfMemory> {
        let said = self.outlined().type_of(state)?;
        Ok(types.iter().any(|it| said.as_deref() == Some(*it)))
    }

    /// Whether a state has both of `Next` and `"End": true`, or neither. Of an `End` that is no truth value nothing is said.
    fn goes_on_wrongly(&self, state: Member) -> bool {
        let has_next = self.index.member(state.value, "Next").is_some();
        let ends = match self.index.member(state.value, "End") {
            Some(end) => self.truth_at(end.value),
            None => Some(false),
        };
        ends == Some(has_next)
    }

    /// Whether a state has a heartbeat and a timeout that are whole numbers, and the first isn't below the second.
    fn has_late_heartbeat(&self, state: Member) -> bool {
        let heartbeat = self.whole_in(state, "HeartbeatSeconds");
        let timeout = self.whole_in(state, "TimeoutSeconds");
        match (heartbeat, timeout) {
            (Some(heartbeat), Some(timeout)) => heartbeat >= timeout,
            _ => false,
        }
    }

    /// The truth value at the spot, if one stands there.
    fn truth_at(&self, value: Spot) -> Option<bool> {
        match self.text_at_spot(value).first() {
            Some(b't') => Some(true),
            Some(b'f') => Some(false),
            _ => None,
        }
    }

    /// The whole number in a field of a state, if one stands there.
    fn whole_in(&self, state: Member, field: &str) -> Option<i64> {
        let found = self.index.member(state.value, field)?;
        whole_at(self.text_at_spot(found.value))
    }

    /// The text from the spot on.
    fn text_at_spot(&self, spot: Spot) -> &[u8] {
        text_from(self.text, self.index.offset(spot))
    }
}
