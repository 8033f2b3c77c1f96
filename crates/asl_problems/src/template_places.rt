//! Places in templates that are refused: of a path or a call that can't be read, and of fields that give one name.
use crate::definition_places::DefinitionPlaces;
use crate::messages::{about_text, shown_at};
use asl_faults::{Found, SUFFIX, isnt_call, isnt_reference, refusal_of, text_from, values_within};
use asl_places::{Member, Spot};
use asl_template::SpellingRefusal;
use asl_tree::OutOfMemory;
use std::collections::BTreeMap;

/// What is wrong in a template: where it stands, and a sentence about it, by the token with which the value or the name at
/// that place begins.
type Faults = BTreeMap<usize, (Spot, String)>;

impl<'s, 't, 'a> DefinitionPlaces<'_, 's, 't, 'a> {
    /// Adds the first fault in the template of a state's field, with words about each that is there, of the further ones with
    /// their places; or the template itself where it is no object.
    pub(crate) fn add_template(
        &self,
        state: Member,
        field: &str,
        found: &mut Vec<Found>,
    ) -> Result<(), OutOfMemory> {
        let Some(template) = self.index.member(state.value, field) else {
            return Ok(());
        };
        if !self.index.is_object(template.value) {
            found.push(Found::at(template.value))?;
            return Ok(());
        }
        let item = self.has_item(state, field)?;
        let faults = self.faults_within(template.value, item)?;
        match self.told_together(&faults)? {
            Some(told) => Ok(found.push(told)?),
            None => Ok(()),
        }
    }

    /// What is wrong in the objects that stand in a value. `item` says whether paths to a Map's item are allowed.
    fn faults_within(&self, value: Spot, item: bool) -> Result<Faults, OutOfMemory> {
        let mut faults = BTreeMap::new(self.alloc);
        let outline = self.index.outline();
        for object in &values_within(self.alloc, outline, self.text.len(), value)? {
            self.add_of_object(*object, item, &mut faults)?;
        }
        Ok(faults)
    }

    /// Adds what is wrong with the object's own members.
    fn add_of_object(
        &self,
        object: Spot,
        item: bool,
        faults: &mut Faults,
    ) -> Result<(), OutOfMemory> {
        let Some(mut members) = self.index.outline().members(object) else {
            return Ok(());
        };
        while let Some((name, member)) = members.next() {
            if let Some(plain) = name.strip_suffix(SUFFIX) {
                // Of members of one name the last counts.
                if self.index.member(object, name) == Some(member) {
                    self.add_of_text(member, item, faults)?;
                    self.add_of_pair(member, self.index.member(object, plain), faults)?;
                }
            }
        }
        Ok(())
    }

    /// Adds why the value of a member isn't read as a path or as a call, if it isn't.
    fn add_of_text(
        &self,
        member: Member,
        item: bool,
        faults: &mut Faults,
    ) -> Result<(), OutOfMemory> {
        let Some(said) = self.said_at(member.value)? else {
            let sentence = "The value of a field whose name ends in `.$` is no text";
            let sentence = String::from_str(self.alloc, sentence)?;
            return put(member.value, sentence, faults);
        };
        let isnt = match refusal_of(self.alloc, &said, item)? {
            None => return Ok(()),
            Some(SpellingRefusal::BadIntrinsic) => isnt_call(self.alloc, &said, item)?,
            Some(_) => String::from_str(self.alloc, isnt_reference(self.alloc, &said, item)?)?,
        };
        match about_text(self.alloc, self.text_of(member.value), &isnt)? {
            Some(sentence) => put(member.value, sentence, faults),
            None => Ok(()),
        }
    }

    /// Adds that a member whose name ends in `.$` and another one give the same name, if there is another one.
    fn add_of_pair(
        &self,
        member: Member,
        other: Option<Member>,
        faults: &mut Faults,
    ) -> Result<(), OutOfMemory> {
        let Some(other) = other else {
            return Ok(());
        };
        let (first, second) = match other.name.token < member.name.token {
            true => (other.name, member.name),
            false => (member.name, other.name),
        };
        let Some(shown) = shown_at(self.alloc, self.text_of(first))? else {
            return Ok(());
        };
        let isnt = format!(in self.alloc;
            "gives the same name as {shown} in this object, since `.$` is no part of it"
        )?;
        match about_text(self.alloc, self.text_of(second), &isnt)? {
            Some(sentence) => put(second, sentence, faults),
            None => Ok(()),
        }
    }

    /// The definition's text from a spot on.
    fn text_of(&self, spot: Spot) -> &'t [u8] {
        text_from(self.text, self.index.offset(spot))
    }

    /// The first of the faults, with words about all of them.
    fn told_together(&self, faults: &Faults) -> Result<Option<Found>, OutOfMemory> {
        let mut first: Option<Spot> = None;
        let mut words = String::new(self.alloc);
        for (spot, sentence) in faults.values() {
            if first.is_none() {
                first = Some(*spot);
            } else {
                let place = self.places.place_at(self.index.offset(*spot));
                let front = format!(in self.alloc; "; at {}:{}: ", place.line, place.column)?;
                words.push_str(&front)?;
            }
            words.push_str(sentence)?;
        }
        match first {
            Some(spot) => Ok(Some(Found::told(self.alloc, spot, &words)?)),
            None => Ok(None),
        }
    }
}

/// Puts what is wrong at a spot.
fn put(spot: Spot, sentence: String, faults: &mut Faults) -> Result<(), OutOfMemory> {
    drop(faults.insert(spot.token, (spot, sentence))?);
    Ok(())
}
