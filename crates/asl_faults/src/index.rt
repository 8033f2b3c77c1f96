//! Members and elements, found without going through the large objects and lists in which they stand.
use asl_places::{Member, Outline, Spot, members_by_name};
use asl_tree::OutOfMemory;
use std::alloc::Global;
use std::collections::BTreeMap;

/// How many members or elements make an object or a list large.
const LARGE: usize = 32;

/// An outlined text, with the members of its large objects by name and the elements of its large lists in turn.
#[derive(Drop)]
pub struct Index<'s, 'a> {
    outline: &'s Outline<'a>,
    /// By the token with which the object begins.
    objects: BTreeMap<usize, BTreeMap<&'a str, Member>>,
    /// By the token with which the list begins.
    lists: BTreeMap<usize, LargeList<'a>>,
}

/// The elements of a large list, and of each name of a member the values in the objects among them that have it, in turn.
#[derive(Drop)]
struct LargeList<'a> {
    elements: Vec<Spot>,
    values: BTreeMap<&'a str, Vec<Spot>>,
}

impl<'s, 'a> Index<'s, 'a> {
    /// The index of an outlined text of so many bytes. Refuses only where an allocation was refused.
    pub fn read(
        alloc: Global,
        outline: &'s Outline<'a>,
        bytes: usize,
    ) -> Result<Index<'s, 'a>, OutOfMemory> {
        let mut index = Index {
            outline,
            objects: BTreeMap::new(alloc),
            lists: BTreeMap::new(alloc),
        };
        // Each token has a byte of the text at least.
        for token in 0..bytes {
            index.add(alloc, Spot { token })?;
        }
        Ok(index)
    }

    /// Adds the object or the list that begins at the spot, where it is a large one.
    fn add(&mut self, alloc: Global, spot: Spot) -> Result<(), OutOfMemory> {
        if self.has_many_members(spot) {
            let members = members_by_name(alloc, self.outline, spot)?;
            drop(self.objects.insert(spot.token, members)?);
        }
        if self.has_many_elements(spot) {
            let list = LargeList::read(alloc, self.outline, spot)?;
            drop(self.lists.insert(spot.token, list)?);
        }
        Ok(())
    }

    fn has_many_members(&self, object: Spot) -> bool {
        let Some(mut members) = self.outline.members(object) else {
            return false;
        };
        for _ in 0..LARGE {
            if members.next().is_none() {
                return false;
            }
        }
        true
    }

    fn has_many_elements(&self, list: Spot) -> bool {
        let Some(mut elements) = self.outline.items(list) else {
            return false;
        };
        for _ in 0..LARGE {
            if elements.next().is_none() {
                return false;
            }
        }
        true
    }

    /// The outline that it is of.
    pub fn outline(&self) -> &'s Outline<'a> {
        self.outline
    }

    /// The text's own value.
    pub fn root(&self) -> Spot {
        self.outline.root()
    }

    /// The first byte of a value or a name.
    pub fn offset(&self, spot: Spot) -> usize {
        self.outline.offset(spot)
    }

    /// The member of that name of the object at the spot; of a repeated name the last.
    pub fn member(&self, object: Spot, name: &str) -> Option<Member> {
        match self.objects.get(&object.token) {
            Some(members) => members.get(name).copied(),
            None => self.outline.member(object, name),
        }
    }

    /// The element at that index of the list at the spot, counted from 0.
    pub fn element(&self, list: Spot, index: usize) -> Option<Spot> {
        match self.lists.get(&list.token) {
            Some(list) => list.elements.get(index).copied(),
            None => self.outline.element(list, index),
        }
    }

    /// The elements of the list at the spot. Any other value has none. Refuses only where an allocation was refused.
    pub fn elements(&self, alloc: Global, list: Spot) -> Result<Vec<Spot>, OutOfMemory> {
        let mut elements = Vec::new(alloc);
        push_elements(self.outline, list, &mut elements)?;
        Ok(elements)
    }

    /// Whether the value at the spot is an object.
    pub fn is_object(&self, value: Spot) -> bool {
        self.outline.members(value).is_some()
    }

    /// Whether it is a list.
    pub fn is_list(&self, value: Spot) -> bool {
        self.outline.items(value).is_some()
    }

    /// The values of that name in the objects of a list, each in turn. Refuses only where an allocation was refused.
    pub fn all_with(
        &self,
        alloc: Global,
        list: Spot,
        name: &str,
    ) -> Result<Vec<Spot>, OutOfMemory> {
        let mut values = Vec::new(alloc);
        match self.lists.get(&list.token) {
            Some(list) => {
                if let Some(found) = list.values.get(name) {
                    values.extend_from_slice(found)?;
                }
            }
            None => {
                for element in &self.elements(alloc, list)? {
                    if let Some(found) = self.member(*element, name) {
                        values.push(found.value)?;
                    }
                }
            }
        }
        Ok(values)
    }

    /// The value of a state's field, or the state's name where the state has no such field.
    pub fn field_or_name(&self, state: Member, field: &str) -> Spot {
        match self.objects.get(&state.value.token) {
            Some(members) => members.get(field).map_or(state.name, |found| found.value),
            None => self.outline.field_or_name(state, field),
        }
    }
}

impl<'a> LargeList<'a> {
    /// The list at the spot.
    fn read(
        alloc: Global,
        outline: &Outline<'a>,
        list: Spot,
    ) -> Result<LargeList<'a>, OutOfMemory> {
        let mut elements = Vec::new(alloc);
        push_elements(outline, list, &mut elements)?;
        let mut values = BTreeMap::new(alloc);
        for element in &elements {
            add_members(alloc, outline, *element, &mut values)?;
        }
        Ok(LargeList { elements, values })
    }
}

/// Puts the values of the object's members under their names, behind those that are there.
fn add_members<'a>(
    alloc: Global,
    outline: &Outline<'a>,
    object: Spot,
    values: &mut BTreeMap<&'a str, Vec<Spot>>,
) -> Result<(), OutOfMemory> {
    let Some(mut members) = outline.members(object) else {
        return Ok(());
    };
    while let Some((name, member)) = members.next() {
        add_value(alloc, object, name, member.value, values)?;
    }
    Ok(())
}

/// Puts a value of the object under its name, in place of one of the same object.
fn add_value<'a>(
    alloc: Global,
    object: Spot,
    name: &'a str,
    value: Spot,
    values: &mut BTreeMap<&'a str, Vec<Spot>>,
) -> Result<(), OutOfMemory> {
    if let Some(there) = values.get_mut(name) {
        if let Some(last) = there.last() {
            if last.token > object.token {
                drop(there.pop());
            }
        }
        there.push(value)?;
        return Ok(());
    }
    let mut first = Vec::new(alloc);
    first.push(value)?;
    drop(values.insert(name, first)?);
    Ok(())
}

/// Puts the values of the members of the object at the spot behind the others. Any other value has none.
pub(crate) fn push_members(
    outline: &Outline<'_>,
    object: Spot,
    spots: &mut Vec<Spot>,
) -> Result<(), OutOfMemory> {
    let Some(mut members) = outline.members(object) else {
        return Ok(());
    };
    while let Some((_, member)) = members.next() {
        spots.push(member.value)?;
    }
    Ok(())
}

/// Puts the elements of the list at the spot behind the others. Any other value has none.
pub(crate) fn push_elements(
    outline: &Outline<'_>,
    list: Spot,
    spots: &mut Vec<Spot>,
) -> Result<(), OutOfMemory> {
    let Some(mut elements) = outline.items(list) else {
        return Ok(());
    };
    while let Some(element) = elements.next() {
        spots.push(element)?;
    }
    Ok(())
}
