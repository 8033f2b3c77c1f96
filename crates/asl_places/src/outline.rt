//! Outlines of JSON texts.
ghost use Rattle.std.specs.Prelude.{◌≡◌, ◌<◌, ℕ, None, Err, MatchOption, IfOk, IfSome, IsSome, option_map, map, length, drop, slice_index, List};
ghost use Rattle.json.specs.Token.{Token, begin_array, begin_object};
ghost use Rattle.json.specs.Lex.{tokens};
ghost use Rattle.json.specs.Json as spec;
ghost use Rattle.json.specs.Json.{Json, document};
ghost use Rattle.json.specs.Find.{InItems, InMembers, as_array, as_object, get, at};
ghost use Rattle.json.specs.Tape.{node_token, Linked};
ghost use Rattle.json.specs.declared.tape.TheConstants.{MAX_LEN};
ghost use Rattle.asl_places.specs.declared.outline.Spot.{Spot};
ghost use Rattle.asl_places.specs.Found.{BeginsAt, FindsAt, IsNamed};
ghost use Rattle.asl_places.specs.Standing.{FindsMember, Opens};

use crate::cursors::{Items, Members};
use asl_tree::OutOfMemory;
use json::{Error, Node, Reader, Scratch, Tape};
use std::alloc::Global;
use std::marker::Model;

/// A value of an outlined text, or a member's name, by the number of its first token.
#[derive(Clone, Copy, Debug, Drop, PartialEq, Eq)]
pub struct Spot {
    pub token: usize,
}

/// A member of an object: its name and its value.
#[derive(Clone, Copy, Debug, Drop, PartialEq, Eq)]
pub struct Member {
    pub name: Spot,
    pub value: Spot,
}

/// A JSON text's tokens, and the byte at which each begins.
#[derive(Drop)]
pub struct Outline<'a> {
    tape: Tape<'a>,
    offsets: Vec<usize>,
}

impl<'a> Model for Outline<'a> {
    ghost use Rattle.std.specs.Prelude.{◌≡◌, ℕ, List, length};
    ghost use Rattle.std.specs.Coded.{coded×, coded_ℕ, coded_list};
    ghost use Rattle.json.specs.Token.{Token, tokens_code};

    ghost Value = { List Token × List ℕ };

    ghost coded = { coded× tokens_code (coded_list coded_ℕ) };

    ghost view = { λ o. (o.tape, o.offsets.items) };

    ghost invariant = { λ o. length o.offsets.items ≡ length o.tape };
}

/// Why a text has no outline.
#[derive(Debug, Drop)]
pub enum OutlineRefusal {
    /// The text is no JSON (RFC 8259), or nests deeper than 128.
    NotJson,
    /// The text is longer than an outline may be: 4 GiB less 256 bytes.
    TooLong,
    /// An allocation was refused.
    OutOfMemory,
}

impl From<OutOfMemory> for OutlineRefusal {
    ghost use Rattle.asl_places.specs.declared.outline.OutlineRefusal.{OutlineRefusal};

    ghost from_gives = { λ _ refusal. refusal ≡ OutlineRefusal.OutOfMemory };

    fn from(_error: OutOfMemory) -> OutlineRefusal {
        OutlineRefusal::OutOfMemory
    }
}

impl<'a> Outline<'a> {
    /// The outline of `text`. Names and strings with escapes are kept in `scratch`.
    pub fn read(
        alloc: Global,
        text: &'a str,
        scratch: &'a mut Scratch,
    ) -> Result<Outline<'a>, OutlineRefusal>
        ensures tokens { IfOk result (λ o. o.0 ≡ tokens text.now) }
        ensures json { IfOk result (λ _. IsSome (document text.now)) }
        ensures no_json { result ≡ Err OutlineRefusal.NotJson → document text.now ≡ None }
        ensures too_long { result ≡ Err OutlineRefusal.TooLong → MAX_LEN < length text.now }
    {
        let offsets = offsets_of(alloc, text, scratch)?;
        match Tape::parse(text, scratch, Vec::new(alloc)) {
            Ok(tape) => Ok(Outline { tape, offsets }),
            Err(Error::TooLong) => Err(OutlineRefusal::TooLong),
            Err(Error::OutOfMemory) => Err(OutlineRefusal::OutOfMemory),
            Err(Error::Invalid | Error::DuplicateKey) => Err(OutlineRefusal::NotJson),
        }
    }

    /// The text's own value.
    pub fn root(&self) -> Spot
        ensures { result.token ≡ 0 }
    {
        Spot { token: 0 }
    }

    /// The first byte of a value or a name. Where the text has no such token it is 0.
    pub fn offset(&self, spot: Spot) -> usize
        ensures { result ≡ slice_index self.now.1 spot.token }
    {
        self.offsets.get(spot.token).copied().unwrap_or(0)
    }

    /// The members of the object at the spot, in the author's order, where it is one.
    pub fn members(&self, object: Spot) -> Option<Members<'_, 'a>>
        ensures tokens { IfSome result (λ m. m.0 ≡ self.now.0) }
        ensures opens { Opens self.now.0 begin_object object (option_map (λ m. m.1) result) }
        ensures members { (j : Json) → BeginsAt self.now.0 object j
            → MatchOption result (as_object j ≡ None)
            (λ m. (ms : spec.Members) × (j ≡ spec.object ms) × InMembers (drop m.1 m.0) ms) }
    {
        Members::of(self.nodes(), object)
    }

    /// The elements of the list at the spot, where it is one.
    pub fn items(&self, list: Spot) -> Option<Items<'_, 'a>>
        ensures tokens { IfSome result (λ m. m.0 ≡ self.now.0) }
        ensures opens { Opens self.now.0 begin_array list (option_map (λ m. m.1) result) }
        ensures items { (j : Json) → BeginsAt self.now.0 list j
            → MatchOption result (as_array j ≡ None)
            (λ m. (js : spec.Items) × (j ≡ spec.array js) × InItems (drop m.1 m.0) js) }
    {
        Items::of(self.nodes(), list)
    }

    /// The member of that name of the object at the spot; of a repeated name the last.
    pub fn member(&self, object: Spot, name: &str) -> Option<Member>
        ensures value { (j : Json) → BeginsAt self.now.0 object j
            → FindsAt self.now.0 (option_map (λ m. m.value) result) (get name.now j) }
        ensures named { IfSome result (λ m. IsNamed self.now.0 m name.now) }
        ensures stands { (j : Json) → BeginsAt self.now.0 object j
            → FindsMember self.now.0 object name.now result }
        ensures later { IfSome result (λ m. (object.token < m.value.token)
            × (m.value.token < length self.now.0)) }
    {
        let mut found = None;
        let mut members = self.members(object)?;
        while let Some((other, member)) = members.next() {
            if other == name {
                found = Some(member);
            }
        }
        found
    }

    /// The element at that index of the list at the spot, counted from 0.
    pub fn element(&self, list: Spot, index: usize) -> Option<Spot>
        ensures { (j : Json) → BeginsAt self.now.0 list j
            → FindsAt self.now.0 result (at index j) }
    {
        let mut items = self.items(list)?;
        let mut left = index;
        loop {
            let item = items.next()?;
            if left == 0 {
                return Some(item);
            }
            left -= 1;
        }
    }

    /// Where to tell of a state's field: at its value, or at the state's name where the state has no such field.
    pub fn field_or_name(&self, state: Member, field: &str) -> Spot
        ensures { (j : Json) → BeginsAt self.now.0 state.value j
            → MatchOption (get field.now j) (result ≡ state.name) (BeginsAt self.now.0 result) }
    {
        match self.member(state.value, field) {
            Some(found) => found.value,
            None => state.name,
        }
    }

    /// The tokens, each with the number of the token behind the value that begins with it.
    pub(crate) fn nodes(&self) -> &[Node<'a>]
        ensures tokens { map node_token result.now ≡ self.now.0 }
        ensures links { Linked self.now.0 0 result.now }
    {
        self.tape.nodes()
    }
}

/// The first byte of each token.
fn offsets_of(alloc: Global, text: &str, scratch: &mut Scratch) -> Result<Vec<usize>, OutOfMemory>
    ensures { IfOk result (λ v. length v.items ≡ length (tokens text.now)) }
{
    let mut reader = Reader::new(text, scratch)?;
    let mut offsets = Vec::new(alloc);
    let mut offset = reader.offset();
    while let Some(_) = reader.next() {
        offsets.push(offset)?;
        offset = reader.offset();
    }
    Ok(offsets)
}
