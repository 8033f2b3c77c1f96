//! Going over the members of an object and the elements of a list.
ghost use Rattle.std.specs.Prelude.{◌≡◌, ◌<◌, ◌≤◌, ℕ, List, None, map, length, drop, option_map, IfSome, MatchOption};
ghost use Rattle.json.specs.Token.{Token, begin_array, begin_object};
ghost use Rattle.json.specs.Json as spec;
ghost use Rattle.json.specs.Json.{Json, value};
ghost use Rattle.json.specs.Find.{HasValue, InItems, InMembers, NextItem, NextMember, as_array, as_object};
ghost use Rattle.json.specs.Tape.{node_token, Linked, Passes};
ghost use Rattle.asl_places.specs.Found.{BeginsAt, IsNamed};
ghost use Rattle.asl_places.specs.Standing.{Opens, StepsOverElement, StepsOverMember};

use crate::outline::{Member, Spot};
use json::Node;
use std::marker::Model;

/// The members of an object that are still to come, in the author's order. A clause sees all tokens, and the number of
/// the next.
#[derive(Drop)]
pub struct Members<'o, 'a> {
    nodes: &'o [Node<'a>],
    next: usize,
}

impl<'o, 'a> Model for Members<'o, 'a> {
    ghost use Rattle.std.specs.Prelude.{ℕ, List, map};
    ghost use Rattle.std.specs.Coded.{coded×, coded_ℕ};
    ghost use Rattle.json.specs.Token.{Token, tokens_code};
    ghost use Rattle.json.specs.Tape.{node_token, Linked};

    ghost Value = { List Token × ℕ };

    ghost coded = { coded× tokens_code coded_ℕ };

    ghost view = { λ m. (map node_token m.nodes.now, m.next) };

    ghost invariant = { λ m. Linked (map node_token m.nodes.now) 0 m.nodes.now };
}

/// The elements of a list that are still to come. A clause sees all tokens, and the number of the next.
#[derive(Drop)]
pub struct Items<'o, 'a> {
    nodes: &'o [Node<'a>],
    next: usize,
}

impl<'o, 'a> Model for Items<'o, 'a> {
    ghost use Rattle.std.specs.Prelude.{ℕ, List, map};
    ghost use Rattle.std.specs.Coded.{coded×, coded_ℕ};
    ghost use Rattle.json.specs.Token.{Token, tokens_code};
    ghost use Rattle.json.specs.Tape.{node_token, Linked};

    ghost Value = { List Token × ℕ };

    ghost coded = { coded× tokens_code coded_ℕ };

    ghost view = { λ m. (map node_token m.nodes.now, m.next) };

    ghost invariant = { λ m. Linked (map node_token m.nodes.now) 0 m.nodes.now };
}

/// The number of the token behind the value that begins with the token `at`.
pub(crate) fn behind(nodes: &[Node<'_>], at: usize) -> usize
    requires inside { at < length nodes.now }
    requires links { Linked (map node_token nodes.now) 0 nodes.now }
    ensures value { (depth : ℕ) (j : Json) (rest : List Token)
        → value depth (drop at (map node_token nodes.now)) ≡ Some (j, rest)
        → rest ≡ drop result (map node_token nodes.now) }
    ensures passes { HasValue (drop at (map node_token nodes.now))
        → Passes (map node_token nodes.now) at result }
    ensures later { at < result }
    ensures inside { result ≤ length nodes.now }
{
    match nodes[at] {
        Node::Object(end) => end,
        Node::Array(end) => end,
        _ => at + 1,
    }
}

impl<'o, 'a> Members<'o, 'a> {
    /// The members of the object at the spot, where it is one.
    pub(crate) fn of(nodes: &'o [Node<'a>], object: Spot) -> Option<Members<'o, 'a>>
        requires { Linked (map node_token nodes.now) 0 nodes.now }
        ensures tokens { IfSome result (λ m. m.0 ≡ map node_token nodes.now) }
        ensures opens { Opens (map node_token nodes.now) begin_object object
            (option_map (λ m. m.1) result) }
        ensures members { (j : Json) → BeginsAt (map node_token nodes.now) object j
            → MatchOption result (as_object j ≡ None)
            (λ m. (ms : spec.Members) × (j ≡ spec.object ms) × InMembers (drop m.1 m.0) ms) }
    {
        let at = object.token;
        if at >= nodes.len() {
            return None;
        }
        let Node::Object(_) = nodes[at] else {
            return None;
        };
        Some(Members {
            nodes,
            next: at + 1,
        })
    }

    /// The next member, with its name. There is none behind the last.
    pub fn next(&mut self) -> Option<(&'a str, Member)>
        ensures tokens { self.new.0 ≡ self.old.0 }
        ensures value { NextMember (drop self.old.1 self.old.0)
            (option_map (λ m. (m.0.now, drop m.1.value.token self.old.0)) result)
            (drop self.new.1 self.new.0) }
        ensures named { IfSome result (λ m. IsNamed self.old.0 m.1 m.0.now) }
        ensures steps { StepsOverMember self.old.0 self.old.1
            (option_map (λ m. m.1) result) self.new.1 }
        ensures later { IfSome result (λ m. (self.old.1 < m.1.value.token)
            × (m.1.value.token < self.new.1) × (self.new.1 ≤ length self.old.0)) }
    {
        let (nodes, at) = (self.nodes, self.next);
        if at >= nodes.len().saturating_sub(1) {
            return None;
        }
        let Node::Key(name) = nodes[at] else {
            return None;
        };
        self.next = behind(nodes, at + 1);
        let member = Member {
            name: Spot { token: at },
            value: Spot { token: at + 1 },
        };
        Some((name, member))
    }
}

impl<'o, 'a> Items<'o, 'a> {
    /// The elements of the list at the spot, where it is one.
    pub(crate) fn of(nodes: &'o [Node<'a>], list: Spot) -> Option<Items<'o, 'a>>
        requires { Linked (map node_token nodes.now) 0 nodes.now }
        ensures tokens { IfSome result (λ m. m.0 ≡ map node_token nodes.now) }
        ensures opens { Opens (map node_token nodes.now) begin_array list
            (option_map (λ m. m.1) result) }
        ensures items { (j : Json) → BeginsAt (map node_token nodes.now) list j
            → MatchOption result (as_array j ≡ None)
            (λ m. (js : spec.Items) × (j ≡ spec.array js) × InItems (drop m.1 m.0) js) }
    {
        let at = list.token;
        if at >= nodes.len() {
            return None;
        }
        let Node::Array(_) = nodes[at] else {
            return None;
        };
        Some(Items {
            nodes,
            next: at + 1,
        })
    }

    /// The next element. There is none behind the last.
    pub fn next(&mut self) -> Option<Spot>
        ensures tokens { self.new.0 ≡ self.old.0 }
        ensures value { NextItem (drop self.old.1 self.old.0)
            (option_map (λ s. drop s.token self.old.0) result) (drop self.new.1 self.new.0) }
        ensures steps { StepsOverElement self.old.0 self.old.1 result self.new.1 }
        ensures later { IfSome result (λ s. (self.old.1 ≤ s.token) × (s.token < self.new.1)
            × (self.new.1 ≤ length self.old.0)) }
    {
        let (nodes, at) = (self.nodes, self.next);
        if at >= nodes.len() {
            return None;
        }
        if let Node::EndArray = nodes[at] {
            return None;
        }
        self.next = behind(nodes, at);
        Some(Spot { token: at })
    }
}
