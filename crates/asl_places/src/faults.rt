//! Where and why a text that is no JSON breaks.
ghost use Rattle.std.specs.Prelude.{◌≡◌, ◌<◌, ◌≤◌, ◌↔◌, None, Some, IfErr, IfOk, IfSome, IsSome, IsTrue, MatchOption, OnErr, length};
ghost use Rattle.json.specs.Json.{Json};
ghost use Rattle.serde_json.specs.Read.{of_json, read};
ghost use Rattle.asl_places.specs.Whole.{json_of};

use crate::lexemes::{behind_number, behind_string, behind_word};
use asl_tree::OutOfMemory;
use json::{Reader, Scratch};
use std::alloc::Global;

/// Where a text can't go on as JSON, and why.
#[derive(Clone, Copy, Debug, Drop, PartialEq, Eq)]
pub struct Fault {
    /// The byte that can't stand where it does, or the text's end. A word, an escape and a leading zero are told where
    /// they begin.
    pub byte: usize,
    pub kind: FaultKind,
}

/// Why a text can't go on.
#[derive(Clone, Copy, Debug, Drop, PartialEq, Eq)]
pub enum FaultKind {
    /// Something else is wanted.
    Wanted(Wanted),
    /// Letters stand outside a string that are none of `true`, `false` and `null`.
    Word,
    /// A number has a zero in front of other digits.
    LeadingZero,
    /// A string goes on in the next line.
    LineBreak,
    /// A string has another control character.
    Control,
    /// A string has an escape that there isn't.
    Escape,
    /// A string has half of a surrogate pair.
    Surrogate,
    /// The text ends within a string.
    OpenString,
    /// The text nests deeper than [`MAX_DEPTH`].
    TooDeep,
    /// The text begins with a byte order mark.
    ByteOrderMark,
}

/// What may come next.
#[derive(Clone, Copy, Debug, Drop, PartialEq, Eq)]
pub enum Wanted {
    Value,
    ValueOrBracket,
    Name,
    NameOrBrace,
    Colon,
    CommaOrBrace,
    CommaOrBracket,
    Digit,
    /// The end of the text.
    Nothing,
}

/// How many objects and lists may stand in one another.
pub const MAX_DEPTH: usize = 127;

/// What stands open around a value.
#[derive(Clone, Copy, Drop)]
enum Bracket {
    Object,
    List,
}

/// How far a text is JSON.
#[derive(Drop)]
struct Nesting {
    open: [Bracket; MAX_DEPTH],
    depth: usize,
    wanted: Wanted,
}

/// Where the text can't go on as JSON. There is no such place exactly where it is JSON and nests no deeper than
/// [`MAX_DEPTH`].
///
/// It needs as much memory as the text has bytes, and refuses only where it doesn't get it.
pub fn fault_in(alloc: Global, text: &str) -> Result<Option<Fault>, OutOfMemory>
    ensures json { IfOk result (λ found. (found ≡ None) ↔ IsSome (json_of text.now)) }
    ensures reads { IfOk result (λ found. MatchOption found
        ((j : Json) × (json_of text.now ≡ Some j) × (read text.now ≡ of_json j))
        (λ _. read text.now ≡ None)) }
    ensures byte { IfOk result (λ found. IfSome found (λ fault. fault.byte ≤ length text.now)) }
    ensures memory { OnErr result (0 < length text.now) }
{
    if is_json(alloc, text)? {
        return Ok(None);
    }
    Ok(Some(first_fault(text.as_bytes())))
}

/// Whether the text is JSON and nests no deeper than [`MAX_DEPTH`].
fn is_json(alloc: Global, text: &str) -> Result<bool, OutOfMemory>
    ensures json { IfOk result (λ json. IsTrue json ↔ IsSome (json_of text.now)) }
    ensures memory { OnErr result (0 < length text.now) }
{
    let mut scratch = Scratch::new(alloc);
    let mut reader = Reader::new(text, &mut scratch)?;
    Ok(reader.skip_value(MAX_DEPTH).is_ok() && reader.next().is_none())
}

/// Where a text that is no JSON can't go on.
fn first_fault(text: &[u8]) -> Fault
    ensures { result.byte ≤ length text.now }
{
    if text.starts_with(b"\xef\xbb\xbf") {
        return Fault::at(0, FaultKind::ByteOrderMark);
    }
    let mut nesting = Nesting {
        open: [Bracket::Object; MAX_DEPTH],
        depth: 0,
        wanted: Wanted::Value,
    };
    let mut next = 0;
    for at in 0..text.len() {
        if at < next || matches!(text[at], b' ' | b'\t' | b'\n' | b'\r') {
            continue;
        }
        match nesting.passes(text, at) {
            Ok(behind) => next = behind,
            Err(fault) => return fault,
        }
    }
    nesting.fault(text.len())
}

impl Fault {
    /// A fault at that byte.
    pub(crate) fn at(byte: usize, kind: FaultKind) -> Fault
        ensures { result.byte ≡ byte }
    {
        Fault { byte, kind }
    }

    /// At that byte something else is wanted.
    pub(crate) fn wanted(byte: usize, wanted: Wanted) -> Fault
        ensures { result.byte ≡ byte }
    {
        Fault::at(byte, FaultKind::Wanted(wanted))
    }
}

impl Nesting {
    /// Passes what begins at the byte. The answer is the byte behind it.
    fn passes(&mut self, text: &[u8], at: usize) -> Result<usize, Fault>
        requires { at < length text.now }
        ensures { IfErr result (λ fault. fault.byte ≤ length text.now) }
    {
        match text[at] {
            b'{' => self.opens(Bracket::Object, at)?,
            b'[' => self.opens(Bracket::List, at)?,
            b'}' => self.closes(Bracket::Object, at)?,
            b']' => self.closes(Bracket::List, at)?,
            b',' => self.goes_on(at)?,
            b':' => self.names(at)?,
            b'"' => return self.takes_string(text, at),
            _ => return self.takes_scalar(text, at),
        }
        Ok(at + 1)
    }

    /// Passes an opening bracket.
    fn opens(&mut self, bracket: Bracket, at: usize) -> Result<(), Fault>
        ensures { IfErr result (λ fault. fault.byte ≡ at) }
    {
        if !self.wants_value() {
            return Err(self.fault(at));
        }
        if self.depth >= MAX_DEPTH {
            return Err(Fault::at(at, FaultKind::TooDeep));
        }
        self.open[self.depth] = bracket;
        self.depth += 1;
        self.wanted = match bracket {
            Bracket::Object => Wanted::NameOrBrace,
            Bracket::List => Wanted::ValueOrBracket,
        };
        Ok(())
    }

    /// Passes a closing bracket.
    fn closes(&mut self, bracket: Bracket, at: usize) -> Result<(), Fault>
        ensures { IfErr result (λ fault. fault.byte ≡ at) }
    {
        let may = match bracket {
            Bracket::Object => matches!(self.wanted, Wanted::NameOrBrace | Wanted::CommaOrBrace),
            Bracket::List => matches!(self.wanted, Wanted::ValueOrBracket | Wanted::CommaOrBracket),
        };
        if !may {
            return Err(self.fault(at));
        }
        self.depth = self.depth.saturating_sub(1);
        self.ends_value();
        Ok(())
    }

    /// Passes a comma.
    fn goes_on(&mut self, at: usize) -> Result<(), Fault>
        ensures { IfErr result (λ fault. fault.byte ≡ at) }
    {
        self.wanted = match self.wanted {
            Wanted::CommaOrBrace => Wanted::Name,
            Wanted::CommaOrBracket => Wanted::Value,
            _ => return Err(self.fault(at)),
        };
        Ok(())
    }

    /// Passes a colon.
    fn names(&mut self, at: usize) -> Result<(), Fault>
        ensures { IfErr result (λ fault. fault.byte ≡ at) }
    {
        if self.wanted != Wanted::Colon {
            return Err(self.fault(at));
        }
        self.wanted = Wanted::Value;
        Ok(())
    }

    /// Passes a name or a string.
    fn takes_string(&mut self, text: &[u8], at: usize) -> Result<usize, Fault>
        requires { at < length text.now }
        ensures { IfErr result (λ fault. fault.byte ≤ length text.now) }
    {
        let is_name = matches!(self.wanted, Wanted::Name | Wanted::NameOrBrace);
        if !is_name && !self.wants_value() {
            return Err(self.fault(at));
        }
        let behind = behind_string(text, at)?;
        if is_name {
            self.wanted = Wanted::Colon;
        } else {
            self.ends_value();
        }
        Ok(behind)
    }

    /// Passes a number or a word.
    fn takes_scalar(&mut self, text: &[u8], at: usize) -> Result<usize, Fault>
        requires { at < length text.now }
        ensures { IfErr result (λ fault. fault.byte ≤ length text.now) }
    {
        if !self.wants_value() {
            return Err(self.fault(at));
        }
        let behind = match text[at] {
            b'-' | b'0'..=b'9' => behind_number(text, at)?,
            b'a'..=b'z' | b'A'..=b'Z' => behind_word(text, at)?,
            _ => return Err(self.fault(at)),
        };
        self.ends_value();
        Ok(behind)
    }

    /// What is wanted doesn't begin at the byte.
    fn fault(&self, at: usize) -> Fault
        ensures { result.byte ≡ at }
    {
        Fault::wanted(at, self.wanted)
    }

    /// Whether a value may come next.
    fn wants_value(&self) -> bool {
        matches!(self.wanted, Wanted::Value | Wanted::ValueOrBracket)
    }

    /// What may come behind a value.
    fn ends_value(&mut self) {
        let around = match self.depth {
            0 => None,
            depth => self.open.get(depth - 1).copied(),
        };
        self.wanted = match around {
            Some(Bracket::Object) => Wanted::CommaOrBrace,
            Some(Bracket::List) => Wanted::CommaOrBracket,
            None => Wanted::Nothing,
        };
    }
}
