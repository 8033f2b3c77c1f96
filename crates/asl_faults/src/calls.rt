//! What is wrong in a text that isn't read as a call of an intrinsic function.
//!
//! This is a reading of its own, beside that of `asl_intrinsic`: it goes through the text part by part, up to the first one
//! with which a call can't go on. So that an argument is found that isn't read as a path, each path is a part.

/// How many calls may stand in one another.
const DEEPEST: usize = 32;

/// What is wrong with a text, and the byte at which it is.
#[derive(Clone, Copy, Debug)]
pub(crate) struct Fault {
    pub(crate) wrong: Wrong,
    pub(crate) byte: usize,
}

/// What may be wrong.
#[derive(Clone, Copy, Debug)]
pub(crate) enum Wrong {
    /// It doesn't begin with a name and a parenthesis.
    NoCall,
    /// More calls stand in one another than are read.
    TooDeep,
    /// A number has a fraction or an exponent.
    Fraction,
    /// A number is out of the range of 64 bits.
    OutOfRange,
    /// A number has a zero in front of other digits.
    LeadingZero,
    /// A text in apostrophes isn't closed.
    OpenText,
    /// A name in quotes isn't closed in a path.
    OpenName,
    /// A backslash stands in a text in front of what has no escape.
    Escape,
    /// A quotation mark stands where an apostrophe should.
    Quote,
    /// What stands there is no argument.
    NoArgument,
    /// An argument is absent.
    Absent,
    /// Behind an argument stands neither a comma nor a parenthesis.
    NoComma,
    /// A call isn't closed.
    OpenCall,
    /// Something stands behind the call.
    Behind,
}

/// A part of a text.
#[derive(Clone, Copy)]
pub(crate) enum Part {
    /// A path, with its first byte and the one behind it.
    Path(usize, usize),
    /// Anything else that a call has.
    Other,
    /// Something that it can't have.
    Fault(Fault),
    /// The end of a text that is written as a call.
    End,
}

/// A text that is gone through.
#[derive(Drop)]
pub(crate) struct Reading<'t> {
    text: &'t [u8],
    at: usize,
    /// How many calls are open.
    depth: usize,
    /// Whether the last part is an argument, or the whole call.
    is_behind: bool,
    /// Whether it is the parenthesis of a call.
    is_first: bool,
}

impl<'t> Reading<'t> {
    /// The text from its beginning on.
    pub(crate) fn new(text: &'t str) -> Reading<'t> {
        Reading {
            text: text.as_bytes(),
            at: 0,
            depth: 0,
            is_behind: false,
            is_first: false,
        }
    }

    /// The next part.
    pub(crate) fn next_part(&mut self) -> Part {
        if self.depth > 0 {
            self.at = self.end_of(self.at, Run::Spaces);
        }
        match (self.is_behind, self.byte_at(self.at)) {
            (false, byte) => self.argument(byte),
            (true, None) if self.depth == 0 => Part::End,
            (true, _) if self.depth == 0 => wrong_at(Wrong::Behind, self.at),
            (true, Some(b',')) => self.pass(false),
            (true, Some(b')')) => self.close(),
            (true, None) => wrong_at(Wrong::OpenCall, self.at),
            (true, Some(_)) => wrong_at(Wrong::NoComma, self.at),
        }
    }

    /// The byte of that number, if there is one.
    fn byte_at(&self, at: usize) -> Option<u8> {
        self.text.get(at).copied()
    }

    /// Goes behind a byte, after which an argument stands or not.
    fn pass(&mut self, is_behind: bool) -> Part {
        self.go_to(self.at.saturating_add(1), is_behind)
    }

    /// Goes to a byte, in front of which an argument stands or not.
    fn go_to(&mut self, at: usize, is_behind: bool) -> Part {
        self.at = at;
        self.is_behind = is_behind;
        self.is_first = false;
        Part::Other
    }

    /// Closes the innermost call.
    fn close(&mut self) -> Part {
        self.depth = self.depth.saturating_sub(1);
        self.pass(true)
    }

    /// What should be an argument, or the call itself, and begins with that byte.
    fn argument(&mut self, first: Option<u8>) -> Part {
        let from = self.at;
        let to = self.end_of(from, Run::Name);
        if to > from && self.byte_at(to) == Some(b'(') {
            return self.open(from, to);
        }
        match first {
            _ if self.depth == 0 => wrong_at(Wrong::NoCall, from),
            None if self.is_first => wrong_at(Wrong::OpenCall, from),
            Some(b')') if self.is_first => self.close(),
            None | Some(b')' | b',') => wrong_at(Wrong::Absent, from),
            Some(b'\'') => self.text_in_apostrophes(),
            Some(b'"') => wrong_at(Wrong::Quote, from),
            Some(b'$') => self.path(),
            Some(_) => self.word(),
        }
    }

    /// Opens a call whose name stands between these bytes.
    fn open(&mut self, from: usize, to: usize) -> Part {
        if self.depth >= DEEPEST {
            return wrong_at(Wrong::TooDeep, from);
        }
        self.depth = self.depth.saturating_add(1);
        self.at = to.saturating_add(1);
        self.is_first = true;
        Part::Other
    }

    /// A text in apostrophes.
    fn text_in_apostrophes(&mut self) -> Part {
        let from = self.at;
        let mut is_escaped = false;
        for at in from.saturating_add(1)..self.text.len() {
            match (is_escaped, self.byte_at(at)) {
                (true, Some(b'\'' | b'{' | b'}' | b'\\')) => is_escaped = false,
                (true, _) => return wrong_at(Wrong::Escape, at.saturating_sub(1)),
                (false, Some(b'\\')) => is_escaped = true,
                (false, Some(b'\'')) => return self.go_to(at.saturating_add(1), true),
                (false, _) => {}
            }
        }
        wrong_at(Wrong::OpenText, from)
    }

    /// A path, which goes to the first comma, parenthesis or space that isn't in quotes.
    fn path(&mut self) -> Part {
        let from = self.at;
        let mut quote: Option<(usize, u8)> = None;
        let mut to = self.text.len();
        for at in from..self.text.len() {
            match (quote, self.text[at]) {
                (None, b',' | b')' | b' ') => {
                    to = at;
                    break;
                }
                (None, byte) if byte == b'\'' || byte == b'"' => quote = Some((at, byte)),
                (Some((_, open)), byte) if open == byte => quote = None,
                _ => {}
            }
        }
        if let Some((at, _)) = quote {
            return wrong_at(Wrong::OpenName, at);
        }
        self.go_to(to, true);
        Part::Path(from, to)
    }

    /// A number, or one of `null`, `true` and `false`.
    fn word(&mut self) -> Part {
        let from = self.at;
        let to = self.end_of(from, Run::Word);
        match self.text.get(from..to).and_then(wrong_in) {
            Some(wrong) => wrong_at(wrong, from),
            None => self.go_to(to, true),
        }
    }

    /// The first byte from that one on that isn't of the run, or the text's end.
    fn end_of(&self, from: usize, run: Run) -> usize {
        for at in from..self.text.len() {
            if !run.has(self.text[at]) {
                return at;
            }
        }
        self.text.len()
    }
}

/// That something is wrong at that byte.
fn wrong_at(wrong: Wrong, byte: usize) -> Part {
    Part::Fault(Fault { wrong, byte })
}

/// Bytes of one kind that stand together.
#[derive(Clone, Copy)]
enum Run {
    /// Those in front of an argument and behind it.
    Spaces,
    /// The name of a function.
    Name,
    /// A word or a number.
    Word,
}

impl Run {
    /// Whether the byte is one of them.
    fn has(self, byte: u8) -> bool {
        let is_of_name = byte.is_ascii_alphanumeric() || byte == b'.' || byte == b'_';
        match self {
            Run::Spaces => byte == b' ',
            Run::Name => is_of_name,
            Run::Word => is_of_name || byte == b'-' || byte == b'+',
        }
    }
}

/// What is wrong with a word or a number, if anything is.
fn wrong_in(word: &[u8]) -> Option<Wrong> {
    if matches!(word, b"null" | b"true" | b"false") {
        return None;
    }
    let digits = word.strip_prefix(b"-").unwrap_or(word);
    match digits.first() {
        Some(b'0'..=b'9') => wrong_in_number(word, digits),
        _ => Some(Wrong::NoArgument),
    }
}

/// What is wrong with a number with these digits, if anything is.
fn wrong_in_number(number: &[u8], digits: &[u8]) -> Option<Wrong> {
    if is_decimal(digits) {
        return Some(Wrong::Fraction);
    }
    if !digits.iter().all(|byte| byte.is_ascii_digit()) {
        return Some(Wrong::NoArgument);
    }
    if digits.len() > 1 && digits.first() == Some(&b'0') {
        return Some(Wrong::LeadingZero);
    }
    let said = str::from_utf8(number).ok()?;
    match said.parse::<i64>() {
        Ok(_) => None,
        Err(_) => Some(Wrong::OutOfRange),
    }
}

/// Whether a number without its minus sign has a fraction, an exponent or both.
fn is_decimal(number: &[u8]) -> bool {
    let mut before = Sign::Begin;
    let mut is_whole = true;
    let mut has_exponent = false;
    for byte in number {
        before = match (before, *byte) {
            (_, b'0'..=b'9') => Sign::Digit,
            (Sign::Digit, b'.') if is_whole => Sign::Dot,
            (Sign::Digit, b'e' | b'E') if !has_exponent => Sign::Exponent,
            (Sign::Exponent, b'+' | b'-') => Sign::Dot,
            _ => return false,
        };
        is_whole = is_whole && before == Sign::Digit;
        has_exponent = has_exponent || before == Sign::Exponent;
    }
    !is_whole && before == Sign::Digit
}

/// What stands in front of a byte of a number: a digit, an `e`, or what wants a digit behind it.
#[derive(Clone, Copy, PartialEq, Eq)]
enum Sign {
    Begin,
    Digit,
    Dot,
    Exponent,
}

impl Wrong {
    /// What is said of it, in front of its place, and behind that; of some the place isn't told.
    pub(crate) fn words(self) -> (&'static str, Option<&'static str>) {
        match self {
            Wrong::NoCall => (
                "is neither a path, which begins with `$`, nor a call: no name of a function with a parenthesis behind it stands at its beginning",
                None,
            ),
            Wrong::TooDeep => (
                "has more than 32 calls in one another, from character ",
                Some(" on"),
            ),
            Wrong::Fraction => (
                "has a number with a fraction or an exponent at character ",
                Some(", and only whole numbers are read here"),
            ),
            Wrong::OutOfRange => (
                "has a number at character ",
                Some(" that is below -9223372036854775808 or above 9223372036854775807"),
            ),
            Wrong::LeadingZero => (
                "has a number at character ",
                Some(" with a zero in front of other digits"),
            ),
            Wrong::OpenText => (
                "has a text at character ",
                Some(" that no apostrophe closes"),
            ),
            Wrong::OpenName => (
                "has a name in a path at character ",
                Some(" whose quote isn't closed"),
            ),
            Wrong::Escape => (
                "has a backslash at character ",
                Some(" that stands before none of `'`, `{`, `}` and `\\`"),
            ),
            Wrong::Quote => (
                "has a quotation mark at character ",
                Some(", and a text in a call stands in apostrophes"),
            ),
            Wrong::NoArgument => (
                "has at character ",
                Some(
                    " what is no argument: no path, no call, no text in apostrophes, no whole number, and none of `null`, `true` and `false`",
                ),
            ),
            Wrong::Absent => ("lacks an argument in front of character ", Some("")),
            Wrong::NoComma => (
                "lacks a comma or a closing parenthesis in front of character ",
                Some(""),
            ),
            Wrong::OpenCall => ("lacks a closing parenthesis at its end", None),
            Wrong::Behind => (
                "goes on at character ",
                Some(" behind the parenthesis that closes its call"),
            ),
        }
    }
}
