//! The parts of a call's text that are cut off byte by byte.
ghost use Rattle.std.specs.Prelude.{◌≡◌, ◌≢◌, IfSome, IsUtf8, drop, take, unwrap_or};
ghost use Rattle.asl_model.specs.CallSpelling.{open_quote as open_quote_behind, path_length as length_of_path, without_spaces as behind_spaces};
ghost use Rattle.asl_model.specs.PathSpelling.{front_length};

/// A part of a call's text that goes on as long as each byte may stand in it.
#[derive(Clone, Copy)]
pub(crate) enum Part {
    /// Spaces round an argument.
    Spaces,
    /// The name of a function, or a word.
    Word,
    /// The digits of a number.
    Digits,
    /// What stands for itself in a literal text.
    Plain,
}

impl Part {
    ghost use Rattle.asl_intrinsic.specs.Parts.{may_stand_in};

    /// Whether the byte may stand in this part.
    fn has(self, byte: u8) -> bool
        ensures { result ≡ may_stand_in self byte }
    {
        match self {
            Part::Spaces => byte == b' ',
            Part::Word => byte.is_ascii_alphanumeric() || byte == b'.' || byte == b'_',
            Part::Digits => byte.is_ascii_digit(),
            Part::Plain => byte != b'\'' && byte != b'\\' && byte != b'{',
        }
    }

    /// How many bytes of the text may stand in this part, up to the first that may not.
    pub(crate) fn length_in(self, text: &[u8]) -> usize
        ensures { result ≡ front_length (may_stand_in self) text.now }
    {
        for (place, byte) in text.iter().enumerate() {
            if !self.has(*byte) {
                return place;
            }
        }
        text.len()
    }

    /// The part that the text begins with, and what is behind it.
    pub(crate) fn cut(self, text: &str) -> (&str, &str)
        ensures part { result.0.now ≡ take (front_length (may_stand_in self) text.now) text.now }
        ensures rest { result.1.now ≡ drop (front_length (may_stand_in self) text.now) text.now }
        ensures utf8 { IsUtf8 result.1.now }
    {
        text.split_at(self.length_in(text.as_bytes()))
    }
}

/// The text behind its leading spaces.
pub(crate) fn without_spaces(text: &str) -> &str
    ensures rest { result.now ≡ behind_spaces text.now }
{
    let (_, rest) = Part::Spaces.cut(text);
    rest
}

/// The path that the text begins with, up to the first comma, `)` or space that isn't inside apostrophes or quotes,
/// and what is behind it.
pub(crate) fn cut_path(text: &str) -> (&str, &str)
    ensures path { result.0.now ≡ take (length_of_path 0 text.now) text.now }
    ensures rest { result.1.now ≡ drop (length_of_path 0 text.now) text.now }
    ensures utf8 { IsUtf8 result.1.now }
{
    text.split_at(path_length(text.as_bytes()))
}

/// How many bytes belong to the path that the text begins with.
fn path_length(text: &[u8]) -> usize
    ensures { result ≡ length_of_path 0 text.now }
{
    let mut open_quote = None;
    for (place, byte) in text.iter().enumerate() {
        if open_quote.is_none() && matches!(*byte, b',' | b')' | b' ') {
            return place;
        }
        open_quote = quote_behind(open_quote, *byte);
    }
    text.len()
}

/// The quote that is open behind the byte, where `open_quote` is open in front of it.
fn quote_behind(open_quote: Option<u8>, byte: u8) -> Option<u8>
    requires { IfSome open_quote (λ quote. quote ≢ 0) }
    ensures quote { unwrap_or result 0 ≡ open_quote_behind (unwrap_or open_quote 0) byte }
    ensures some_quote { IfSome result (λ quote. quote ≢ 0) }
{
    match open_quote {
        Some(quote) => (byte != quote).then_some(quote),
        None => matches!(byte, b'\'' | b'"').then_some(byte),
    }
}
