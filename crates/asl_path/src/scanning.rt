//! The bytes of a path's text.
ghost use Rattle.std.specs.Prelude.{◌≡◌};
ghost use Rattle.asl_model.specs.PathSpelling.{in_dot_name as may_stand_behind_dot, front_length as length_of_front, has_left_out as leaves_out};

/// A part of a path's text.
#[derive(Clone, Copy)]
pub(crate) enum Part {
    /// A name behind a dot.
    DotName,
    /// A name between two of that quote.
    QuotedName(u8),
    /// The digits of an index.
    Digits,
}

impl Part {
    ghost use Rattle.asl_path.specs.Parts.{may_stand_in};

    /// Whether the byte may stand in this part.
    fn has(self, byte: u8) -> bool
        ensures { result ≡ may_stand_in self byte }
    {
        match self {
            Part::DotName => in_dot_name(byte),
            Part::QuotedName(quote) => byte != quote && byte != b'\\',
            Part::Digits => byte.is_ascii_digit(),
        }
    }

    /// How many bytes of the text may stand in this part, up to the first that may not.
    pub(crate) fn length_in(self, text: &[u8]) -> usize
        ensures { result ≡ length_of_front (may_stand_in self) text.now }
    {
        for (place, byte) in text.iter().enumerate() {
            if !self.has(*byte) {
                return place;
            }
        }
        text.len()
    }
}

/// Whether the byte may stand in a name behind a dot.
fn in_dot_name(byte: u8) -> bool
    ensures { result ≡ may_stand_behind_dot byte }
{
    byte > b' '
        && byte != 0x7F
        && !matches!(
            byte,
            b'.' | b'['
                | b']'
                | b'('
                | b')'
                | b'*'
                | b'?'
                | b'@'
                | b','
                | b':'
                | b'\''
                | b'"'
                | b'\\'
                | b'$'
        )
}

/// Whether the text has a byte of what the language leaves out, or two dots in succession.
pub(crate) fn has_left_out(text: &[u8]) -> bool
    ensures { result ≡ leaves_out text.now }
{
    let mut rest = text;
    while let Some((first, others)) = rest.split_first() {
        if matches!(*first, b'*' | b'?' | b'@' | b',' | b':' | b'(') {
            return true;
        }
        if *first == b'.' && others.first() == Some(&b'.') {
            return true;
        }
        rest = others;
    }
    false
}
