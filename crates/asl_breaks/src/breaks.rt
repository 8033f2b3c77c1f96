//! Where and why a text is no JSON, or has a number that isn't whole.
use asl_places::{FaultKind, fault_in};
use asl_tree::OutOfMemory;
use json::{Reader, Scratch, Token};
use serde_json::Value;
use std::alloc::Global;

/// Where a text that is no JSON breaks, and why.
#[derive(Clone, Copy, Drop)]
pub struct Break {
    /// The byte at which it breaks, or its end.
    pub byte: usize,
    pub reason: Reason,
}

/// Why a text is no JSON.
#[derive(Clone, Copy, Drop)]
pub enum Reason {
    /// Its bytes are no UTF-8.
    NoUtf8,
    /// It can't go on.
    Fault(FaultKind),
    /// A number in it is larger than any reader takes.
    TooLarge,
}

/// Where a text that is no JSON breaks. Refuses only where an allocation was refused.
pub fn break_of(alloc: Global, text: &[u8]) -> Result<Break, OutOfMemory> {
    match str::from_utf8(text) {
        Ok(text) => break_in(alloc, text),
        Err(error) => Ok(Break {
            byte: error.valid_up_to(),
            reason: Reason::NoUtf8,
        }),
    }
}

/// Where a text in UTF-8 that is no JSON breaks: where it can't go on, or at a number, if it is of the right form.
fn break_in(alloc: Global, text: &str) -> Result<Break, OutOfMemory> {
    match fault_in(alloc, text)? {
        Some(fault) => Ok(Break {
            byte: fault.byte,
            reason: Reason::Fault(fault.kind),
        }),
        None => Ok(Break {
            byte: first_number(alloc, text, Odd::TooLarge)?,
            reason: Reason::TooLarge,
        }),
    }
}

/// The byte at which the first number begins that isn't a whole one of 64 bits, by its spelling; 0 where there is none, and
/// where the text isn't UTF-8. Refuses only where an allocation was refused.
pub fn first_fraction(alloc: Global, text: &[u8]) -> Result<usize, OutOfMemory> {
    match str::from_utf8(text) {
        Ok(text) => first_number(alloc, text, Odd::NotWhole),
        Err(_) => Ok(0),
    }
}

/// What is odd about a number.
#[derive(Clone, Copy, Drop)]
enum Odd {
    /// It isn't a whole one of 64 bits, by its spelling.
    NotWhole,
    /// It is larger than any reader takes.
    TooLarge,
}

/// The byte at which the first number begins that is odd so; 0 where there is none.
fn first_number(alloc: Global, text: &str, odd: Odd) -> Result<usize, OutOfMemory> {
    let mut scratch = Scratch::new(alloc);
    let mut reader = Reader::new(text, &mut scratch)?;
    let mut offset = reader.offset();
    while let Some(token) = reader.next() {
        if let Token::Number(digits) = token {
            if odd.is_said_of(alloc, digits)? {
                return Ok(offset);
            }
        }
        offset = reader.offset();
    }
    Ok(0)
}

impl Odd {
    /// Whether a number that is written so is odd so.
    fn is_said_of(self, alloc: Global, digits: &str) -> Result<bool, OutOfMemory> {
        match self {
            Odd::NotWhole => Ok(digits == "-0" || digits.parse::<i64>().is_err()),
            Odd::TooLarge => match Value::from_str(alloc, digits) {
                Ok(_) => Ok(false),
                Err(error) if error.is_memory() => Err(OutOfMemory),
                Err(_) => Ok(true),
            },
        }
    }
}
