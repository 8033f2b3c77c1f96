//! Attempts, as a mock file numbers them.

use crate::places::Place;
use crate::refusals::{SuiteFault, SuiteRefusal};
use asl_tree::Tree;
use std::alloc::Global;
use std::collections::BTreeMap;

/// Attempts that get the same answer: the first, and so many further ones.
#[derive(Debug, Drop)]
pub(crate) struct Attempts<'a> {
    pub first: u32,
    pub further: u32,
    /// As they are named.
    pub name: &'a str,
    pub answer: &'a Tree,
}

/// The attempts that the fields name, in the order of their numbers. Refused: BadAttempt; AttemptMissing and
/// AttemptTwice, where they aren't 0, 1, 2 and so on.
pub(crate) fn read_attempts<'a>(
    alloc: Global,
    place: &Place<'_>,
    fields: &'a BTreeMap<String, Tree>,
) -> Result<Vec<Attempts<'a>>, SuiteRefusal> {
    let mut all = Vec::with_capacity(alloc, fields.len())?;
    for (name, answer) in fields.iter() {
        match attempts_of(name, answer) {
            Some(attempts) => all.push(attempts)?,
            None => {
                return Err(Place::Field(place, name).refusal(alloc, SuiteFault::BadAttempt));
            }
        }
    }
    all.sort_by_key(|attempts| attempts.first)?;
    are_gapless(alloc, place, &all)?;
    Ok(all)
}

/// Refused: AttemptMissing, AttemptTwice.
fn are_gapless(alloc: Global, place: &Place<'_>, all: &[Attempts<'_>]) -> Result<(), SuiteRefusal> {
    let mut next = 0u64;
    for attempts in all {
        let first = u64::from(attempts.first);
        if first != next {
            let fault = if next < first {
                SuiteFault::AttemptMissing(next)
            } else {
                SuiteFault::AttemptTwice(first)
            };
            return Err(Place::Field(place, attempts.name).refusal(alloc, fault));
        }
        next = first + u64::from(attempts.further) + 1;
    }
    Ok(())
}

/// The attempts of a name as `0` or `1-2`.
fn attempts_of<'a>(name: &'a str, answer: &'a Tree) -> Option<Attempts<'a>> {
    let (first, last) = match name.split_once('-') {
        Some((first, last)) => (number_of(first)?, number_of(last)?),
        None => {
            let number = number_of(name)?;
            (number, number)
        }
    };
    let further = last.checked_sub(first)?;
    Some(Attempts {
        first,
        further,
        name,
        answer,
    })
}

/// The number that digits spell.
fn number_of(digits: &str) -> Option<u32> {
    if digits.as_bytes().iter().all(|byte| byte.is_ascii_digit()) {
        digits.parse::<u32>().ok()
    } else {
        None
    }
}
