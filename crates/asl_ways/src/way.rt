//! The way that ends in a visit.

ghost use Rattle.std.specs.Prelude.{◌≡◌, ◌+◌, ◌≤◌, length, IfOk};
ghost use Rattle.asl_ways.specs.Way.{before_at, IsWay};

use crate::visiting::Visit;
use asl_tree::OutOfMemory;
use std::alloc::Global;

/// The visits of the way that ends in the visit of that number, by their numbers, from the start: each of them is the one
/// before the next, and stands in front of it. Refuses only where an allocation was refused.
pub fn way_to(alloc: Global, visits: &[Visit], last: usize) -> Result<Vec<usize>, OutOfMemory>
    ensures way { IfOk result (λ way. IsWay visits.now way.items last) }
    ensures many { IfOk result (λ way. length way.items ≤ last + 1) }
{
    let mut way = Vec::new(alloc);
    let mut place = last;
    way.push(place)?;
    while let Some(before) = before_of(visits, place) {
        place = before;
        way.push(place)?;
    }
    way.reverse();
    Ok(way)
}

/// The number of the visit before that one, if there is one, and if it stands in front of it.
fn before_of(visits: &[Visit], place: usize) -> Option<usize>
    ensures { result ≡ before_at visits.now place }
{
    let before = visits.get(place)?.before?;
    if before < place { Some(before) } else { None }
}
