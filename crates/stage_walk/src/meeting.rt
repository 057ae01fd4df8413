// The places of the entries that a walk meets.

ghost use Rattle.std.specs.Prelude.{◌≡◌, ◌^◌, ◌<◌, IfSome, map};
ghost use Rattle.arch_defs.specs.Walk.{levels, met_in, next_of, path};
ghost use Rattle.stage_walk.specs.Meeting.{table_below};

use crate::entries::{Visit, last_end};
use crate::fetching::Fetch;
use crate::places::{is_canonical, levels, place_of};
use crate::walking::visit;
use arch_defs::{Access, Shape};
use arrayvec::ArrayVec;

// The table that the entry met in the table of a frame leads to, if it leads to one.
fn below<F: Fetch>(
    fetch: &F,
    shape: Shape,
    va: u64,
    access: Access,
    level: u8,
    table: u64,
) -> Option<u64>
    requires level { level < levels shape }
    requires table { table < 2 ^ 44 }
    requires backed { F.is_backed fetch.now }
    ensures next { result ≡ table_below (next_of access (met_in (F.reading fetch.now) shape va level table)) }
    ensures small { IfSome result (λ frame. frame < 2 ^ 44) }
{
    let place = place_of(shape, level, table, va);
    match visit(fetch, level, place, access, &mut ()) {
        Visit::Below(frame) => Some(frame),
        Visit::Last(word) => {
            let _end = last_end(shape, level, access, word);
            None
        }
        Visit::Unread(_) => None,
    }
}

/// The places of the entries that a walk of the table whose root is this frame meets, for an access at an
/// address, top level first.
#[tactic(auto, using(crate::proofs::MetPlaces::steps, arch_defs::proofs::Shapes::few_levels))]
pub fn places_met<F: Fetch>(
    fetch: &F,
    root: u64,
    shape: Shape,
    va: u64,
    access: Access,
) -> ArrayVec<u64, 4>
    requires root { root < 2 ^ 44 }
    requires backed { F.is_backed fetch.now }
    ensures { result.items ≡ map (λ met. met.place) (path (F.reading fetch.now) root shape va access) }
{
    let mut places = ArrayVec::new();
    if !is_canonical(shape, va) {
        return places;
    }
    let mut table = root;
    let mut level = levels(shape);
    while level > 0 {
        level -= 1;
        places.push(place_of(shape, level, table, va));
        match below(fetch, shape, va, access, level, table) {
            Some(frame) => table = frame,
            None => return places,
        }
    }
    places
}
