//! The second example at the head of the crate `comemo_examples`. The first is among the calls of `guide`.

use comemo::Track;
use comemo_examples::{Cells, Get, Town, TownCall};
use std::alloc::Global;

/// Whether cells and a town answer as documented.
fn are_answered(alloc: Global) -> bool {
    let Ok(mut cells) = Cells::new(alloc, 3) else {
        return false;
    };
    let before = cells.ask(&Get { place: 2 }) == Ok(7);
    cells.set(2, 40);
    let after = cells.ask(&Get { place: 2 }) == Ok(40);
    let behind = cells.ask(&Get { place: 3 }) == Ok(0);
    let town = Town {
        people: 900,
        degrees: 21,
    };
    before && after && behind && town.ask(&TownCall::Degrees) == Ok(21)
}

#[test]
fn cells_and_a_town_answer(rt: HostRuntime) {
    let is_so = are_answered(rt.alloc());
    assert!(rt; is_so);
}
