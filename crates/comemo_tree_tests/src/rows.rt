//! The orders of a run.
use comemo_base::InsertError;
use comemo_examples::letters::{Letters, insert, run_of};
use comemo_tree::Settled;
use std::alloc::Global;

/// Whether an insertion of the run with these answers, in one of its orders, has this result.
fn inserts(
    alloc: Global,
    tree: &mut Settled<Letters, char>,
    order: u64,
    b: u128,
    c: u128,
    wanted: Result<(), InsertError>,
) -> bool {
    let Ok(pairs) = run_of(alloc, order, 1, b, c) else {
        return false;
    };
    insert(alloc, tree, pairs, 'x') == wanted
}

#[test]
fn each_order_of_a_run_is_one_set(rt: HostRuntime) {
    let alloc = rt.alloc();
    let mut tree = Settled::new(alloc);
    for number in 0..16_u64 {
        let (b, c) = (u128::from(number % 4), u128::from(number / 4));
        let exists = Err(InsertError::AlreadyExists);
        assert!(rt; inserts(alloc, &mut tree, number % 3, b, c, Ok(())));
        assert!(rt; inserts(alloc, &mut tree, (number + 1) % 3, b, c, exists));
        assert!(rt; inserts(alloc, &mut tree, (number + 2) % 3, b, c, exists));
    }
    assert_eq!(rt; tree.shape().1, 16);
}
