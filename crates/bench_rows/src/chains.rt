//! The row of chains, which borrow one another.

use crate::calls::comes_to;
use comemo::{CacheData, How};
use comemo_examples::chains::{Chain, IsInChain};
use std::alloc::Global;

/// Whether the call says that a chain has a number or not, and came about like this.
fn says(
    alloc: Global,
    cache: &mut CacheData<IsInChain>,
    chain: &Chain<'_>,
    number: u32,
    output: bool,
    how: How,
) -> bool {
    comes_to(alloc, cache, number, chain, output, how)
}

/// Whether chains with equal answers share entries.
pub(crate) fn chains_share_what_is_kept(alloc: Global) -> bool {
    let mut cache: CacheData<IsInChain> = CacheData::new(alloc);
    let one = Chain::new(1);
    let three = Chain::new(3);
    let to_two = Chain::insert(&one, 2);
    let to_three = Chain::insert(&to_two, 3);
    let to_four = Chain::insert(&to_two, 4);
    let to_five = Chain::insert(&to_four, 5);
    let lacks = says(alloc, &mut cache, &one, 0, false, How::Stored);
    let has = says(alloc, &mut cache, &one, 1, true, How::Stored);
    let has_two = says(alloc, &mut cache, &to_three, 2, true, How::Stored);
    let by_four = says(alloc, &mut cache, &to_four, 2, true, How::Hit);
    let by_two = says(alloc, &mut cache, &to_two, 2, true, How::Hit);
    let by_five = says(alloc, &mut cache, &to_five, 2, true, How::Hit);
    let lacks_two = says(alloc, &mut cache, &one, 2, false, How::Stored);
    let by_three = says(alloc, &mut cache, &three, 2, false, How::Hit);
    lacks && has && has_two && by_four && by_two && by_five && lacks_two && by_three
}
