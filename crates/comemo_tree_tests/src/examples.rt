//! The examples of the first pages of `comemo_base`, `comemo_plain` and `comemo_tree`.

use comemo_base::CallSequence;
use comemo_plain::PlainTree;
use comemo_tree::CallTree;
use std::test::Fail;

#[test]
fn a_sequence_takes_in_a_call_once(rt: HostRuntime) -> Result<(), Fail> {
    let mut run: CallSequence<u8, u64> = CallSequence::new(rt.alloc());
    let _ = run.insert(b'a', 10)?;
    let _ = run.insert(b'b', 20)?;
    assert_eq!(rt; run.extract(&b'b'), Some(20));
    assert_eq!(rt; run.insert(b'b', 30)?, false);
    assert_eq!(rt; run.next(), Some((b'a', 10)));
    assert_eq!(rt; run.next(), None);
    Ok(())
}

#[test]
fn what_is_stored_is_found_by_its_answers(rt: HostRuntime) -> Result<(), Fail> {
    let mut run = CallSequence::new(rt.alloc());
    let _ = run.insert(b'a', 10)?;
    let _ = run.insert(b'b', 20)?;
    let mut tree: PlainTree<u32, u8, u64, u64> = PlainTree::new(rt.alloc());
    tree.insert(7, run, 30)?;
    let found = tree.get(&7, &mut |call: &u8| Ok(if *call == b'a' { 10 } else { 20 }))?;
    assert_eq!(rt; found.copied(), Some(30));
    let other = tree.get(&7, &mut |_: &u8| Ok(10))?;
    assert_eq!(rt; other.copied(), None);
    Ok(())
}

#[test]
fn what_is_stored_is_found_until_it_is_dropped(rt: HostRuntime) -> Result<(), Fail> {
    let mut run = CallSequence::new(rt.alloc());
    let _ = run.insert(b'a', 2)?;
    let mut tree: CallTree<u32, u8, u64, u64> = CallTree::new(rt.alloc());
    tree.insert(7, run, 20)?;
    let found = tree.get(&7, &mut |_: &u8| Ok(2))?;
    assert_eq!(rt; found.copied(), Some(20));
    tree.retain(|value: &mut u64| *value < 20);
    let gone = tree.get(&7, &mut |_: &u8| Ok(2))?;
    assert_eq!(rt; gone.copied(), None);
    Ok(())
}
