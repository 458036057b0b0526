//! A sequence with texts as calls and answers, each allocated where it is used.
use comemo_base::CallSequence;
use std::alloc::Global;

type Texts = CallSequence<String, String>;

// Whether the pair of a call is added, and the call is new or not, as wanted.
fn adds(alloc: Global, sequence: &mut Texts, call: &str, answer: &str, is_new: bool) -> bool {
    let Ok(call) = String::from_str(alloc, call) else {
        return false;
    };
    match String::from_str(alloc, answer) {
        Ok(answer) => sequence.insert(call, answer) == Ok(is_new),
        Err(_) => false,
    }
}

// Whether the pair of a call is extracted, with this answer.
fn gives(alloc: Global, sequence: &mut Texts, call: &str, wanted: &str) -> bool {
    let Ok(call) = String::from_str(alloc, call) else {
        return false;
    };
    match sequence.extract(&call) {
        Some(answer) => answer.as_str() == wanted,
        None => false,
    }
}

#[test]
fn equal_calls_are_seen_as_one(rt: HostRuntime) {
    let alloc = rt.alloc();
    let mut sequence = CallSequence::new(alloc);
    assert!(rt; adds(alloc, &mut sequence, "title", "Ada", true));
    assert!(rt; adds(alloc, &mut sequence, "title", "Bea", false));
    assert!(rt; gives(alloc, &mut sequence, "title", "Ada"));
    assert!(rt; sequence.next().is_none());
}
