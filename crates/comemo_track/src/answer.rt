//! Answers: what reads of tracked values return, and what is kept of them.
ghost use Rattle.std.specs.Prelude.{IsTrue};
ghost use Rattle.std.proofs.Common.{rules};
ghost use Rattle.comemo_track.specs.AnswerLaws.{items_clone};
ghost use Rattle.comemo_track.specs.InputLaws.{equal_if_one};

use std::rc::Rc;
use std::sync::Arc;

/// An answer to a read. Stored paths hold clones of answers, and look-ups compare them.
///
/// Numbers, `bool`, `char`, `()` and `String` are answers; so are boxes, counted references, vectors, options, results
/// and pairs of answers.
pub trait Answer: Clone + Ord {
    // a clone is equal
    ghost clones: { (x y : Self) → Self.is_clone x y → IsTrue (Self.eq x y) };
}

impl Answer for () {
    ghost clones = { λ x y h. Prim.search rules };
}

impl Answer for bool {
    ghost clones = { λ x y h. Prim.search rules };
}

impl Answer for char {
    ghost clones = { λ x y h. Prim.search rules };
}

impl Answer for u8 {
    ghost clones = { λ x y h. Prim.search rules };
}

impl Answer for u16 {
    ghost clones = { λ x y h. Prim.search rules };
}

impl Answer for u32 {
    ghost clones = { λ x y h. Prim.search rules };
}

impl Answer for u64 {
    ghost clones = { λ x y h. Prim.search rules };
}

impl Answer for u128 {
    ghost clones = { λ x y h. Prim.search rules };
}

impl Answer for usize {
    ghost clones = { λ x y h. Prim.search rules };
}

impl Answer for i8 {
    ghost clones = { λ x y h. Prim.search rules };
}

impl Answer for i16 {
    ghost clones = { λ x y h. Prim.search rules };
}

impl Answer for i32 {
    ghost clones = { λ x y h. Prim.search rules };
}

impl Answer for i64 {
    ghost clones = { λ x y h. Prim.search rules };
}

impl Answer for i128 {
    ghost clones = { λ x y h. Prim.search rules };
}

impl Answer for isize {
    ghost clones = { λ x y h. Prim.search rules };
}

impl Answer for String {
    ghost clones = { λ x y h. Prim.search rules };
}

impl<A: Answer> Answer for Box<A> {
    ghost clones = { λ x y h. Prim.search rules };
}

impl<A: Answer> Answer for Rc<A> {
    ghost clones = { λ x y h. equal_if_one A.Eq.laws _ _ h };
}

impl<A: Answer> Answer for Arc<A> {
    ghost clones = { λ x y h. equal_if_one A.Eq.laws _ _ h };
}

impl<A: Answer> Answer for Option<A> {
    ghost clones = { λ x y h. Prim.search rules };
}

impl<A: Answer, E: Answer> Answer for Result<A, E> {
    ghost clones = { λ x y h. Prim.search rules };
}

impl<A: Answer> Answer for Vec<A> {
    ghost clones = { λ x y h. items_clone A.eq A.is_clone A.clones x.items y.items h.0 };
}

impl<A: Answer, B: Answer> Answer for (A, B) {
    ghost clones = { λ x y h. Prim.search rules };
}
