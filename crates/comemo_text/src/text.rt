//! A text that contracts see as its bytes, and whose clones share them.
ghost use Rattle.std.specs.Prelude.{◌≡◌, Some, bytes_eq, refl, string_bytes, IfOk};
ghost use Rattle.std.proofs.Common.{ap};
ghost use Rattle.std.specs.Cmp.{partial_equiv_from_equiv};
ghost use Rattle.std.specs.Cmp.Lexicographic.{slice_cmp, bytes_decides, nat_list_eq_equiv, nat_list_cmp_total, texts_po, texts_ties};
ghost use Rattle.std.specs.Hash as fed;
ghost use Rattle.std.specs.Ordering.{nat_cmp};
ghost use Rattle.comemo_text.specs.Texts.{digest};
ghost use Rattle.comemo_text.specs.Lists.{equal_if_same};

use comemo::Answer;
use std::alloc::{AllocError, Global};
use std::cmp::Ordering;
use std::fmt;
use std::fmt::{Debug, Formatter, Write};
use std::hash::{FoldHasher, Hash, Hasher};
use std::marker::Model;
use std::sync::ArcStr;

/// A text for keys, calls and answers: contracts see its bytes, and its clones share them.
///
/// Two `String`s of the same bytes are not one value, since each has its own allocation. Two `Text`s of the same bytes
/// are, and so are a `Text` and its clone. So a function over `Text`s has the same laws as one over numbers.
///
/// It also holds a hash of its bytes, which it feeds to hashers, and by which most unequal texts are told apart.
#[derive(Drop)]
pub struct Text {
    shared: ArcStr,
    number: u64,
}

impl Model for Text {
    ghost use Rattle.std.specs.Prelude.{◌≡◌, ℕ, List};
    ghost use Rattle.std.specs.Arc.{arc_str_bytes};
    ghost use Rattle.comemo_text.specs.Texts.{digest};

    ghost Value = { List ℕ };

    ghost view = { λ text. arc_str_bytes text.shared };

    ghost invariant = { λ text. text.number ≡ digest (arc_str_bytes text.shared) };
}

/// The hash of a text: that of std's map.
fn number_of(text: &str) -> u64
    ensures { result ≡ digest text.now }
{
    let mut hasher = FoldHasher::default();
    hasher.write(text.as_bytes());
    hasher.finish()
}

impl Text {
    /// The text of a `String`, whose bytes are not copied. Fails if out of memory.
    pub fn new(string: String) -> Result<Self, AllocError>
        ensures { IfOk result (λ text. text ≡ string_bytes string) }
    {
        let number = number_of(string.as_str());
        let shared = ArcStr::from_string(string)?;
        Ok(Text { shared, number })
    }

    /// A copy of a text. Fails if out of memory.
    pub fn from_str(alloc: Global, text: &str) -> Result<Self, AllocError>
        ensures { IfOk result (λ copy. copy ≡ text.now) }
    {
        let own = String::from_str(alloc, text)?;
        Text::new(own)
    }

    /// The text.
    pub fn as_str(&self) -> &str
        ensures { result.now ≡ self.now }
    {
        self.shared.as_str()
    }
}

impl Clone for Text {
    ghost is_clone = { λ text copy. copy ≡ text };

    fn clone(&self) -> Result<Self, AllocError> {
        let shared = self.shared.clone()?;
        Ok(Text {
            shared,
            number: self.number,
        })
    }
}

impl PartialEq for Text {
    ghost eq = { bytes_eq };

    ghost laws = { partial_equiv_from_equiv nat_list_eq_equiv };

    fn eq(&self, other: &Self) -> bool {
        self.number == other.number && self.as_str() == other.as_str()
    }
}

impl Eq for Text {
    ghost laws = { nat_list_eq_equiv };
}

impl PartialOrd for Text {
    ghost partial_cmp = { λ x y. Some (slice_cmp nat_cmp x y) };

    ghost laws = { texts_po };

    fn partial_cmp(&self, other: &Self) -> Option<Ordering> {
        Some(self.cmp(other))
    }
}

impl Ord for Text {
    ghost cmp = { slice_cmp nat_cmp };

    ghost total = { nat_list_cmp_total };

    ghost matches_partial_cmp = { λ x y. refl };

    ghost matches_eq = { texts_ties };

    fn cmp(&self, other: &Self) -> Ordering {
        self.as_str().cmp(other.as_str())
    }
}

impl Hash for Text {
    ghost hash_input = { λ text. fed.u64 (digest text) };

    ghost respects_eq = { λ x y same.
        ap (λ text. fed.u64 (digest text)) ((bytes_decides x y).0 same) };

    fn hash<H: Hasher>(&self, state: &mut H) {
        self.number.hash(state);
    }
}

impl Debug for Text {
    fn fmt<W: Write>(&self, f: &mut Formatter<W>) -> fmt::Result {
        Debug::fmt(&self.as_str(), f)
    }
}

impl Answer for Text {
    ghost clones = { equal_if_same nat_list_eq_equiv };
}
