//! A text whose clones share its bytes.
ghost use Rattle.std.specs.Prelude.{◌≡◌, [], length, bytes_eq, string_bytes, IfOk, refl, Some};
ghost use Rattle.std.specs.Hash as fed;
ghost use Rattle.std.specs.Cmp.Lexicographic.{nat_list_eq_equiv, bytes_decides};
ghost use Rattle.calc_core.specs.Order.{digest, by_number, by_number_total, by_number_ties, by_number_po};
ghost use Rattle.std.specs.Cmp.{partial_equiv_from_equiv};
ghost use Rattle.std.proofs.Common.{ap, rules};

use comemo::Answer;
use std::alloc::{AllocError, Global};
use std::cmp::Ordering;
use std::fmt;
use std::fmt::{Debug, Formatter, Write};
use std::hash::{FoldHasher, Hash, Hasher};
use std::marker::Model;
use std::sync::ArcStr;

/// A text whose clones share its bytes. Contracts see the bytes, by which texts are told apart.
///
/// It also holds a hash of the bytes, which it feeds to hashers. Texts are ordered by hash first, then by bytes. So a
/// search among many texts reads the bytes of few.
///
/// Cloning does not allocate; it fails only if the count of clones is full.
#[derive(Drop)]
pub struct Text {
    // The bytes. The empty text may have none.
    shared: Option<ArcStr>,
    // The hash of the bytes.
    number: u64,
}

impl Model for Text {
    ghost use Rattle.std.specs.Prelude.{ℕ, List, [], option_map, unwrap_or};
    ghost use Rattle.std.specs.Arc.{arc_str_bytes};

    ghost Value = { List ℕ };

    ghost view = { λ t. unwrap_or (option_map arc_str_bytes t.shared) [] };

    ghost use Rattle.std.specs.Prelude.{◌≡◌};
    ghost use Rattle.calc_core.specs.Order.{digest};

    ghost invariant = { λ t. t.number ≡ digest (unwrap_or (option_map arc_str_bytes t.shared) []) };
}

/// The hash of a text: that of std's map.
fn number_of(text: &str) -> u64
    ensures { result ≡ digest text.now }
{
    let mut hasher = FoldHasher::default();
    hasher.write(text.as_bytes());
    hasher.finish()
}

impl Text {
    /// The empty text. Does not allocate.
    pub fn empty() -> Self
        ensures { result ≡ [] }
    {
        Text {
            shared: None,
            number: number_of(""),
        }
    }

    /// A shared text, copied from a `str`.
    pub fn from_str(alloc: Global, text: &str) -> Result<Self, AllocError>
        ensures { IfOk result (λ shared. shared ≡ text.now) }
    {
        let own = String::from_str(alloc, text)?;
        Text::new(own)
    }

    /// A shared text made of a `String`, whose bytes aren't copied. On error the string is dropped.
    pub fn new(text: String) -> Result<Self, AllocError>
        ensures { IfOk result (λ shared. shared ≡ string_bytes text) }
    {
        let number = number_of(text.as_str());
        let shared = ArcStr::from_string(text)?;
        Ok(Text {
            shared: Some(shared),
            number,
        })
    }

    /// The text.
    pub fn as_str(&self) -> &str
        ensures { result.now ≡ self.now }
    {
        match &self.shared {
            Some(text) => text.as_str(),
            None => "",
        }
    }

    /// The length in bytes.
    pub fn len(&self) -> usize
        ensures { result ≡ length self.now }
    {
        self.as_str().len()
    }
}

impl Clone for Text {
    ghost is_clone = { λ text copy. copy ≡ text };

    fn clone(&self) -> Result<Self, AllocError> {
        Ok(Text {
            shared: self.shared.clone()?,
            number: self.number,
        })
    }
}

impl PartialEq for Text {
    ghost eq = { bytes_eq };

    ghost laws = { partial_equiv_from_equiv nat_list_eq_equiv };

    fn eq(&self, other: &Self) -> bool {
        self.number == other.number && self.as_str() == other.as_str()
    }
}

impl Eq for Text {
    ghost laws = { nat_list_eq_equiv };
}

impl PartialOrd for Text {
    ghost partial_cmp = { λ x y. Some (by_number x y) };

    ghost laws = { by_number_po };

    fn partial_cmp(&self, other: &Self) -> Option<Ordering> {
        Some(self.cmp(other))
    }
}

impl Ord for Text {
    ghost cmp = { by_number };

    ghost total = { by_number_total };

    ghost matches_partial_cmp = { λ x y. refl };

    ghost matches_eq = { by_number_ties };

    fn cmp(&self, other: &Self) -> Ordering {
        match self.number.cmp(&other.number) {
            Ordering::Equal => self.as_str().cmp(other.as_str()),
            unequal => unequal,
        }
    }
}

impl Answer for Text {
    ghost clones = { λ x y h. Prim.search rules };
}

impl Hash for Text {
    ghost hash_input = { λ text. fed.u64 (digest text) };

    ghost respects_eq = { λ x y same.
        ap (λ text. fed.u64 (digest text)) ((bytes_decides x y).0 same) };

    fn hash<H: Hasher>(&self, state: &mut H) {
        self.number.hash(state);
    }
}

impl Debug for Text {
    fn fmt<W: Write>(&self, f: &mut Formatter<W>) -> fmt::Result {
        Debug::fmt(&self.as_str(), f)
    }
}
