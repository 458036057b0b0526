//! Laws of the definitions that `comemo_base`'s contracts cite: none of them distinguishes equal keys, calls or
//! answers.
//!
//! Each function here does nothing when it runs. What it ensures is the law.
ghost use Rattle.comemo_tree_tests.specs.Laws.{AgreesAlike, HasDistinctCallsAlike, PartsAlike, FindsAlike, ExistsAlike, MissesAlike, UnderAlike, HeldAlike, AbsorbedAlike, OutsideAlike, IsPrefixAlike, IsNextAlike, IsAskedAlike, IsRefusedAlike, FindsPathAlike, IsStemAlike, IsNewPathAlike, IsTreeAlike, WasSeenAlike};

use std::hash::Hash;

/// Answers that are the same for equal calls agree with both of two equal paths, or with neither.
pub fn agree_alike<C: Eq + Hash, R: Ord>()
    ensures { AgreesAlike C.eq R.eq }
{}

/// The calls of both of two equal paths are distinct, or of neither.
pub fn have_distinct_calls_alike<C: Eq + Hash, R: Ord>()
    ensures { HasDistinctCallsAlike C.eq R.eq }
{}

/// If two paths part, so do any two that are equal to them.
pub fn part_alike<C: Eq + Hash, R: Ord>()
    ensures { PartsAlike C.eq R.eq }
{}

/// Answers that are equal at each call find the same entries.
pub fn find_alike<K, C: Eq + Hash, R: Ord, T>()
    ensures { FindsAlike C.eq R.eq K T }
{}

/// Both of two equal sequences have the pairs of a stored path, or neither has.
pub fn exist_alike<K, C: Eq + Hash, R: Ord, T>()
    ensures { ExistsAlike C.eq R.eq K T }
{}

/// Both of two equal sequences lack a call of a stored path, or neither does.
pub fn miss_alike<K, C: Eq + Hash, R: Ord, T>()
    ensures { MissesAlike C.eq R.eq K T }
{}

/// Two equal paths hold the same calls, up to equality.
pub fn hold_alike<C: Eq + Hash, R: Ord>()
    ensures { HeldAlike C.eq R.eq }
{}

/// Equal sequences that absorb equal pairs stay equal.
pub fn absorb_alike<C: Eq + Hash, R: Ord>()
    ensures { AbsorbedAlike C.eq R.eq }
{}

/// The pairs of equal sequences outside equal prefixes are equal.
pub fn are_outside_alike<C: Eq + Hash, R: Ord>()
    ensures { OutsideAlike C.eq R.eq }
{}

/// If a path is a prefix of another, so is any path equal to it of any path equal to the other.
pub fn are_prefixes_alike<C: Eq + Hash, R: Ord>()
    ensures { IsPrefixAlike C.eq R.eq }
{}

/// After equal prefixes of equal paths, equal calls are next.
pub fn are_next_alike<C: Eq + Hash, R: Ord>()
    ensures { IsNextAlike C.eq R.eq }
{}

/// Look-ups that ask equal lists find the same.
pub fn are_asked_alike<K, C: Eq + Hash, R: Ord, T>()
    ensures { IsAskedAlike C.eq R.eq K T }
{}

/// Look-ups that ask equal lists fail at equal calls.
pub fn are_refused_alike<K, C: Eq + Hash, R: Ord, T>()
    ensures { IsRefusedAlike C.eq R.eq K T }
{}

/// Answers that are equal at each call find equal paths with the same value, or no path.
pub fn find_paths_alike<K, C: Eq + Hash, R: Ord, T>()
    ensures { FindsPathAlike C.eq R.eq K T }
{}

/// Equal sequences have equal stems.
pub fn are_stems_alike<K, C: Eq + Hash, R: Ord, T>()
    ensures { IsStemAlike C.eq R.eq K T }
{}

/// Equal sequences are stored at equal paths.
pub fn are_new_paths_alike<K, C: Eq + Hash, R: Ord, T>()
    ensures { IsNewPathAlike C.eq R.eq K T }
{}

/// Lists of entries with equal keys and paths, place by place, are both a tree's, or neither is.
pub fn are_trees_alike<K: Eq + Hash, C: Eq + Hash, R: Ord, T>()
    ensures { IsTreeAlike C.eq R.eq K T K.eq }
{}

/// A sequence saw both of two equal calls, or neither.
pub fn were_seen_alike<C: Eq + Hash, R>()
    ensures { WasSeenAlike C.eq R }
{}

/// Equal keys have the same entries.
pub fn are_under_alike<K: Eq + Hash, C, R, T>()
    ensures { UnderAlike K.eq C R T }
{}
