//! Why a call finds no entry.
ghost use Rattle.std.specs.Prelude.{◌≡◌, ◌++◌, ◌∷◌, [], true, false, IsTrue, List, option_copied, IfOk, OnErr};
ghost use Rattle.std.specs.List.{All};
ghost use Rattle.comemo_base.specs.Answers.{Agrees};
ghost use Rattle.comemo_base.specs.Lookup.{under, FindsAgreeing, IsAsked, IsRefused};
ghost use Rattle.comemo_base.specs.Tree.{IsSamePath};
ghost use Rattle.comemo_cache.specs.Meaning.{invocation};
ghost use Rattle.comemo_cache.specs.Explaining.{Explains};

use crate::cache::{CacheData, Function, Meant};
use comemo_track::answer::Answer;
use comemo_track::input::Input;
use comemo_track::track::Call;
use comemo_tree::CallTree;
use std::alloc::{AllocError, Global};
use std::hash::Hash;

/// Why a call of a memoized function is a hit or a run.
#[derive(Debug, Drop)]
pub enum Explanation<C, R> {
    /// An entry agrees with the arguments: the call is a hit.
    Hit,
    /// No entry is kept under the key.
    NeverKept,
    /// Entries are kept under the key, and none agrees with the arguments.
    Changed {
        /// What is still answered as a kept run was answered, in the order in which the run asked.
        asked: Vec<(C, R)>,
        /// The call that this run asked next.
        call: C,
        /// What the call is answered now. No kept run with the same answers before it was answered so.
        answer: R,
    },
}

/// The value under a key whose path agrees with an input's answers. Each call that is asked is noted with its answer.
///
/// Fails if an answer, or a clone for the notes, fails to allocate.
fn note_agreeing<'a, K: Clone + Eq + Hash, In: Input, T>(
    tree: &'a CallTree<K, In::Call, In::Answer, T>,
    key: &K,
    input: &mut In,
    notes: &mut Vec<(In::Call, In::Answer)>,
) -> Result<Option<&'a T>, AllocError>
where
    In::Answer: Answer,
    requires reads { All (λ e. All (λ p. In.Call.is_write p.0 ≡ false) e.path) tree.now }
    requires nothing { notes.old.items ≡ [] }
    ensures same { In.did input.old input.new [] }
    ensures found { IfOk result (λ found. FindsAgreeing In.Call.eq In.Answer.eq
        (under K.eq tree.now key.now) (In.answers input.old) (option_copied found)) }
    ensures noted { IfOk result (λ found. (asked : List (In.Call × In.Answer))
        × IsSamePath In.Call.eq In.Answer.eq asked notes.new.items
        × Agrees In.Answer.eq (In.answers input.old) asked
        × IsAsked In.Call.eq In.Answer.eq (under K.eq tree.now key.now) asked
        (option_copied found)) }
    ensures err { OnErr result ((asked : List (In.Call × In.Answer)) × (next : In.Call)
        × Agrees In.Answer.eq (In.answers input.old) asked
        × IsRefused In.Call.eq In.Answer.eq (under K.eq tree.now key.now) asked next) }
{
    // For the proof: at most one stored path agrees.
    tree.reveal_tree();
    tree.get(
        key,
        &mut |call: &In::Call| -> Result<In::Answer, AllocError>
            requires { In.Call.is_write call.now ≡ false }
            ensures answer { IfOk result
                (λ answer. IsTrue (In.Answer.eq (In.answers input.entry.now call.now) answer)) }
            ensures noted { IfOk result (λ answer. (copy : In.Call × In.Answer)
                × (notes.exit.now.items ≡ notes.entry.now.items ++ copy ∷ [])
                × In.Call.is_clone call.now copy.0 × In.Answer.is_clone answer copy.1) }
            ensures same { In.did input.entry.now input.exit.now [] }
            ensures name { input.exit.ghost_name ≡ input.entry.ghost_name }
            ensures notes_name { notes.exit.ghost_name ≡ notes.entry.ghost_name }
        {
            let answer = input.call(call)?;
            let pair = (call.clone()?, answer.clone()?);
            notes.push(pair)?;
            Ok(answer)
        },
    )
}

impl<M: Function> CacheData<M> {
    /// Says why a call finds an entry or none. Nothing changes.
    ///
    /// It asks what a look-up asks, and clones each call and each answer.
    /// Fails if the input's answer to a call, or a clone of it, fails to allocate.
    pub fn explain<In: Input<Call = M::Call, Key = M::Key, Answer = M::Answer>>(
        &self,
        alloc: Global,
        key: &M::Key,
        input: &mut In,
    ) -> Result<Explanation<M::Call, M::Answer>, AllocError>
        ensures same { In.did input.old input.new [] }
        ensures explains { IfOk result (Explains ⟦<M as Meant>⟧.meaning self.now
            (invocation key.now (In.answers input.old) true)) }
        ensures err { OnErr result ((asked : List (M.Call × M.Answer)) × (next : M.Call)
            × Agrees M.Answer.eq (In.answers input.old) asked
            × IsRefused M.Call.eq M.Answer.eq (under M.Key.eq self.now key.now) asked next) }
    {
        let mut asked: Vec<(M::Call, M::Answer)> = Vec::new(alloc);
        if note_agreeing(&self.tree, key, input, &mut asked)?.is_some() {
            return Ok(Explanation::Hit);
        }
        match asked.pop() {
            Some((call, answer)) => Ok(Explanation::Changed {
                asked,
                call,
                answer,
            }),
            None => Ok(Explanation::NeverKept),
        }
    }
}
