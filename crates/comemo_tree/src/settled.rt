//! A call tree whose paths are all runs of one function. Its operations cost what those of [`CallTree`] do.
ghost use Rattle.std.specs.Prelude.{◌≡◌, [], List, IfOk, IfErr, OnOk, OnErr, IsOk, option_copied};
ghost use Rattle.std.specs.List.{All};
ghost use Rattle.std.specs.Fn.{AlwaysReturns};
ghost use Rattle.comemo_base.specs.Answers.{Agrees};
ghost use Rattle.comemo_base.specs.Insertion.{Adds};
ghost use Rattle.comemo_base.specs.Lookup.{under, CanBeAsked, LooksUp, IsLookupRefused, FindsAgreeing, ForAnswers};
ghost use Rattle.comemo_tree.specs.Retain.{Retains, ReturnsAtMut};
ghost use Rattle.comemo_tree.specs.Shape.{IsShape};
ghost use Rattle.comemo_base.specs.Runs.{AsksLaws, IsRun, IsSettled, IsRunReason};
ghost use Rattle.comemo_base.specs.Sets.{HasSet, FindsSet, HasEachSetOnce, AddsSet};
ghost use Rattle.comemo_tree.specs.StepLists.{InsertsRun, IsStep, AreSteps, KeepsSets, StoresAllSets};

use crate::CallTree;
use crate::steps::{Keep, TreeOp, TreeReply};
use comemo_base::{CallSequence, InsertError};
use std::alloc::{AllocError, Global};
use std::hash::Hash;
use std::marker::{Model, PhantomData};

/// Which calls a function asks under a key and given answers, in any order. It is a definition for contracts; no
/// program computes it.
pub trait Asks {
    /// The function's argument.
    type Key: Clone + Eq + Hash + Drop;

    /// What it may ask.
    type Call: Eq + Hash + Drop;

    /// What the answers are.
    type Answer: Ord + Drop;

    /// Whether a call is asked under a key and the answers to all calls.
    ghost asks: { Self.Key → (Self.Call → Self.Answer) → Self.Call → Type 0 };

    /// Equal keys and equal calls are treated alike, and a clone of a key is equal to it.
    ghost laws: { AsksLaws Self.Key.eq Self.Call.eq Self.Key.is_clone asks };
}

/// A call tree for the runs of a function that asks what its key and the answers so far determine, in any order.
///
/// Each path is causal and complete for the calls that `A` names: each of its calls is asked under all answers that
/// agree with the pairs before it, and under all that agree with the whole path exactly its calls are asked. Contracts
/// see the tree as its list of entries, as those of [`CallTree`] do.
#[derive(Drop)]
pub struct Settled<A: Asks, T> {
    tree: CallTree<A::Key, A::Call, A::Answer, T>,
    of: PhantomData<A>,
}

impl<A: Asks, T> Model for Settled<A, T> {
    ghost use Rattle.std.specs.Prelude.{List};
    ghost use Rattle.std.specs.Coded.{coded_list};
    ghost use Rattle.comemo_base.specs.Tree.{Stored, stored_code};
    ghost use Rattle.comemo_base.specs.Runs.{IsSettled};

    ghost Value = { List (Stored A.Key A.Call A.Answer T) };

    ghost coded = { coded_list (stored_code A.Key.code A.Call.code A.Answer.code T.code) };

    ghost view = { λ s. s.tree };

    ghost invariant = { λ s. IsSettled A.Call.eq A.Answer.eq A.asks s.tree };
}

impl<A: Asks, T> Settled<A, T> {
    /// An empty tree. Does not allocate.
    pub fn new(alloc: Global) -> Self
        ensures { result ≡ [] }
    {
        Settled {
            tree: CallTree::new(alloc),
            of: PhantomData,
        }
    }

    /// Makes the tree's invariant known to a proof. Does nothing at run time.
    pub fn reveal_runs(&self)
        ensures settled { IsSettled A.Call.eq A.Answer.eq A.asks self.now }
        ensures once { HasEachSetOnce A.Call.eq A.Answer.eq A.Key.eq self.now }
    {
        // For the proof: at most one stored path agrees.
        self.tree.reveal_tree();
    }

    /// As [`CallTree::get`]. A set of pairs is found whichever order its path has.
    pub fn get<O: FnMut(&A::Call) -> Result<A::Answer, AllocError>>(
        &self,
        key: &A::Key,
        oracle: &mut O,
    ) -> Result<Option<&T>, AllocError>
        requires { CanBeAsked O.FnMut (under A.Key.eq self.now key.now) oracle.old }
        ensures asked { IfOk result (λ found.
            LooksUp O.FnMut A.Call.eq A.Answer.eq (under A.Key.eq self.now key.now)
            oracle.old oracle.new (option_copied found)) }
        ensures refused { IfErr result (λ e.
            IsLookupRefused O.FnMut A.Call.eq A.Answer.eq (under A.Key.eq self.now key.now)
            oracle.old e oracle.new) }
        ensures answered { AlwaysReturns O.FnMut (λ a r. IsOk r) oracle.old → IsOk result }
        ensures agreeing { ForAnswers O.FnMut A.Call.eq A.Answer.eq oracle.old (λ m.
            IfOk result (λ found.
            FindsAgreeing A.Call.eq A.Answer.eq (under A.Key.eq self.now key.now) m
            (option_copied found))) }
        ensures found { ForAnswers O.FnMut A.Call.eq A.Answer.eq oracle.old (λ m.
            (pairs : List (A.Call × A.Answer))
            → HasSet A.Call.eq A.Answer.eq (under A.Key.eq self.now key.now) pairs
            → Agrees A.Answer.eq m pairs
            → IfOk result (λ found.
            FindsSet A.Call.eq A.Answer.eq (under A.Key.eq self.now key.now) pairs
            (option_copied found))) }
    {
        // For the proof: at most one stored path agrees.
        self.tree.reveal_tree();
        self.tree.get(key, oracle)
    }

    /// How many inner nodes, leaves, edges and keys the tree has, as [`CallTree::shape`].
    pub fn shape(&self) -> (usize, usize, usize, usize)
        ensures { IsShape A.Call.eq A.Answer.eq A.Key.eq self.now result }
    {
        self.tree.shape()
    }
}

impl<A: Asks, T: Drop> Settled<A, T> {
    /// Stores a value under a key and the pairs of a run of the function.
    ///
    /// `AlreadyExists` means that the same pairs are stored, in any order; `MissingCall` never occurs. On error all
    /// arguments are dropped.
    pub fn insert(
        &mut self,
        key: A::Key,
        sequence: CallSequence<A::Call, A::Answer>,
        value: T,
    ) -> Result<(), InsertError>
        requires { IsRun A.Call.eq A.Answer.eq (A.asks key) sequence.pairs }
        ensures settled { IsSettled A.Call.eq A.Answer.eq A.asks self.new }
        ensures set { OnOk result
            (AddsSet A.Call.eq A.Answer.eq A.Key.eq key sequence.pairs value self.old self.new) }
        ensures path { OnOk result
            (Adds A.Call.eq A.Answer.eq A.Key.eq self.old key sequence.pairs value self.new) }
        ensures there { OnOk result
            (HasSet A.Call.eq A.Answer.eq (under A.Key.eq self.new key) sequence.pairs) }
        ensures reason { IfErr result (IsRunReason
            (HasSet A.Call.eq A.Answer.eq (under A.Key.eq self.old key) sequence.pairs)) }
        ensures err { OnErr result (self.new ≡ self.old) }
    {
        // For the proof: the sequence has each call once.
        sequence.reveal_distinct_calls();
        self.tree.insert(key, sequence, value)
    }

    /// Shows each value to a test, which may change it, and drops the entries for which it returns false.
    pub fn retain<F: Fn(&mut T) -> bool>(&mut self, f: F)
        requires { F.IsAlwaysCallable f }
        ensures settled { IsSettled A.Call.eq A.Answer.eq A.asks self.new }
        ensures kept { Retains (ReturnsAtMut F.Fn f) self.old self.new }
    {
        self.tree.retain(f);
    }

    fn step<P: Keep<T> + Drop>(&mut self, op: TreeOp<A::Key, A::Call, A::Answer, T, P>) -> TreeReply
        requires { InsertsRun A.Call.eq A.Answer.eq A.asks op }
        ensures settled { IsSettled A.Call.eq A.Answer.eq A.asks self.new }
        ensures step { IsStep A.Call.eq A.Answer.eq A.Key.eq P.keeps op result self.old self.new }
    {
        match op {
            TreeOp::Insert(key, sequence, value) => match self.insert(key, sequence, value) {
                Ok(()) => TreeReply::Inserted,
                Err(InsertError::AlreadyExists) => TreeReply::AlreadyExists,
                // A run of the function lacks no stored call.
                Err(InsertError::MissingCall) => unreachable!(),
                Err(InsertError::Memory) => TreeReply::Memory,
            },
            TreeOp::Retain(keep) => {
                self.retain(
                    |value: &mut T| -> bool
                        ensures { P.keeps keep value.old result value.new }
                    { keep.keep(value) },
                );
                TreeReply::Retained
            }
        }
    }

    /// Does steps in turn, and returns a reply for each.
    ///
    /// Fails, before the first step, if the list of replies can't be allocated. A step that runs out of memory changes
    /// nothing, and the next ones are still done.
    pub fn run<P: Keep<T> + Drop>(
        &mut self,
        alloc: Global,
        ops: Vec<TreeOp<A::Key, A::Call, A::Answer, T, P>>,
    ) -> Result<Vec<TreeReply>, AllocError>
        requires { All (InsertsRun A.Call.eq A.Answer.eq A.asks) ops.items }
        ensures settled { IsSettled A.Call.eq A.Answer.eq A.asks self.new }
        ensures steps { IfOk result (λ replies.
            AreSteps A.Call.eq A.Answer.eq A.Key.eq P.keeps
            ops.items replies.items self.old self.new) }
        ensures stays { OnOk result
            (KeepsSets A.Call.eq A.Answer.eq A.Key.eq P.keeps ops.items self.old self.new) }
        ensures sets { IfOk result (λ replies.
            StoresAllSets A.Call.eq A.Answer.eq A.Key.eq
            ops.items replies.items self.old self.new) }
        ensures err { OnErr result (self.new ≡ self.old) }
    {
        // For the proof: each stored path is a run.
        self.reveal_runs();
        let mut replies = Vec::with_capacity(alloc, ops.len())?;
        for op in ops {
            let reply = self.step(op);
            replies.push_reserved(reply);
        }
        Ok(replies)
    }
}
