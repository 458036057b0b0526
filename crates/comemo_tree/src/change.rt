//! The leaf of the path that has given answers.
ghost use Rattle.std.specs.Prelude.{◌≡◌, Some, IfSome, IfNone, None};
ghost use Rattle.std.specs.List.{All};
ghost use Rattle.comemo_base.specs.Lookup.{under};
ghost use Rattle.comemo_tree.specs.Change.{HasAnswers};
ghost use Rattle.comemo_tree.specs.Nodes.{IsForest, contents};
ghost use Rattle.comemo_tree.specs.Reached.{LeadsByAnswers};

use crate::children::Node;
use crate::tree::{InnerNode, LeafNode, Start};
use slab::Slab;
use std::collections::HashMap;
use std::hash::Hash;

/// The leaf under a key whose path has exactly these answers, in order. Does not allocate.
pub(crate) fn leaf_by_answers<K: Eq + Hash, C: Eq + Hash, R: Ord, T>(
    inner: &Slab<InnerNode<C, R>>,
    leaves: &Slab<LeafNode<K, T>>,
    starts: &HashMap<K, Start>,
    key: &K,
    answers: &[R],
) -> Option<usize>
    requires { IsForest C.eq R.eq K.eq None inner.now leaves.now starts.now }
    ensures found { IfSome result (λ at.
        LeadsByAnswers R.eq K.eq inner.now starts.now key.now answers.now at) }
    ensures absent { IfNone result (All (λ e. ¬ HasAnswers R.eq e.path answers.now)
        (under K.eq (contents inner.now leaves.now) key.now)) }
{
    let Some(start) = starts.get(key) else {
        return None;
    };
    let mut at = start.first;
    'down: for answer in answers {
        let Node::Inner(id) = at else {
            return None;
        };
        let Some(next) = inner[id].children.get(answer) else {
            return None;
        };
        at = next;
    }
    match at {
        Node::Leaf(id) => Some(id),
        Node::Inner(_) => None,
    }
}
