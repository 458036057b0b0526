//! The values of a tree, one after another.
ghost use Rattle.std.specs.Iterator.{YieldsFirstBy, item_count};

use crate::tree::LeafNode;
use std::iter::FusedIterator;
use std::marker::Model;

/// The values of a tree that are left to visit, each by reference. Contracts see their list.
#[derive(Drop)]
pub struct Values<'a, K, T> {
    pub(crate) leaves: slab::Iter<'a, LeafNode<K, T>>,
}

impl<'a, K, T> Model for Values<'a, K, T> {
    ghost use Rattle.std.specs.Prelude.{List, map};

    ghost Value = { List T };

    ghost view = { λ it. map (λ e. e.1.value) it.leaves };
}

impl<'a, K, T> Iterator for Values<'a, K, T> {
    type Item = &'a T;

    ghost next_gives = { YieldsFirstBy (λ value. value.now) (λ rest. rest) };

    ghost remaining = { item_count (λ rest. rest) };

    fn next(&mut self) -> Option<&'a T> {
        let (_, leaf) = self.leaves.next()?;
        Some(&leaf.value)
    }

    fn size_hint(&self) -> (usize, Option<usize>) {
        self.leaves.size_hint()
    }
}

impl<'a, K, T> ExactSizeIterator for Values<'a, K, T> {
    fn len(&self) -> usize {
        self.leaves.len()
    }
}

impl<'a, K, T> FusedIterator for Values<'a, K, T> {}
