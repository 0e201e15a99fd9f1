//! A set of nodes as 256 bits, with how many it has.

ghost use Rattle.std.specs.Prelude.{◌≡◌, ◌↔◌, ◌∷◌, [], IsTrue, length, slice_get, drop, ◌≤◌};
ghost use Rattle.node_set.specs.NodeSet.{IsNodeSet, has_node, with_node, without};

use crate::words::bit_at_place;
use std::marker::Model;

/// A set of nodes, which contracts see as the ascending list of their numbers. It has a bit for each number, and beside them
/// how many are set. It takes no memory but these.
#[derive(Drop)]
pub struct NodeSet {
    words: [u64; 4],
    count: usize,
}

impl Model for NodeSet {
    ghost use Rattle.std.specs.Prelude.{ℕ, List, ◌≡◌, length};
    ghost use Rattle.node_set.specs.Inner.{nodes_from};

    ghost Value = { List ℕ };

    ghost view = { λ s. nodes_from 0 s.words };

    ghost invariant = { λ s. s.count ≡ length (nodes_from 0 s.words) };
}

impl NodeSet {
    /// The set without a node.
    #[inline]
    pub fn new() -> NodeSet
        ensures { result ≡ [] }
    {
        NodeSet {
            words: [0; 4],
            count: 0,
        }
    }

    /// The set of one node.
    #[inline]
    pub fn of(node: u8) -> NodeSet
        ensures { result ≡ node ∷ [] }
    {
        let mut set = NodeSet::new();
        set.insert(node);
        set
    }

    /// The same set once more.
    #[inline]
    pub fn copy(&self) -> NodeSet
        ensures known { IsNodeSet self.now }
        ensures same { result ≡ self.now }
    {
        let words = self.words;
        let count = self.count;
        NodeSet { words, count }
    }

    /// Puts a node in.
    #[inline]
    pub fn insert(&mut self, node: u8)
        ensures known { IsNodeSet self.new }
        ensures nodes { self.new ≡ with_node node self.old }
    {
        self.count += usize::from(!self.contains(node));
        self.words[(node / 64) as usize] |= 1 << (node % 64);
    }

    /// Takes a node out.
    #[inline]
    pub fn remove(&mut self, node: u8)
        ensures known { IsNodeSet self.new }
        ensures nodes { self.new ≡ without node self.old }
    {
        self.count -= usize::from(self.contains(node));
        self.words[(node / 64) as usize] &= !(1 << (node % 64));
    }

    /// Whether a node is in it.
    #[inline]
    pub fn contains(&self, node: u8) -> bool
        ensures known { IsNodeSet self.now }
        ensures has { result ≡ has_node node self.now }
    {
        (self.words[(node / 64) as usize] >> (node % 64)) & 1 == 1
    }

    /// How many nodes it has, which are at most 256.
    #[inline]
    pub fn len(&self) -> usize
        ensures known { IsNodeSet self.now }
        ensures count { result ≡ length self.now }
        ensures few { result ≤ 256 }
    {
        self.count
    }

    /// Whether it has no node.
    #[inline]
    pub fn is_empty(&self) -> bool
        ensures { IsTrue result ↔ (self.now ≡ []) }
    {
        self.count == 0
    }

    /// The node at a place in ascending order, if there are so many.
    #[inline]
    pub fn get(&self, place: usize) -> Option<u8>
        ensures known { IsNodeSet self.now }
        ensures node { result ≡ slice_get self.now place }
    {
        let mut left = place;
        for (index, word) in self.words.iter().enumerate() {
            let count = word.count_ones() as usize;
            if left < count {
                return Some((64 * index) as u8 + bit_at_place(*word, left));
            }
            left -= count;
        }
        None
    }

    /// Takes out the first node, if there is one.
    #[inline]
    pub fn pop_first(&mut self) -> Option<u8>
        ensures known { IsNodeSet self.old }
        ensures first { result ≡ slice_get self.old 0 }
        ensures rest { self.new ≡ drop 1 self.old }
    {
        let first = self.get(0)?;
        self.remove(first);
        Some(first)
    }
}
