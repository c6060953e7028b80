//! Items in an order, which a hash finds: one balanced tree for each value of the hash's last bits. A tree is an AA
//! tree (A. Andersson, "Balanced search trees made simple", 1993).
//!
//! The caller compares, because a comparison may fail: it goes down from a root by `begin`, `here` and `go`, and
//! `insert` adds an item where this way ends. So n items take n log n comparisons and moves, even if all hashes are
//! equal.

use std::alloc::{AllocError, Global};

/// No way down is longer: it has at most twice as many nodes as the logarithm of their number, and links have 32 bits.
pub const LONGEST_WAY: usize = 64;

/// The number of a node, from 1 on; 0 is none.
pub type Link = u32;

/// The items before or after that of a node.
#[derive(Clone, Copy, PartialEq, Eq)]
pub enum Side {
    Before,
    After,
}

/// An item, and the nodes below it.
#[derive(Clone, Copy)]
struct Node<T> {
    item: T,
    before: Link,
    after: Link,
    /// The number of nodes down to a leaf, where nodes of one level in a row count once. The node before has a lower
    /// level, and so does the node after the one after.
    level: u32,
}

/// The maximum number of trees.
const MOST_TREES: usize = 1 << 20;

/// A step of a way down.
#[derive(Clone, Copy)]
struct Step {
    from: Link,
    side: Side,
}

/// Balanced trees, and the last way down one of them.
#[derive(Drop)]
pub struct Trees<T> {
    nodes: Vec<Node<T>>,
    /// The roots of the trees, whose number is a power of two.
    roots: Vec<Link>,
    way: Vec<Step>,
    /// The index of the tree.
    tree: usize,
    end: Link,
}

impl<T: Copy> Trees<T> {
    /// No items, in trees for this number of items.
    pub fn new(alloc: Global, count: usize) -> Result<Trees<T>, AllocError> {
        let trees = count.clamp(1, MOST_TREES).next_power_of_two();
        Ok(Trees {
            nodes: Vec::new(alloc),
            roots: vec![in alloc; 0; trees]?,
            way: Vec::new(alloc),
            tree: 0,
            end: 0,
        })
    }

    /// The number of items.
    pub fn len(&self) -> usize {
        self.nodes.len()
    }

    /// Begins a way down, at the root of the tree of a hash.
    pub fn begin(&mut self, hash: u32) {
        self.way.clear();
        self.tree = hash as usize & self.roots.len().saturating_sub(1);
        self.end = self.roots.get(self.tree).copied().unwrap_or(0);
    }

    /// The item to which the way leads, and its link; None if the way is past a leaf.
    pub fn here(&self) -> Option<(Link, T)> {
        Some((self.end, self.node(self.end)?.item))
    }

    /// Goes on to the items on a side.
    pub fn go(&mut self, side: Side) -> Result<(), AllocError> {
        let from = self.end;
        self.way.push(Step { from, side })?;
        self.end = self.below(from, side);
        Ok(())
    }

    /// Replaces the item at a link, which has the same place in the order.
    pub fn replace(&mut self, link: Link, item: T) {
        if let Some(node) = self.node_mut(link) {
            node.item = item;
        }
    }

    /// Inserts an item where the way ends, which is past a leaf. The way ends with the call.
    pub fn insert(&mut self, item: T) -> Result<(), AllocError> {
        self.nodes.push(Node {
            item,
            before: 0,
            after: 0,
            level: 1,
        })?;
        let Ok(mut top) = Link::try_from(self.nodes.len()) else {
            return Err(AllocError);
        };
        for _ in 0..LONGEST_WAY {
            let Some(step) = self.way.pop() else {
                break;
            };
            self.set_below(step.from, step.side, top);
            top = self.skew(step.from);
            top = self.split(top);
        }
        if let Some(root) = self.roots.get_mut(self.tree) {
            *root = top;
        }
        Ok(())
    }

    /// The node of a link.
    fn node(&self, link: Link) -> Option<&Node<T>> {
        self.nodes.get((link as usize).checked_sub(1)?)
    }

    /// The node of a link, to change it.
    fn node_mut(&mut self, link: Link) -> Option<&mut Node<T>> {
        self.nodes.get_mut((link as usize).checked_sub(1)?)
    }

    /// The level of a node; 0 of none.
    fn level(&self, link: Link) -> u32 {
        match self.node(link) {
            Some(node) => node.level,
            None => 0,
        }
    }

    /// The node below one on a side.
    fn below(&self, link: Link, side: Side) -> Link {
        match (self.node(link), side) {
            (Some(node), Side::Before) => node.before,
            (Some(node), Side::After) => node.after,
            (None, _) => 0,
        }
    }

    /// Sets the node below one on a side.
    fn set_below(&mut self, link: Link, side: Side, below: Link) {
        let Some(node) = self.node_mut(link) else {
            return;
        };
        match side {
            Side::Before => node.before = below,
            Side::After => node.after = below,
        }
    }

    /// Moves the node before a node above it, if it has the same level. Returns the node that is above.
    fn skew(&mut self, link: Link) -> Link {
        let before = self.below(link, Side::Before);
        if before == 0 || self.level(before) != self.level(link) {
            return link;
        }
        let between = self.below(before, Side::After);
        self.set_below(link, Side::Before, between);
        self.set_below(before, Side::After, link);
        before
    }

    /// Moves the node after a node above it and a level up, if the node after both has the same level. Returns the node
    /// that is above.
    fn split(&mut self, link: Link) -> Link {
        let after = self.below(link, Side::After);
        let last = self.below(after, Side::After);
        if last == 0 || self.level(last) != self.level(link) {
            return link;
        }
        let between = self.below(after, Side::Before);
        self.set_below(link, Side::After, between);
        self.set_below(after, Side::Before, link);
        if let Some(node) = self.node_mut(after) {
            node.level = node.level.saturating_add(1);
        }
        after
    }
}
