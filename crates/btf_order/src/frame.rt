//! A type whose declaration waits for the types that it refers to.

ghost use Rattle.std.specs.Prelude.{◌≡◌, ◌≤◌, ◌+◌, ◌⊎◌, ◌&&◌, true, false};
ghost use Rattle.btf_order.specs.Frame.{is_done};
ghost use Rattle.btf_order.specs.Shape.{last_index};
ghost use Rattle.btf_order.specs.declared.shape.Shape.TheVariants.{Prototype};

use crate::shape::{Node, Shape};

/// The result of the walk to a type.
#[derive(Clone, Copy, Drop)]
pub struct Link {
    /// The type is declared, or needs no declaration.
    pub is_strong: bool,
    /// A later walk to the type finds nothing to declare.
    pub is_settled: bool,
    /// A later walk finds something only when this type is complete. 0 is complete.
    pub leaf: u32,
}

/// A type, the index of the next type that it refers to, and what the results of the types before it have in common.
#[derive(Clone, Copy, Drop)]
pub struct Frame {
    /// The type.
    pub node: Node,
    /// The index of the next type.
    pub next: usize,
    /// All results are strong.
    pub all_strong: bool,
    /// A result is strong.
    pub any_strong: bool,
    /// All results are settled.
    pub all_settled: bool,
    /// The leaf of the last result.
    pub leaf: u32,
}

impl Link {
    /// The result of a type that is complete.
    pub fn complete() -> Self
        ensures { result.is_strong ≡ true }
    {
        Link {
            is_strong: true,
            is_settled: true,
            leaf: 0,
        }
    }

    /// The result of a type that waits for a leaf.
    pub fn weak(leaf: u32) -> Self
        ensures { result.is_strong ≡ false }
    {
        Link {
            is_strong: false,
            is_settled: false,
            leaf,
        }
    }
}

impl Frame {
    /// The frame of a type before the first type that it refers to.
    pub fn new(node: Node) -> Self
        ensures node { result.node ≡ node }
        ensures next { result.next ≡ 0 }
    {
        Frame {
            node,
            next: 0,
            all_strong: true,
            any_strong: false,
            all_settled: true,
            leaf: 0,
        }
    }

    /// The frame after the next type has a result.
    pub fn after(&self, link: Link) -> Frame
        requires { self.now.next ≤ last_index }
        ensures node { result.node ≡ self.now.node }
        ensures next { result.next ≡ self.now.next + 1 }
        ensures all_strong { result.all_strong ≡ (self.now.all_strong && link.is_strong) }
    {
        Frame {
            node: self.node,
            next: self.next + 1,
            all_strong: self.all_strong && link.is_strong,
            any_strong: self.any_strong || link.is_strong,
            all_settled: self.all_settled && link.is_settled,
            leaf: link.leaf,
        }
    }

    /// Whether each type that the type has by value is declared.
    pub fn is_done(&self) -> bool
        ensures { result ≡ is_done self.now }
    {
        !self.node.through_pointer || self.all_strong
    }

    /// Whether a later walk to the type finds nothing to declare.
    pub fn is_complete(&self, shape: Shape) -> bool
        ensures done { result ≡ true → is_done self.now ≡ true }
        ensures by_value { self.now.node.through_pointer ≡ false → result ≡ true }
    {
        let settles = match shape {
            Shape::Names => true,
            _ => self.all_settled,
        };
        self.is_done() && (!self.node.through_pointer || settles)
    }

    /// The result of a type after the last type that it refers to.
    pub fn link(&self, shape: Shape) -> Link
        ensures strong { result.is_strong ≡ true
            → (shape ≡ Prototype) ⊎ (is_done self.now ≡ true) }
        ensures settled { result.is_settled ≡ true → is_done self.now ≡ true }
        ensures by_value { self.now.node.through_pointer ≡ false → result.is_settled ≡ true }
    {
        let is_strong = match shape {
            Shape::Plain => false,
            Shape::Passes => self.all_strong,
            Shape::Defines | Shape::Names => self.is_done(),
            Shape::Prototype => self.any_strong,
        };
        let leaf = match shape {
            Shape::Passes | Shape::Names if self.node.through_pointer => self.leaf,
            _ => 0,
        };
        Link {
            is_strong,
            is_settled: self.is_complete(shape),
            leaf,
        }
    }
}
