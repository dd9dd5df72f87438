//! Patterns whose parts have numbers.
use run_types::Item;

/// A pattern, of which the parts are given by their numbers.
#[derive(Clone, Copy)]
pub enum Node {
    /// No list.
    Never,
    /// The empty list.
    Nothing,
    /// This item. If it is an object, any object.
    One(Item),
    /// Any item.
    Any,
    /// One of the two.
    Either(u32, u32),
    /// The first and then the second.
    Then(u32, u32),
    /// Both, in any interleaving.
    Both(u32, u32),
    /// Any number of times.
    Repeated(u32),
}

/// A node, and whether its pattern matches the empty list, and no list.
#[derive(Clone, Copy)]
pub struct Row {
    pub node: Node,
    pub nullable: bool,
    pub void: bool,
}
