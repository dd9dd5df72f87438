//! Equality and hashes of items and nodes.
ghost use Rattle.std.specs.Prelude.{◌≡◌, true};
ghost use Rattle.run_types.specs.Same.{is_same_item};
ghost use Rattle.patterns.specs.Patterns.{are_alike, nameless};

use crate::node::Node;
use operators::same;
use run_types::{Item, Value};
use std::hash::{FoldHasher, Hasher};

/// Whether two items are the same.
pub fn same_item(left: Item, right: Item) -> bool
    ensures { result ≡ is_same_item left right }
{
    match left {
        Item::Value(one) => match right {
            Item::Value(other) => same(one, other),
            Item::Text(_) => false,
        },
        Item::Text(one) => match right {
            Item::Text(other) => one.0 == other.0,
            Item::Value(_) => false,
        },
    }
}

/// The item, with one name for all objects.
fn nameless(item: Item) -> Item
    ensures { result ≡ nameless item }
{
    match item {
        Item::Value(Value::Ref(_)) => Item::Value(Value::Ref(0)),
        _ => item,
    }
}

/// Whether two items are the same, but for names of objects.
pub fn are_alike(left: Item, right: Item) -> bool
    ensures { result ≡ are_alike left right }
{
    same_item(nameless(left), nameless(right))
}

/// Whether two nodes are the same.
pub fn same_node(left: Node, right: Node) -> bool
    ensures { result ≡ true → left ≡ right }
{
    match (left, right) {
        (Node::Never, Node::Never) | (Node::Nothing, Node::Nothing) | (Node::Any, Node::Any) => {
            true
        }
        (Node::One(one), Node::One(other)) => same_item(one, other),
        (Node::Either(a, b), Node::Either(c, d))
        | (Node::Then(a, b), Node::Then(c, d))
        | (Node::Both(a, b), Node::Both(c, d)) => a == c && b == d,
        (Node::Repeated(a), Node::Repeated(b)) => a == b,
        _ => false,
    }
}

fn mark_item(item: Item, mark: &mut FoldHasher) {
    match item {
        Item::Value(Value::Int(number)) => mark.write_i64(number),
        Item::Value(Value::Bool(truth)) => mark.write_u8(u8::from(truth)),
        Item::Value(Value::Ref(name)) => mark.write_u32(name),
        Item::Value(Value::Nil) => mark.write_u8(2),
        Item::Text(text) => mark.write_u32(text.0),
    }
}

fn mark_pair(kind: u8, one: u32, other: u32, mark: &mut FoldHasher) {
    mark.write_u8(kind);
    mark.write_u32(one);
    mark.write_u32(other);
}

/// The hash of a node, for look-ups. No proof depends on it.
pub fn node_hash(node: Node) -> u64 {
    let mut mark = FoldHasher::default();
    match node {
        Node::Never => mark.write_u8(0),
        Node::Nothing => mark.write_u8(1),
        Node::Any => mark.write_u8(2),
        Node::One(item) => mark_item(item, &mut mark),
        Node::Either(one, other) => mark_pair(3, one, other, &mut mark),
        Node::Then(one, other) => mark_pair(4, one, other, &mut mark),
        Node::Both(one, other) => mark_pair(5, one, other, &mut mark),
        Node::Repeated(one) => mark_pair(6, one, 0, &mut mark),
    }
    mark.finish()
}
