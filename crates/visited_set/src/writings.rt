//! What runs write: lists of items with numbers, as a tree.
ghost use Rattle.std.specs.Prelude.{◌≡◌, ◌∷◌, ◌++◌, [], ◌<◌, ◌-◌, IfOk, IfSome, OnErr, get_or, length, true};
ghost use Rattle.reachability.specs.Outcomes.{items_of};
ghost use Rattle.visited_set.specs.WrittenLists.{IsGrown, option_items, parent};

use operators::same;
use run_types::{Item, Label, Value};
use std::alloc::{AllocError, Global};
use std::collections::HashMap;
use std::hash::{FoldHasher, Hasher};

/// An item that was written after the list with the number `before`.
#[derive(Clone, Copy)]
pub struct Node {
    pub before: u32,
    pub item: Item,
}

/// Lists of items. The number 0 is the empty list. The node at index i is the list with the number i + 1. `latest` has
/// the last number of each hash; no proof depends on it. At most 2^32 lists fit. A list can have two numbers after a
/// collision of hashes.
#[derive(Drop)]
pub struct Writings {
    nodes: Vec<Node>,
    latest: HashMap<u64, u32>,
}

/// Whether two items are the same.
#[tactic(auto, using(run_types::proofs::Laws::same_value))]
pub fn same_item(left: Item, right: Item) -> bool
    ensures { result ≡ true → left ≡ right }
{
    match left {
        Item::Value(one) => match right {
            Item::Value(other) => same(one, other),
            Item::Text(_) => false,
        },
        Item::Text(one) => match right {
            Item::Text(other) => one.0 == other.0,
            Item::Value(_) => false,
        },
    }
}

/// The item that a transition with this label writes. None if it writes nothing.
pub fn item_of(label: &Label) -> Option<Item>
    ensures { items_of label.now ≡ option_items result }
{
    match label {
        Label::Write { item, .. } => Some(*item),
        _ => None,
    }
}

/// Adds an item to a hash. Equal items have equal hashes. No proof depends on it.
pub fn mark_item(item: Item, mark: &mut FoldHasher) {
    match item {
        Item::Value(Value::Int(number)) => mark.write_i64(number),
        Item::Value(Value::Bool(truth)) => mark.write_u8(u8::from(truth)),
        Item::Value(Value::Ref(name)) => mark.write_u32(name),
        Item::Value(Value::Nil) => mark.write_u8(2),
        Item::Text(text) => mark.write_u32(text.0),
    }
}

/// The hash of a list and an item after it, for look-ups.
fn mark(before: u32, item: Item) -> u64 {
    let mut mark = FoldHasher::default();
    mark.write_u32(before);
    mark_item(item, &mut mark);
    mark.finish()
}

/// The number before a node's list, where it is smaller than that of the list. Else 0.
fn parent(before: usize, at: usize) -> usize
    ensures { result ≡ parent before at }
{
    if before < at { before } else { 0 }
}

impl Writings {
    ghost use Rattle.visited_set.specs.WritingsOf.{lists_of};

    /// The empty list alone.
    pub fn make(alloc: Global) -> Writings
        ensures { lists_of result ≡ [] ∷ [] }
    {
        Writings {
            nodes: Vec::new(alloc),
            latest: HashMap::new(alloc),
        }
    }

    /// The number of this list and this item after it, if it is the last one of its hash.
    fn seen(&self, mark: u64, before: u32, item: Item) -> Option<u32>
        ensures { IfSome result (λ n. (get_or (lists_of self.now) n [] ≡ get_or (lists_of self.now) before [] ++ item ∷ []) × (n < length (lists_of self.now))) }
    {
        let number = *self.latest.get(&mark)?;
        let index = number.checked_sub(1)?;
        let node = self.nodes.as_slice().get(index as usize)?;
        if before < number && node.before == before && same_item(node.item, item) {
            Some(number)
        } else {
            None
        }
    }

    /// The number of this list with the item after it, which is added unless it was found. None if there are 2^32
    /// lists. An error means out of memory.
    pub fn write(&mut self, before: u32, item: Item) -> Result<Option<u32>, AllocError>
        requires { before < length (lists_of self.old) }
        ensures grown { IsGrown (lists_of self.old) (lists_of self.new) }
        ensures number { IfOk result (λ o. IfSome o (λ n. (get_or (lists_of self.new) n [] ≡ get_or (lists_of self.old) before [] ++ item ∷ []) × (n < length (lists_of self.new)))) }
    {
        let mark = mark(before, item);
        if let Some(number) = self.seen(mark, before, item) {
            return Ok(Some(number));
        }
        let Ok(number) = u32::try_from(self.nodes.len() + 1) else {
            return Ok(None);
        };
        self.latest.insert(mark, number)?;
        self.nodes.push(Node { before, item })?;
        Ok(Some(number))
    }

    /// The list with this number. An error means out of memory.
    pub fn items(&self, alloc: Global, number: u32) -> Result<Vec<Item>, AllocError>
        ensures { IfOk result (λ v. v.items ≡ get_or (lists_of self.now) number []) }
    {
        let mut items = Vec::new(alloc);
        let mut at = number as usize;
        while 0 < at && at <= self.nodes.len() {
            let node = self.nodes[at - 1];
            items.push(node.item)?;
            at = parent(node.before as usize, at);
        }
        items.reverse();
        Ok(items)
    }
}
