//! A table of patterns.
ghost use Rattle.std.specs.Prelude.{◌≡◌, [], IsTrue, true};
ghost use Rattle.patterns.specs.Rows.{are_right};

use crate::items::{node_hash, same_node};
use crate::node::{Node, Row};
use std::alloc::{AllocError, Global};
use std::collections::HashMap;

/// The largest number of patterns of a table.
const MOST: usize = 65_536;

/// The reason why a table has no number for a pattern.
#[derive(Clone, Copy)]
pub enum Shortage {
    /// Out of memory.
    Memory,
    /// The table has 65,536 patterns, or a pattern has more than 4,096 levels.
    Full,
}

/// At most 65,536 patterns, each with a number. It finds a pattern by its hash, the latest of those with the same hash. A
/// pattern can have two numbers after a collision of hashes.
#[derive(Drop)]
pub struct PatternTable {
    rows: Vec<Row>,
    latest: HashMap<u64, u32>,
    ghost right: { are_right [] rows.items ≡ true },
}

impl PatternTable {
    ghost use Rattle.std.specs.Prelude.{◌<◌, IfOk, IfSome, length, slice_get};
    ghost use Rattle.patterns.specs.Patterns.{is_nullable, is_void};
    ghost use Rattle.patterns.specs.Rows.{HasPattern, IsGrown, is_within, node_pattern};
    ghost use Rattle.patterns.specs.Tables.{pattern_at, patterns};

    /// An empty table.
    pub fn make(alloc: Global) -> PatternTable
        ensures { patterns result ≡ [] }
    {
        PatternTable {
            rows: Vec::new(alloc),
            latest: HashMap::new(alloc),
        }
    }

    /// The row at this index, if there is one.
    fn at(&self, at: u32) -> Option<Row>
        ensures { result ≡ slice_get self.now.rows.items at }
    {
        self.rows.as_slice().get(at as usize).copied()
    }

    /// The row with this number.
    pub(crate) fn row(&self, at: u32) -> Row
        requires { at < length (patterns self.now) }
        ensures node { node_pattern (patterns self.now) result.node ≡ pattern_at self.now at }
        ensures within { is_within (length (patterns self.now)) result.node ≡ true }
        ensures nullable { result.nullable ≡ is_nullable (pattern_at self.now at) }
        ensures void { result.void ≡ is_void (pattern_at self.now at) }
    {
        match self.at(at) {
            Some(row) => row,
            None => unreachable!(),
        }
    }

    /// Whether the pattern with this number matches the empty list.
    pub fn is_nullable(&self, at: u32) -> bool
        requires { at < length (patterns self.now) }
        ensures { result ≡ is_nullable (pattern_at self.now at) }
    {
        self.row(at).nullable
    }

    /// Whether the pattern with this number matches no list.
    pub fn is_void(&self, at: u32) -> bool
        requires { at < length (patterns self.now) }
        ensures { result ≡ is_void (pattern_at self.now at) }
    {
        self.row(at).void
    }

    /// The number of this node, if it is the last one of its hash.
    fn found(&self, hash: u64, node: Node) -> Option<u32>
        ensures { IfSome result (λ n. HasPattern (patterns self.now) n (node_pattern (patterns self.now) node)) }
    {
        let at = *self.latest.get(&hash)?;
        let row = self.at(at)?;
        if same_node(row.node, node) {
            Some(at)
        } else {
            None
        }
    }

    /// Whether the pattern of this node matches the empty list.
    fn nullable(&self, node: Node) -> bool
        requires { is_within (length (patterns self.now)) node ≡ true }
        ensures { result ≡ is_nullable (node_pattern (patterns self.now) node) }
    {
        match node {
            Node::Never | Node::One(_) | Node::Any => false,
            Node::Nothing | Node::Repeated(_) => true,
            Node::Either(one, other) => self.is_nullable(one) || self.is_nullable(other),
            Node::Then(one, other) | Node::Both(one, other) => {
                self.is_nullable(one) && self.is_nullable(other)
            }
        }
    }

    /// Whether the pattern of this node matches no list.
    fn void(&self, node: Node) -> bool
        requires { is_within (length (patterns self.now)) node ≡ true }
        ensures { result ≡ is_void (node_pattern (patterns self.now) node) }
    {
        match node {
            Node::Never => true,
            Node::One(_) | Node::Any | Node::Nothing | Node::Repeated(_) => false,
            Node::Either(one, other) => self.is_void(one) && self.is_void(other),
            Node::Then(one, other) | Node::Both(one, other) => {
                self.is_void(one) || self.is_void(other)
            }
        }
    }

    /// The number of the pattern of this node. It is added unless it was found. `Full` if there are 65,536 patterns.
    pub(crate) fn put(&mut self, node: Node) -> Result<u32, Shortage>
        requires { is_within (length (patterns self.old)) node ≡ true }
        ensures grown { IsGrown (patterns self.old) (patterns self.new) }
        ensures number { IfOk result (λ n. HasPattern (patterns self.new) n (node_pattern (patterns self.old) node)) }
    {
        let hash = node_hash(node);
        if let Some(number) = self.found(hash, node) {
            return Ok(number);
        }
        let number = self.rows.len();
        if number >= MOST {
            return Err(Shortage::Full);
        }
        let row = Row {
            node,
            nullable: self.nullable(node),
            void: self.void(node),
        };
        let Ok(_) = self.latest.insert(hash, number as u32) else {
            return Err(Shortage::Memory);
        };
        let Ok(()) = self.rows.push(row) else {
            return Err(Shortage::Memory);
        };
        Ok(number as u32)
    }
}
