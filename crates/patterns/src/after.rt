//! What is left of a pattern after an item.
ghost use Rattle.std.specs.Prelude.{◌≡◌, ◌<◌, IfOk, IfSome, length};
ghost use Rattle.patterns.specs.Patterns.{after_item};
ghost use Rattle.patterns.specs.Rows.{HasPattern, IsGrown};
ghost use Rattle.patterns.specs.Tables.{pattern_at, patterns};

use crate::items::are_alike;
use crate::node::Node;
use crate::table::{PatternTable, Shortage};
use run_types::Item;
use std::alloc::AllocError;

/// The largest number of levels of a pattern.
pub(crate) const LEVELS: u32 = 4_096;

impl PatternTable {
    /// What is left of the pattern after the item, with at most `left` levels.
    fn after(&mut self, of: u32, item: Item, left: u32) -> Result<u32, Shortage>
        requires { of < length (patterns self.old) }
        ensures grown { IsGrown (patterns self.old) (patterns self.new) }
        ensures number { IfOk result (λ n. HasPattern (patterns self.new) n (after_item (pattern_at self.old of) item)) }
    {
        if left == 0 {
            return Err(Shortage::Full);
        }
        let row = self.row(of);
        match row.node {
            Node::Never | Node::Nothing => self.put(Node::Never),
            Node::One(wanted) => {
                if are_alike(wanted, item) {
                    self.put(Node::Nothing)
                } else {
                    self.put(Node::Never)
                }
            }
            Node::Any => self.put(Node::Nothing),
            Node::Either(one, other) => {
                let first = self.after(one, item, left - 1)?;
                let second = self.after(other, item, left - 1)?;
                self.alternatives(first, second, LEVELS)
            }
            Node::Then(one, other) => {
                let first = self.after(one, item, left - 1)?;
                let front = self.in_series(first, other)?;
                if !self.is_nullable(one) {
                    return Ok(front);
                }
                let second = self.after(other, item, left - 1)?;
                self.alternatives(front, second, LEVELS)
            }
            Node::Both(one, other) => {
                let first = self.after(one, item, left - 1)?;
                let front = self.mixed(first, other)?;
                let second = self.after(other, item, left - 1)?;
                let back = self.mixed(one, second)?;
                self.alternatives(front, back, LEVELS)
            }
            Node::Repeated(one) => {
                let first = self.after(one, item, left - 1)?;
                self.in_series(first, of)
            }
        }
    }

    /// The number of what is left of the pattern with this number after the item. None if the table has 65,536
    /// patterns, or a pattern has more than 4,096 levels. An error means out of memory.
    pub fn step(&mut self, state: u32, item: Item) -> Result<Option<u32>, AllocError>
        requires { state < length (patterns self.old) }
        ensures grown { IsGrown (patterns self.old) (patterns self.new) }
        ensures number { IfOk result (λ o. IfSome o (λ n. HasPattern (patterns self.new) n (after_item (pattern_at self.old state) item))) }
    {
        match self.after(state, item, LEVELS) {
            Ok(number) => Ok(Some(number)),
            Err(Shortage::Full) => Ok(None),
            Err(Shortage::Memory) => Err(AllocError),
        }
    }
}
