//! Combined patterns in their short form.
ghost use Rattle.std.specs.Prelude.{◌≡◌, ◌<◌, IfOk, length};
ghost use Rattle.patterns.specs.Patterns.{alternatives, are_same_patterns, in_series, mixed, with_one};
ghost use Rattle.patterns.specs.Rows.{HasPattern, IsGrown};
ghost use Rattle.patterns.specs.Tables.{pattern_at, patterns};

use crate::items::same_item;
use crate::node::Node;
use crate::table::{PatternTable, Shortage};

impl PatternTable {
    /// Whether these patterns are written alike, with at most `left` levels.
    fn same(&self, one: u32, other: u32, left: u32) -> Result<bool, Shortage>
        requires one { one < length (patterns self.now) }
        requires other { other < length (patterns self.now) }
        ensures { IfOk result (λ b. b ≡ are_same_patterns (pattern_at self.now one) (pattern_at self.now other)) }
    {
        if one == other {
            return Ok(true);
        }
        if left == 0 {
            return Err(Shortage::Full);
        }
        match (self.row(one).node, self.row(other).node) {
            (Node::Never, Node::Never) => Ok(true),
            (Node::Nothing, Node::Nothing) => Ok(true),
            (Node::Any, Node::Any) => Ok(true),
            (Node::One(a), Node::One(b)) => Ok(same_item(a, b)),
            (Node::Either(a, b), Node::Either(c, d)) => {
                if self.same(a, c, left - 1)? {
                    self.same(b, d, left - 1)
                } else {
                    Ok(false)
                }
            }
            (Node::Then(a, b), Node::Then(c, d)) => {
                if self.same(a, c, left - 1)? {
                    self.same(b, d, left - 1)
                } else {
                    Ok(false)
                }
            }
            (Node::Both(a, b), Node::Both(c, d)) => {
                if self.same(a, c, left - 1)? {
                    self.same(b, d, left - 1)
                } else {
                    Ok(false)
                }
            }
            (Node::Repeated(a), Node::Repeated(b)) => self.same(a, b, left - 1),
            _ => Ok(false),
        }
    }

    /// The pattern `one` as one more alternative of the pattern `of`, unless it is one.
    fn with_one(&mut self, one: u32, of: u32, left: u32) -> Result<u32, Shortage>
        requires one { one < length (patterns self.old) }
        requires of { of < length (patterns self.old) }
        ensures grown { IsGrown (patterns self.old) (patterns self.new) }
        ensures number { IfOk result (λ n. HasPattern (patterns self.new) n (with_one (pattern_at self.old one) (pattern_at self.old of))) }
    {
        if left == 0 {
            return Err(Shortage::Full);
        }
        match self.row(of).node {
            Node::Never => Ok(one),
            Node::Either(first, rest) => {
                if self.same(one, first, left)? {
                    return Ok(of);
                }
                let more = self.with_one(one, rest, left - 1)?;
                self.put(Node::Either(first, more))
            }
            _ => {
                if self.same(one, of, left)? {
                    return Ok(of);
                }
                self.put(Node::Either(of, one))
            }
        }
    }

    /// The alternatives of both patterns.
    pub(crate) fn alternatives(&mut self, one: u32, other: u32, left: u32) -> Result<u32, Shortage>
        requires one { one < length (patterns self.old) }
        requires other { other < length (patterns self.old) }
        ensures grown { IsGrown (patterns self.old) (patterns self.new) }
        ensures number { IfOk result (λ n. HasPattern (patterns self.new) n (alternatives (pattern_at self.old one) (pattern_at self.old other))) }
    {
        if left == 0 {
            return Err(Shortage::Full);
        }
        match self.row(one).node {
            Node::Never => Ok(other),
            Node::Either(first, rest) => {
                let more = self.alternatives(rest, other, left - 1)?;
                self.alternatives(first, more, left - 1)
            }
            _ => self.with_one(one, other, left),
        }
    }

    /// The first pattern and then the second.
    pub(crate) fn in_series(&mut self, one: u32, other: u32) -> Result<u32, Shortage>
        requires one { one < length (patterns self.old) }
        requires other { other < length (patterns self.old) }
        ensures grown { IsGrown (patterns self.old) (patterns self.new) }
        ensures number { IfOk result (λ n. HasPattern (patterns self.new) n (in_series (pattern_at self.old one) (pattern_at self.old other))) }
    {
        match self.row(one).node {
            Node::Never => Ok(one),
            Node::Nothing => Ok(other),
            _ => self.put(Node::Then(one, other)),
        }
    }

    /// Both patterns, in any interleaving.
    pub(crate) fn mixed(&mut self, one: u32, other: u32) -> Result<u32, Shortage>
        requires one { one < length (patterns self.old) }
        requires other { other < length (patterns self.old) }
        ensures grown { IsGrown (patterns self.old) (patterns self.new) }
        ensures number { IfOk result (λ n. HasPattern (patterns self.new) n (mixed (pattern_at self.old one) (pattern_at self.old other))) }
    {
        match self.row(one).node {
            Node::Never => Ok(one),
            Node::Nothing => Ok(other),
            _ => match self.row(other).node {
                Node::Never => Ok(other),
                Node::Nothing => Ok(one),
                _ => self.put(Node::Both(one, other)),
            },
        }
    }
}
