//! Reads signs as a pattern, from the right.
ghost use Rattle.std.specs.Prelude.{◌≡◌, ◌<◌, [], IfOk, OnOk, length, true};
ghost use Rattle.patterns.specs.Rows.{HasPattern, IsGrown, is_within, node_pattern};
ghost use Rattle.patterns.specs.Tables.{pattern_at, patterns};
ghost use Rattle.patterns.specs.Meaning.{IsLevel, Stands, before, before_here, behind, empty, meaning, reading, repeated, whole, with_choice, with_part, with_series};
ghost use Rattle.patterns.specs.Readers.{HasRead, IsReader, reading_of};

use crate::after::LEVELS;
use crate::level::{Level, Reader};
use crate::node::Node;
use crate::sign::{Sign, Times};
use crate::table::{PatternTable, Shortage};
use std::alloc::Global;

impl Level {
    /// The level with this many times of the part before it.
    fn coming(self, times: Times) -> Level
        ensures { result ≡ record self { times = times } }
    {
        Level {
            times,
            series: self.series,
            beside: self.beside,
            others: self.others,
        }
    }
}

impl PatternTable {
    /// The pattern, so many times.
    fn repeated(&mut self, times: Times, part: u32) -> Result<u32, Shortage>
        requires { part < length (patterns self.old) }
        ensures grown { IsGrown (patterns self.old) (patterns self.new) }
        ensures number { IfOk result (λ n. HasPattern (patterns self.new) n (repeated times (pattern_at self.old part))) }
    {
        match times {
            Times::Once => Ok(part),
            Times::Any => self.put(Node::Repeated(part)),
            Times::Some => {
                let more = self.put(Node::Repeated(part))?;
                self.put(Node::Then(part, more))
            }
            Times::Maybe => {
                let nothing = self.put(Node::Nothing)?;
                self.put(Node::Either(part, nothing))
            }
        }
    }

    /// A level behind which nothing stands.
    fn empty_level(&mut self) -> Result<Level, Shortage>
        ensures grown { IsGrown (patterns self.old) (patterns self.new) }
        ensures level { IfOk result (λ l. Stands (patterns self.new) l empty) }
    {
        let nothing = self.put(Node::Nothing)?;
        let never = self.put(Node::Never)?;
        Ok(Level {
            times: Times::Once,
            series: nothing,
            beside: nothing,
            others: never,
        })
    }

    /// The level with a part before it.
    fn with_part(&mut self, part: u32, level: Level) -> Result<Level, Shortage>
        requires part { part < length (patterns self.old) }
        requires level { IsLevel (patterns self.old) level }
        ensures grown { IsGrown (patterns self.old) (patterns self.new) }
        ensures level { IfOk result (λ l. Stands (patterns self.new) l (with_part (pattern_at self.old part) (behind (patterns self.old) level))) }
    {
        let part = self.repeated(level.times, part)?;
        let series = self.in_series(part, level.series)?;
        Ok(Level {
            times: Times::Once,
            series,
            beside: level.beside,
            others: level.others,
        })
    }

    /// The pattern of all that stands in a level.
    fn whole(&mut self, level: Level) -> Result<u32, Shortage>
        requires { IsLevel (patterns self.old) level }
        ensures grown { IsGrown (patterns self.old) (patterns self.new) }
        ensures number { IfOk result (λ n. HasPattern (patterns self.new) n (whole (behind (patterns self.old) level))) }
    {
        let beside = self.mixed(level.series, level.beside)?;
        self.alternatives(beside, level.others, LEVELS)
    }

    /// The level with `&` before it.
    fn with_series(&mut self, level: Level) -> Result<Level, Shortage>
        requires { IsLevel (patterns self.old) level }
        ensures grown { IsGrown (patterns self.old) (patterns self.new) }
        ensures level { IfOk result (λ l. Stands (patterns self.new) l (with_series (behind (patterns self.old) level))) }
    {
        let beside = self.mixed(level.series, level.beside)?;
        let nothing = self.put(Node::Nothing)?;
        Ok(Level {
            times: Times::Once,
            series: nothing,
            beside,
            others: level.others,
        })
    }

    /// The level with `|` before it.
    fn with_choice(&mut self, level: Level) -> Result<Level, Shortage>
        requires { IsLevel (patterns self.old) level }
        ensures grown { IsGrown (patterns self.old) (patterns self.new) }
        ensures level { IfOk result (λ l. Stands (patterns self.new) l (with_choice (behind (patterns self.old) level))) }
    {
        let others = self.whole(level)?;
        let nothing = self.put(Node::Nothing)?;
        Ok(Level {
            times: Times::Once,
            series: nothing,
            beside: nothing,
            others,
        })
    }

    /// The level with a pattern of one item before it.
    fn with_item(&mut self, node: Node, level: Level) -> Result<Level, Shortage>
        requires node { is_within (length (patterns self.old)) node ≡ true }
        requires level { IsLevel (patterns self.old) level }
        ensures grown { IsGrown (patterns self.old) (patterns self.new) }
        ensures level { IfOk result (λ l. Stands (patterns self.new) l (with_part (node_pattern (patterns self.old) node) (behind (patterns self.old) level))) }
    {
        let part = self.put(node)?;
        self.with_part(part, level)
    }

    /// The level with a sign before it, if the sign is no parenthesis.
    fn before_here(&mut self, sign: Sign, level: Level) -> Result<Level, Shortage>
        requires { IsLevel (patterns self.old) level }
        ensures grown { IsGrown (patterns self.old) (patterns self.new) }
        ensures level { IfOk result (λ l. Stands (patterns self.new) l (before_here sign (behind (patterns self.old) level))) }
    {
        match sign {
            Sign::Item(item) => self.with_item(Node::One(item), level),
            Sign::Dot => self.with_item(Node::Any, level),
            Sign::Star => Ok(level.coming(Times::Any)),
            Sign::Plus => Ok(level.coming(Times::Some)),
            Sign::Question => Ok(level.coming(Times::Maybe)),
            Sign::Bar => self.with_choice(level),
            Sign::Ampersand => self.with_series(level),
            Sign::Open | Sign::Close => Ok(level),
        }
    }

    /// A reader that has read no sign.
    fn reader(&mut self, alloc: Global) -> Result<Reader, Shortage>
        ensures grown { IsGrown (patterns self.old) (patterns self.new) }
        ensures none { IfOk result (λ x. HasRead (patterns self.new) x (reading [])) }
    {
        let here = self.empty_level()?;
        Ok(Reader {
            here,
            around: Vec::new(alloc),
        })
    }

    /// Reads the sign before those that were read.
    fn read_sign(&mut self, reader: &mut Reader, sign: Sign) -> Result<(), Shortage>
        requires { IsReader (patterns self.old) reader.old }
        ensures grown { IsGrown (patterns self.old) (patterns self.new) }
        ensures read { OnOk result (HasRead (patterns self.new) reader.new (before sign (reading_of (patterns self.old) reader.old))) }
    {
        match sign {
            Sign::Close => {
                let empty = self.empty_level()?;
                let Ok(()) = reader.around.push(reader.here) else {
                    return Err(Shortage::Memory);
                };
                reader.here = empty;
                Ok(())
            }
            Sign::Open => {
                let Some(outer) = reader.around.pop() else {
                    return Ok(());
                };
                let part = self.whole(reader.here)?;
                reader.here = self.with_part(part, outer)?;
                Ok(())
            }
            _ => {
                reader.here = self.before_here(sign, reader.here)?;
                Ok(())
            }
        }
    }

    /// The pattern that the signs mean.
    pub(crate) fn read_signs(&mut self, alloc: Global, signs: &[Sign]) -> Result<u32, Shortage>
        ensures grown { IsGrown (patterns self.old) (patterns self.new) }
        ensures number { IfOk result (λ n. HasPattern (patterns self.new) n (meaning signs.now)) }
    {
        let mut reader = self.reader(alloc)?;
        for i in (0..signs.len()).rev() {
            let sign = signs[i];
            self.read_sign(&mut reader, sign)?;
        }
        self.whole(reader.here)
    }
}
