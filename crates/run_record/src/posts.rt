//! The request numbers of lines with any names of objects.
ghost use Rattle.std.specs.Prelude.{◌≡◌, ◌≤◌, ◌+◌, ℕ, [], ◌∷◌, List, length, IfOk, OnOk};
ghost use Rattle.run_types.specs.declared.types.Line.{Line};
ghost use Rattle.run_types.specs.Asks.{request_number_of, asks, asks_from, asker};
ghost use Rattle.run_record.specs.Posts.{HasPosts};

use record_writer::{asker, poster};
use run_types::{Line, List};
use std::alloc::{AllocError, Global};
use std::collections::BTreeMap;

/// The number of the latest post of each object, for lines with any names of objects.
#[derive(Drop)]
pub struct Posts {
    last: BTreeMap<u32, u32>,
}

impl Posts {
    /// Makes a table in which nothing was posted.
    pub fn make(alloc: Global) -> Posts
        ensures { HasPosts result [] }
    {
        Posts {
            last: BTreeMap::new(alloc),
        }
    }

    /// The request number of a line after the added lines, or 0 if it answers no request.
    pub fn ask(&self, line: &Line) -> u32
        ensures { (earlier : List Line) → HasPosts self.now earlier → result ≡ request_number_of earlier line.now }
    {
        match asker(line) {
            None => 0,
            Some(object) => match self.last.get(&object) {
                None => 0,
                Some(number) => *number,
            },
        }
    }

    /// Adds a line. Returns `Err` if memory runs out.
    pub fn add(&mut self, line: &Line) -> Result<(), AllocError>
        ensures { (earlier : List Line) → HasPosts self.old earlier → OnOk result (HasPosts self.new (line.now ∷ earlier)) }
    {
        match line {
            Line::End(_) => Ok(()),
            Line::Event { number, what, .. } => match poster(what) {
                None => Ok(()),
                Some(object) => {
                    self.last.insert(object, *number)?;
                    Ok(())
                }
            },
        }
    }
}

/// The request number of each line, or 0 for a line that answers no request. Returns `Err` if memory runs out.
pub fn asks_of(alloc: Global, lines: &List<Line>) -> Result<List<u32>, AllocError>
    ensures { IfOk result (λ ns. ns ≡ asks lines.now) }
{
    let mut posts = Posts::make(alloc);
    let mut numbers = List::make(alloc);
    for line in lines.items() {
        numbers.push(posts.ask(line))?;
        posts.add(line)?;
    }
    Ok(numbers)
}
