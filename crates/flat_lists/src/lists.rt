//! The lists: their functions and their contracts.
ghost use Rattle.std.specs.Prelude.{◌≡◌, ◌<◌, ◌≤◌, [], ◌∷◌, ◌++◌, length, get_or, take, slice_get, Some, OnOk, OnErr};

use std::alloc::{AllocError, Global};
use std::marker::Model;

/// Lists, numbered from 0. Contracts see them as a list of lists. `items` has the items of all lists, and `ends` the
/// place in it where each list ends. A list takes 4 bytes beside its items. At most 2^32 - 1 items fit in all.
#[derive(Drop)]
pub struct FlatLists<T: Copy> {
    items: Vec<T>,
    ends: Vec<u32>,
}

impl<T: Copy> Model for FlatLists<T> {
    ghost use Rattle.std.specs.Prelude.{List, length};
    ghost use Rattle.std.specs.Coded.{coded_list};
    ghost use Rattle.flat_lists.specs.Ends.{AreEnds, lists_from};

    ghost Value = { List (List T) };

    ghost coded = { coded_list (coded_list T.code) };

    ghost view = { λ l. lists_from 0 l.ends.items l.items.items };

    ghost invariant = { λ l. AreEnds 0 l.ends.items (length l.items.items) };
}

/// The place where a list begins: the end of the one before it.
fn start(ends: &[u32], at: usize) -> usize
    requires { at ≤ length ends.now }
    ensures { result ≡ get_or (0 ∷ ends.now) at 0 }
{
    if at == 0 { 0 } else { ends[at - 1] as usize }
}

impl<T: Copy> FlatLists<T> {
    /// No lists.
    pub fn make(alloc: Global) -> FlatLists<T>
        ensures { result ≡ [] }
    {
        FlatLists {
            items: Vec::new(alloc),
            ends: Vec::new(alloc),
        }
    }

    /// The number of lists.
    pub fn len(&self) -> usize
        ensures { result ≡ length self.now }
    {
        self.ends.len()
    }

    /// The list with this number.
    pub fn get(&self, at: usize) -> &[T]
        requires { at < length self.now }
        ensures { slice_get self.now at ≡ Some result.now }
    {
        let from = start(self.ends.as_slice(), at);
        let to = self.ends[at] as usize;
        &self.items.as_slice()[from..to]
    }

    /// Adds a list at the end. An error means out of memory, or that there would be more than 2^32 - 1 items in all.
    pub fn push(&mut self, list: &[T]) -> Result<(), AllocError>
        ensures ok { OnOk result (self.new ≡ self.old ++ list.now ∷ []) }
        ensures err { OnErr result (self.new ≡ self.old) }
    {
        let Ok(end) = u32::try_from(self.items.len().saturating_add(list.len())) else {
            return Err(AllocError);
        };
        self.ends.reserve(1)?;
        self.items.extend_from_slice(list)?;
        self.ends.push_reserved(end);
        Ok(())
    }

    /// Drops the lists from this number on.
    pub fn truncate(&mut self, count: usize)
        ensures { self.new ≡ take count self.old }
    {
        if count < self.ends.len() {
            let end = start(self.ends.as_slice(), count);
            self.items.truncate(end);
            self.ends.truncate(count);
        }
    }
}
