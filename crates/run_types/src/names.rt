//! The texts of names and strings, numbered in the order in which they are first seen.
ghost use Rattle.std.specs.Prelude.{◌≡◌, ◌^◌, ◌<◌, ◌≤◌, ◌↔◌, [], ◌∷◌, ◌++◌, true, false, length, slice_get, Some, None, IfOk, IfSome, OnOk, OnErr};
ghost use Rattle.run_types.specs.Table.{is_among, is_distinct, name_of, with_text};

use crate::types::NameId;
use indexmap::IndexSet;
use std::alloc::{AllocError, Global};
use std::marker::Model;

/// A table of at most 2^32 distinct texts. Contracts see it as their list, and the number of a text is its index.
#[derive(Drop)]
pub struct Names {
    texts: IndexSet<Vec<u8>>,
    alloc: Global,
}

impl Model for Names {
    ghost use Rattle.std.specs.Prelude.{ℕ, List as text_list, map, ◌≡◌, ◌≤◌, ◌^◌, length, true};
    ghost use Rattle.run_types.specs.Table.{is_distinct};
    ghost use Rattle.std.specs.Coded.{coded_list, coded_ℕ};

    ghost Value = { text_list (text_list ℕ) };

    ghost coded = { coded_list (coded_list coded_ℕ) };

    ghost view = { λ n. map (λ text. text.items) n.texts.keys };

    ghost invariant = { λ n. (is_distinct (map (λ text. text.items) n.texts.keys) ≡ true) × (length (map (λ text. text.items) n.texts.keys) ≤ 2 ^ 32) };
}

impl Names {
    /// Reports a table without texts. It takes no memory.
    pub fn make(alloc: Global) -> Names
        ensures { result ≡ [] }
    {
        Names {
            texts: IndexSet::new(alloc),
            alloc,
        }
    }

    /// Reports the number of the text, and appends the text if it is new. It copies the text only then.
    /// Requires fewer than 2^32 texts. If it runs out of memory, the table stays as it was.
    pub fn add(&mut self, text: &[u8]) -> Result<NameId, AllocError>
        requires { length self.old < 2 ^ 32 }
        ensures names { OnOk result (self.new ≡ with_text self.old text.now) }
        ensures place { IfOk result (λ id. id.0 ≡ name_of self.old text.now) }
        ensures err { OnErr result (self.new ≡ self.old) }
    {
        match self.find(text) {
            Some(id) => Ok(id),
            None => self.put(text.to_vec(self.alloc)?),
        }
    }

    // Appends a text that is new, and reports its number.
    fn put(&mut self, text: Vec<u8>) -> Result<NameId, AllocError>
        requires room { length self.old < 2 ^ 32 }
        requires new { is_among self.old text.items ≡ false }
        ensures names { OnOk result (self.new ≡ self.old ++ text.items ∷ []) }
        ensures place { IfOk result (λ id. id.0 ≡ length self.old) }
        ensures err { OnErr result (self.new ≡ self.old) }
    {
        match self.texts.insert_full(text) {
            Ok((place, _)) => Ok(NameId(place as u32)),
            Err(_) => Err(AllocError),
        }
    }

    /// Reports the number of the text, or `None` if the table does not have it.
    pub fn find(&self, text: &[u8]) -> Option<NameId>
        ensures found { IfSome result (λ id. id.0 ≡ name_of self.now text.now) }
        ensures none { (result ≡ None) ↔ (is_among self.now text.now ≡ false) }
        ensures distinct { is_distinct self.now ≡ true }
        ensures size { length self.now ≤ 2 ^ 32 }
    {
        let place = self.texts.get_index_of(text)?;
        Some(NameId(place as u32))
    }

    /// Reports the number of texts.
    pub fn count(&self) -> usize
        ensures { result ≡ length self.now }
    {
        self.texts.as_slice().len()
    }

    /// Lends the text with the number `id`, which must be below the number of texts.
    pub fn text(&self, id: NameId) -> &[u8]
        requires { id.0 < length self.now }
        ensures { slice_get self.now id.0 ≡ Some result.now }
    {
        self.texts.as_slice()[id.0 as usize].as_slice()
    }

    /// Copies the table with its texts. The error is out of memory.
    pub fn copy(&self) -> Result<Names, AllocError>
        ensures { IfOk result (λ names. names ≡ self.now) }
    {
        let mut names = Names::make(self.alloc);
        for text in self.texts.as_slice() {
            names.put(text.as_slice().to_vec(self.alloc)?)?;
        }
        Ok(names)
    }
}
