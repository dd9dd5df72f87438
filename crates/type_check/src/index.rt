//! An index from names to items of a list.
ghost use Rattle.std.specs.Prelude.{◌≡◌, ℕ, nat_eq, IfOk, OnOk};
ghost use Rattle.std.specs.HashMap.{get};
ghost use Rattle.type_check.specs.Index.{IsIndex, place_with};

use crate::named::HasName;
use run_types::NameId;
use std::alloc::{AllocError, Global};
use std::collections::HashMap;

/// A list with an index from each name to the first item that has it.
#[derive(Drop)]
pub struct Index<'a, T: HasName> {
    pub list: &'a [T],
    pub places: &'a HashMap<u32, usize>,
    pub ghost indexed: { IsIndex T.name places.now list.now },
}

/// Enters the place of a name that has none yet.
fn add(places: &mut HashMap<u32, usize>, name: NameId, place: usize) -> Result<(), AllocError>
    ensures { OnOk result ((n : ℕ) → get nat_eq places.new n ≡ place_with (get nat_eq places.old n) name.0 place n) }
{
    if !places.contains_key(&name.0) {
        places.insert(name.0, place)?;
    }
    Ok(())
}

/// Reports a map from each name to the place of the first item that has it. The error is out of memory.
pub fn places_of<T: HasName>(alloc: Global, list: &[T]) -> Result<HashMap<u32, usize>, AllocError>
    ensures { IfOk result (λ places. IsIndex T.name places list.now) }
{
    let mut places = HashMap::new(alloc);
    for (i, item) in list.iter().enumerate() {
        add(&mut places, item.name(), i)?;
    }
    Ok(places)
}

impl<'a, T: HasName> Index<'a, T> {
    ghost use Rattle.std.specs.Prelude.{◌≡◌, ◌==◌, find, take};
    ghost use Rattle.std.specs.List.{list_any};
    ghost use Rattle.std.specs.Option.{option_copied};
    ghost use Rattle.type_check.specs.Index.{place_of};

    /// Reports the place of the first item with this name, if there is one.
    pub fn place(&self, name: NameId) -> Option<usize>
        ensures { result ≡ place_of T.name self.now.list.now name.0 }
    {
        self.places.get(&name.0).copied()
    }

    /// Reports the first item with this name, if there is one.
    pub fn first(&self, name: NameId) -> Option<&'a T>
        ensures { option_copied result ≡ find (λ x. T.name x == name.0) self.now.list.now }
    {
        match self.place(name) {
            Some(place) => self.list.get(place),
            None => None,
        }
    }

    /// Reports whether an item before the place has this name.
    pub fn is_before(&self, place: usize, name: NameId) -> bool
        ensures { result ≡ list_any (λ x. T.name x == name.0) (take place self.now.list.now) }
    {
        match self.place(name) {
            Some(first) => first < place,
            None => false,
        }
    }
}
