//! The look-up of classes and their methods by name.
ghost use Rattle.std.specs.Prelude.{◌≡◌, length, IfOk};
ghost use Rattle.type_check.specs.Index.{IsIndex, AreIndexes};

use crate::index::{Index, places_of};
use pool_syntax::{ClassDecl, Method};
use run_types::NameId;
use std::alloc::{AllocError, Global};
use std::collections::HashMap;

/// The classes of a program, with an index of the classes and an index of the methods of each.
#[derive(Clone, Copy)]
pub struct Classes<'a> {
    pub list: &'a [ClassDecl],
    pub places: &'a HashMap<u32, usize>,
    pub methods: &'a [HashMap<u32, usize>],
    pub ghost indexed: { IsIndex (λ k. k.name.name.0) places.now list.now },
    pub ghost counted: { length methods.now ≡ length list.now },
    pub ghost all_indexed: { AreIndexes methods.now list.now },
}

/// Reports for each class a map from the name of a method to the index of the first method with this name. An
/// error means out of memory.
pub fn method_places(
    alloc: Global,
    classes: &[ClassDecl],
) -> Result<Vec<HashMap<u32, usize>>, AllocError>
    ensures counted { IfOk result (λ all. length all.items ≡ length classes.now) }
    ensures indexed { IfOk result (λ all. AreIndexes all.items classes.now) }
{
    let mut all = Vec::new(alloc);
    for class in classes {
        let places = places_of(alloc, class.methods.items())?;
        all.push(places)?;
    }
    Ok(all)
}

impl<'a> Classes<'a> {
    ghost use Rattle.std.specs.Prelude.{◌≡◌, ◌<◌, map, option_map, slice_get};
    ghost use Rattle.std.specs.Option.{option_copied};
    ghost use Rattle.pool_syntax.specs.Classes.{class_of, named_method};
    ghost use Rattle.pool_syntax.specs.TreeOf.{class_tree};
    ghost use Rattle.pool_syntax.specs.Typing.{methods_of, methods_of_class};
    ghost use Rattle.type_check.specs.CheckerScopes.{method_of};

    /// Reports the index of the classes.
    pub fn index(&self) -> Index<'a, ClassDecl>
        ensures { result.list.now ≡ self.now.list.now }
    {
        Index {
            list: self.list,
            places: self.places,
        }
    }

    /// Reports the first class with this name, if there is one.
    #[tactic(auto, using(crate::proofs::NameLookup::class_of_found))]
    pub fn named(&self, name: NameId) -> Option<&'a ClassDecl>
        ensures { option_map class_tree (option_copied result) ≡ class_of (map class_tree self.now.list.now) name.0 }
    {
        self.index().first(name)
    }

    /// Reports the first method with this name in the class with the index `place`, if there is one.
    fn method_at(&self, place: usize, name: NameId) -> Option<&'a Method>
        requires { place < length self.now.list.now }
        ensures { method_of result ≡ named_method (methods_of_class (option_map class_tree (slice_get self.now.list.now place))) name.0 }
    {
        let methods = Index {
            list: self.list[place].methods.items(),
            places: &self.methods[place],
        };
        methods.first(name)
    }

    /// Reports the first method with this name in the first class with the name `class`, if there is one.
    pub fn method(&self, class: NameId, name: NameId) -> Option<&'a Method>
        ensures { method_of result ≡ named_method (methods_of (map class_tree self.now.list.now) class.0) name.0 }
    {
        match self.index().place(class) {
            Some(place) => self.method_at(place, name),
            None => None,
        }
    }
}
