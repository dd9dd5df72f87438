//! Looks up the classes and the methods of a file by their names.
ghost use Rattle.std.specs.Prelude.{◌≡◌, option_map, is_some, slice_get, take, IfOk};
ghost use Rattle.code_semantics.specs.Step.{class_from, method_from};
ghost use Rattle.code_typing.specs.Sorts.{declared_at, declared_named, signature_named};
ghost use Rattle.code_verifier.specs.Indexed.{IsIndexFrom};
ghost use Rattle.code_verifier.specs.Scopes.{declared_of, numbered, place_of, signature_of};

use crate::index::Classes;
use code_semantics::{ClassCode, ClassKinds, MethodCode, MethodKinds};
use run_types::{Kind, NameId};
use std::alloc::{AllocError, Global};
use std::collections::BTreeMap;

/// A map from each class name to the place of the first class of that name. Reports an error if out of memory.
pub fn places_of(alloc: Global, classes: &[ClassCode]) -> Result<BTreeMap<u32, usize>, AllocError>
    ensures { IfOk result (λ places. IsIndexFrom 0 places classes.now) }
{
    let mut places = BTreeMap::new(alloc);
    for i in (0..classes.len()).rev() {
        let Ok(_) = places.insert(classes[i].name.0, i) else {
            return Err(AllocError);
        };
    }
    Ok(places)
}

/// The place, from 0, of the first method of this name; none if there is no such method.
pub fn method_place(methods: &[MethodCode], name: NameId) -> Option<usize>
    ensures { result ≡ option_map place_of (method_from 0 methods.now name) }
{
    for (i, method) in methods.iter().enumerate() {
        if method.name.0 == name.0 {
            return Some(i);
        }
    }
    None
}

/// A method and its place.
#[derive(Clone, Copy)]
struct Found<'a> {
    place: usize,
    code: &'a MethodCode,
}

/// The first method of this name.
fn find_method<'a>(methods: &'a [MethodCode], name: NameId) -> Option<Found<'a>>
    ensures { option_map numbered result ≡ method_from 0 methods.now name }
{
    for (place, code) in methods.iter().enumerate() {
        if code.name.0 == name.0 {
            return Some(Found { place, code });
        }
    }
    None
}

/// The kinds of the method at a place, if there is one.
pub fn kinds_at(kinds: &[MethodKinds], place: usize) -> Option<&MethodKinds>
    ensures { option_map (λ k. k.now) result ≡ slice_get kinds.now place }
{
    kinds.get(place)
}

/// The first `count` of these kinds, or all if there are fewer.
fn front(kinds: &[Kind], count: u32) -> &[Kind]
    ensures { result.now ≡ take count kinds.now }
{
    &kinds[..kinds.len().min(count as usize)]
}

/// The kinds of a method's parameters, and the kind of its result, if it has one.
#[derive(Clone, Copy)]
pub struct Signature<'a> {
    pub params: &'a [Kind],
    pub result: Option<Kind>,
}

/// A class with its kinds.
#[derive(Clone, Copy)]
pub struct Class<'a> {
    pub code: &'a ClassCode,
    pub kinds: &'a ClassKinds,
}

impl<'a> Class<'a> {
    /// Whether the class has a method of this name.
    pub fn has(&self, name: NameId) -> bool
        ensures { result ≡ is_some (method_from 0 self.now.code.now.methods name) }
    {
        method_place(self.code.methods.items(), name).is_some()
    }

    /// The signature of the first method of this name, if there is one.
    pub fn signature(&self, name: NameId) -> Option<Signature<'a>>
        ensures { option_map signature_of result ≡ signature_named (declared_of self.now) name }
    {
        let found = find_method(self.code.methods.items(), name)?;
        let kinds = kinds_at(self.kinds.methods.items(), found.place)?;
        Some(Signature {
            params: front(kinds.temps.items(), found.code.params),
            result: kinds.result,
        })
    }
}

impl<'a> Classes<'a> {
    /// The place of the first class of this name, if there is one.
    pub fn place(&self, name: NameId) -> Option<usize>
        ensures { result ≡ class_from 0 self.now.file.now.unit.classes name }
    {
        self.places.get(&name.0).copied()
    }

    /// The class at a place, if there is one.
    pub fn class(&self, place: usize) -> Option<Class<'a>>
        ensures { option_map declared_of result ≡ declared_at self.now.file.now place }
    {
        let code = self.file.unit.classes.items().get(place)?;
        let kinds = self.file.kinds.classes.items().get(place)?;
        Some(Class { code, kinds })
    }

    /// The first class of this name, if there is one.
    pub fn named(&self, name: NameId) -> Option<Class<'a>>
        ensures { option_map declared_of result ≡ declared_named self.now.file.now name }
    {
        self.class(self.place(name)?)
    }
}
