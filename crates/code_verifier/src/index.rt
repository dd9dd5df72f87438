//! The classes of a file.
ghost use Rattle.code_verifier.specs.Indexed.{IsIndexFrom};

use code_semantics::UnitFile;
use std::collections::BTreeMap;

/// The classes of a file, with a map from each class name to the place of the first class of that name.
#[derive(Clone, Copy)]
pub struct Classes<'a> {
    pub file: &'a UnitFile,
    pub places: &'a BTreeMap<u32, usize>,
    pub ghost indexed: { IsIndexFrom 0 places.now file.now.unit.classes },
}
