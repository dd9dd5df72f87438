//! Lists of labels.
ghost use Rattle.std.specs.Prelude.{◌≡◌, ◌+◌, ◌^◌, ◌<◌, ◌∷◌, ◌++◌, [], true, false, IfSome, OnOk, OnErr};
ghost use Rattle.run_types.specs.declared.types.Label.TheVariants as L;
ghost use Rattle.label_list.specs.declared.part.Part.TheVariants as P;
ghost use Rattle.label_list.specs.Parts.{labels_in};

use crate::part::Part;
use run_types::Label;
use std::alloc::{AllocError, Global};
use std::marker::Model;

/// A list of labels, in parts. Contracts see the labels in order.
#[derive(Drop)]
pub struct LabelList {
    parts: Vec<Part>,
}

impl Model for LabelList {
    ghost use Rattle.std.specs.Prelude.{List};
    ghost use Rattle.run_types.specs.declared.types.Label.{Label as OneLabel};
    ghost use Rattle.label_list.specs.Parts.{labels_in};

    ghost Value = { List OneLabel };

    ghost view = { λ l. labels_in l.parts.items };
}

/// The number of local transitions in this part, if one more of this object can be added to it. None if the part is
/// another label, or has 2^32 - 1 of them.
fn has_room(part: &Part, object: u32) -> Option<u32>
    ensures { IfSome result (λ n. (part.now ≡ P.Local object n) × (n + 1 < 2 ^ 32)) }
{
    match *part {
        Part::Local {
            object: same,
            times,
        } => {
            if same == object && times < u32::MAX {
                Some(times)
            } else {
                None
            }
        }
        Part::Other(_) => None,
    }
}

impl LabelList {
    /// No labels. It takes no memory.
    pub fn make(alloc: Global) -> LabelList
        ensures { result ≡ [] }
    {
        LabelList {
            parts: Vec::new(alloc),
        }
    }

    /// Adds a local transition of this object to the last part, if that has such ones and room for one more. Returns
    /// whether it did.
    fn count(&mut self, object: u32) -> bool
        ensures counted { result ≡ true → self.new ≡ self.old ++ L.Local object ∷ [] }
        ensures unchanged { result ≡ false → self.new ≡ self.old }
    {
        let Some(last) = self.parts.as_slice().last() else {
            return false;
        };
        let Some(times) = has_room(last, object) else {
            return false;
        };
        let _last = self.parts.pop();
        self.parts.push_reserved(Part::Local {
            object,
            times: times + 1,
        });
        true
    }

    /// Appends a label. An error means out of memory, and then the list stays as it was.
    pub fn push(&mut self, label: &Label) -> Result<(), AllocError>
        ensures ok { OnOk result (self.new ≡ self.old ++ label.now ∷ []) }
        ensures err { OnErr result (self.new ≡ self.old) }
    {
        let part = match *label {
            Label::Local { object } => {
                if self.count(object) {
                    return Ok(());
                }
                Part::Local { object, times: 1 }
            }
            _ => Part::Other(*label),
        };
        self.parts.push(part)?;
        Ok(())
    }

    /// Lends the parts in order.
    pub fn parts(&self) -> &[Part]
        ensures { labels_in result.now ≡ self.now }
    {
        self.parts.as_slice()
    }

    /// Removes all labels.
    pub fn clear(&mut self)
        ensures { self.new ≡ [] }
    {
        self.parts.clear();
    }
}
