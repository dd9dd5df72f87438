//! The parts of a list of labels.
ghost use Rattle.std.specs.Prelude.{◌≡◌};
ghost use Rattle.label_list.specs.Parts.{label_of, times_of};

use run_types::Label;

/// A part of a list of labels. `Local`: `times` local transitions of one object, which are 1 to 2^32 - 1 in a list.
/// `Other`: one label that is not local.
#[derive(Clone, Copy)]
pub enum Part {
    Local { object: u32, times: u32 },
    Other(Label),
}

impl Part {
    /// The label of the part.
    pub fn label(&self) -> Label
        ensures { result ≡ label_of self.now }
    {
        match *self {
            Part::Local { object, .. } => Label::Local { object },
            Part::Other(label) => label,
        }
    }

    /// The number of labels of the part, which are all the same.
    pub fn times(&self) -> u32
        ensures { result ≡ times_of self.now }
    {
        match *self {
            Part::Local { times, .. } => times,
            Part::Other(_) => 1,
        }
    }
}
