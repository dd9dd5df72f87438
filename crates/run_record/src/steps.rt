//! The transitions that a line shows.
ghost use Rattle.std.specs.Prelude.{◌≡◌};
ghost use Rattle.run_record.specs.Steps.{steps_of};

use run_types::{Label, Line, What};

/// A transition, and the number of times that it is made: 1, but for local transitions.
#[derive(Clone, Copy)]
pub struct Steps {
    pub label: Label,
    pub times: u32,
}

/// The transitions that a line shows. None exactly if it shows none.
pub fn label_of(line: &Line) -> Option<Steps>
    ensures { result ≡ steps_of line.now }
{
    match line {
        Line::Event {
            what: What::Step { label, times },
            ..
        } => Some(Steps {
            label: *label,
            times: *times,
        }),
        _ => None,
    }
}
