//! Fills in the local transitions of a record.
ghost use Rattle.std.specs.Prelude.{◌≡◌, IfOk};
ghost use Rattle.pool_syntax.specs.TreeOf.{program_of};
ghost use Rattle.mesh_semantics.specs.Record.{EndsOnce};
ghost use Rattle.stream_check.specs.Filled.{IsFilled};

use crate::fill_lines::first_object;
use crate::filling::Filling;
use class_check::Checked;
use pool_semantics::Plain;
use run_types::{Line, List, Verdict};
use std::alloc::{AllocError, Global};

/// A record with local transitions filled in, and the verdict on it.
#[derive(Drop)]
pub struct Filled {
    pub lines: List<Line>,
    pub verdict: Verdict,
}

/// Fills in local transitions, and leaves out those that the record has. Before each other transition its agent makes
/// its local transitions, and before an answer or a return the caller too. Before a quiet end all objects do. An object
/// makes at most 1,000,000 at one place. After an impossible line nothing is filled in. Events are numbered from 1.
/// Requires one end line, the last.
/// An error means out of memory, or that an object would have more than 1,000,000 methods under way.
/// The time is proportional to the lines and to the transitions that the filled lines show.
pub fn fill_record(
    alloc: Global,
    program: &Checked<'_>,
    lines: &[Line],
) -> Result<Filled, AllocError>
    requires { EndsOnce lines.now }
    ensures { IfOk result (λ f. IsFilled (program_of program.now.program.now) lines.now f.lines f.verdict) }
{
    let mut filling = Filling {
        plain: Plain::make(alloc, program, first_object(lines))?,
        lines: List::make(alloc),
        last: 0,
    };
    let verdict = filling.judge(alloc, lines)?;
    Ok(Filled {
        lines: filling.lines,
        verdict,
    })
}
