//! The numbers of the lines of a stream.
ghost use Rattle.std.specs.Prelude.{◌≡◌};
ghost use Rattle.run_types.specs.declared.types.Line.TheVariants as R;
ghost use Rattle.mesh_semantics.specs.Record.{is_quiet_end};
ghost use Rattle.stream_check.specs.Stream.{comes_next, next_number};

use run_record::done_of;
use run_types::{End, Line};

/// The number of the event after this one; after 4,294,967,295 comes 0.
pub fn next_number(last: u32) -> u32
    ensures { result ≡ next_number last }
{
    if last == u32::MAX { 0 } else { last + 1 }
}

/// Whether a line after the event `last` has the right number.
pub fn comes_next(last: u32, line: &Line) -> bool
    ensures { result ≡ comes_next last line.now }
{
    match line {
        Line::Event { number, .. } => *number == next_number(last),
        Line::End(end) => done_of(*end) == last,
    }
}

/// Whether an end is quiet.
pub fn is_quiet(end: End) -> bool
    ensures { result ≡ is_quiet_end (R.End end) }
{
    match end {
        End::Quiet { .. } => true,
        End::Schedule { .. } | End::Full { .. } => false,
    }
}
