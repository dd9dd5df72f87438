//! The start of the lines of events.
ghost use Rattle.std.specs.Prelude.{◌≡◌, ◌+◌, ◌≤◌, length, drop};
ghost use Rattle.text_scan.specs.Lines.{lines};
ghost use Rattle.text_scan.specs.ContentLines.{kept_from};
ghost use Rattle.schedule_reader.specs.Schedules.{begins_lossy, without_wires};

use crate::entry::is_lossy;
use text_scan::next_content_line;

/// Whether a schedule is lossy, and the start of its lines of events: the byte `at`, which begins line `line`.
#[derive(Clone, Copy)]
pub struct Opening {
    pub lossy: bool,
    pub at: usize,
    pub line: u32,
}

/// The opening of the lines after the quantum, which begin at byte `from` with line `line`.
pub fn behind_quantum(bytes: &[u8], from: usize, line: u32) -> Opening
    requires within { from ≤ length bytes.now }
    requires small { length bytes.now ≤ 67108864 }
    requires few { line ≤ from + 1 }
    ensures within { result.at ≤ length bytes.now }
    ensures few { result.line ≤ result.at + 1 }
    ensures lossy { result.lossy ≡ begins_lossy (kept_from line (lines (drop from bytes.now))) }
    ensures lines { kept_from result.line (lines (drop result.at bytes.now)) ≡ without_wires (kept_from line (lines (drop from bytes.now))) }
{
    match next_content_line(bytes, from, line) {
        Some(found) if is_lossy(&bytes[found.start..found.end]) => Opening {
            lossy: true,
            at: found.next,
            line: found.line + 1,
        },
        _ => Opening {
            lossy: false,
            at: from,
            line,
        },
    }
}
