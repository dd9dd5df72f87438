//! Reads a schedule.
ghost use Rattle.std.specs.Prelude.{◌≡◌, ◌≤◌, length, IfOk, IfErr, Ok, Some, None};
ghost use Rattle.text_scan.specs.Lines.{words};
ghost use Rattle.schedule_reader.specs.Entries.{quantum_of};
ghost use Rattle.schedule_reader.specs.Schedules.{fault_in, quantum_fault, schedule_of};
ghost use Rattle.schedule_reader.specs.ReaderFacts.{ReportsFault};

use crate::collect::gather;
use crate::entry::{MOST_EVENTS, quantum_in};
use crate::fault::ScheduleFault;
use crate::opening::behind_quantum;
use crate::round::round;
use crate::schedule::Schedule;
use run_types::Placement;
use std::alloc::Global;
use text_scan::{count_lines, next_content_line};

/// The quantum of the first content line, or the fault of that line.
fn first_quantum(line: u32, bytes: &[u8]) -> Result<u32, ScheduleFault>
    ensures ok { IfOk result (λ q. (quantum_of (words bytes.now) ≡ Some q) × (1 ≤ q) × (q ≤ 10000)) }
    ensures err { IfErr result (λ f. quantum_fault line (quantum_of (words bytes.now)) ≡ Some f) }
{
    match quantum_in(bytes) {
        None => Err(ScheduleFault::BadLine { line }),
        Some(quantum) if 1 <= quantum && quantum <= 10000 => Ok(quantum as u32),
        Some(_) => Err(ScheduleFault::OutOfRange { line }),
    }
}

/// Parses a schedule, of at most 67,108,864 bytes, for the mesh of a placement. Returns the schedule, or the first
/// fault of the text, or `Memory` if memory runs out.
pub fn read_schedule(
    alloc: Global,
    bytes: &[u8],
    placement: &Placement,
) -> Result<Schedule, ScheduleFault>
    requires small { length bytes.now ≤ 67108864 }
    requires width { (1 ≤ placement.now.width) × (placement.now.width ≤ 8) }
    requires height { (1 ≤ placement.now.height) × (placement.now.height ≤ 8) }
    ensures ok { IfOk result (λ s. schedule_of placement.now.width placement.now.height placement.now.cuts bytes.now ≡ Ok s) }
    ensures err { IfErr result (λ f. ReportsFault f (fault_in (schedule_of placement.now.width placement.now.height placement.now.cuts bytes.now))) }
{
    let Some(first) = next_content_line(bytes, 0, 1) else {
        return Err(ScheduleFault::BadLine {
            line: count_lines(bytes) + 1,
        });
    };
    let quantum = first_quantum(first.line, &bytes[first.start..first.end])?;
    let opening = behind_quantum(bytes, first.next, first.line + 1);
    let round = round(
        alloc,
        placement.width,
        placement.height,
        placement.cuts.items(),
        opening.lossy,
    )?;
    let gathered = gather(
        alloc,
        bytes,
        opening,
        placement.width,
        placement.height,
        placement.cuts.items(),
        round.as_slice(),
    )?;
    if gathered.total > MOST_EVENTS {
        return Err(ScheduleFault::TooManyEvents {
            count: gathered.total,
        });
    }
    Ok(Schedule {
        quantum,
        lossy: opening.lossy,
        round,
        stretches: gathered.stretches,
        last: gathered.total as u32,
    })
}
