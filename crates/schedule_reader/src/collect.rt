//! The entries of the lines of events.
ghost use Rattle.std.specs.Prelude.{◌≡◌, ◌+◌, ◌*◌, ◌<◌, ◌≤◌, ◌++◌, [], ◌∷◌, length, drop, IfOk, IfErr, OnOk, None, Some};
ghost use Rattle.std.specs.List.{repeat};
ghost use Rattle.text_scan.specs.Lines.{lines};
ghost use Rattle.text_scan.specs.ContentLines.{kept_from};
ghost use Rattle.schedule_reader.specs.Events.{events_of, round_of, total};
ghost use Rattle.schedule_reader.specs.Schedules.{entries_of, first_fault};
ghost use Rattle.schedule_reader.specs.ReaderFacts.{ReportsFault};
ghost use Rattle.schedule_reader.specs.EventRuns.{AreEnds, part_events, stretched};

use crate::entry::{MOST_EVENTS, judge};
use crate::event_runs::{EventRun, Repeat, part_len};
use crate::fault::ScheduleFault;
use crate::opening::Opening;
use run_types::{Event, LinkId};
use std::alloc::{AllocError, Global};
use text_scan::next_content_line;

/// The runs of events so far, and the number of their events. `stretches` is complete as long as `total` is at most
/// 2,000,000.
#[derive(Drop)]
pub struct Collected {
    pub stretches: Vec<EventRun>,
    pub total: u64,
}

/// Counts the events of a line, and adds its run if the events so far are at most 2,000,000.
fn add(gathered: &mut Collected, round: &[Event], line: Repeat) -> Result<(), AllocError>
    requires count { line.count ≤ 2000000 }
    requires round { length round.now ≤ 12352 }
    requires total { gathered.old.total ≤ 2000000000000000000 }
    requires ends { gathered.old.total ≤ 2000000 → AreEnds round.now 0 gathered.old.stretches.items gathered.old.total }
    ensures total { OnOk result (gathered.new.total ≡ gathered.old.total + line.count * length (part_events round.now line.part)) }
    ensures ends { OnOk result (gathered.new.total ≤ 2000000 → AreEnds round.now 0 gathered.new.stretches.items gathered.new.total) }
    ensures events { OnOk result
        (gathered.new.total ≤ 2000000 → stretched round.now gathered.new.stretches.items ≡ stretched round.now gathered.old.stretches.items ++ repeat line.count (part_events round.now line.part)) }
{
    gathered.total += u64::from(line.count) * part_len(round, line.part) as u64;
    if gathered.total <= MOST_EVENTS {
        gathered.stretches.push(EventRun {
            count: line.count,
            end: gathered.total as u32,
            part: line.part,
        })?;
    }
    Ok(())
}

/// The runs of all lines of events, or the fault of the first line that has one.
pub fn gather(
    alloc: Global,
    bytes: &[u8],
    opening: Opening,
    width: u32,
    height: u32,
    cuts: &[LinkId],
    round: &[Event],
) -> Result<Collected, ScheduleFault>
    requires within { opening.at ≤ length bytes.now }
    requires small { length bytes.now ≤ 67108864 }
    requires few { opening.line ≤ opening.at + 1 }
    requires width { (1 ≤ width) × (width ≤ 8) }
    requires height { (1 ≤ height) × (height ≤ 8) }
    requires round { round.now ≡ round_of width height cuts.now opening.lossy }
    requires round_small { length round.now ≤ 12352 }
    ensures faultless { OnOk result (first_fault width height cuts.now opening.lossy (kept_from opening.line (lines (drop opening.at bytes.now))) ≡ None) }
    ensures total { IfOk result (λ g. g.total ≡ total width height cuts.now opening.lossy (entries_of opening.lossy (kept_from opening.line (lines (drop opening.at bytes.now))))) }
    ensures ends { IfOk result (λ g. g.total ≤ 2000000 → AreEnds round.now 0 g.stretches.items g.total) }
    ensures events { IfOk result
        (λ g. g.total ≤ 2000000
        → stretched round.now g.stretches.items ≡ events_of width height cuts.now opening.lossy (entries_of opening.lossy (kept_from opening.line (lines (drop opening.at bytes.now))))) }
    ensures fault { IfErr result (λ f. ReportsFault f (first_fault width height cuts.now opening.lossy (kept_from opening.line (lines (drop opening.at bytes.now))))) }
{
    let mut gathered = Collected {
        stretches: Vec::new(alloc),
        total: 0,
    };
    let mut at = opening.at;
    let mut number = opening.line;
    while let Some(found) = next_content_line(bytes, at, number) {
        let counted = judge(
            u64::from(width),
            u64::from(height),
            cuts,
            opening.lossy,
            found.line,
            &bytes[found.start..found.end],
        )?;
        add(&mut gathered, round, counted)?;
        at = found.next;
        number = found.line + 1;
    }
    Ok(gathered)
}
