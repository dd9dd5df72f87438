//! Runs of events, and the event of a number in them.
ghost use Rattle.std.specs.Prelude.{◌≡◌, ◌+◌, ◌-◌, ◌*◌, ◌<◌, ◌≤◌, length, Some, slice_get};
ghost use Rattle.schedule_reader.specs.EventRuns.{AreEnds, part_events, stretch_events, stretched};

use run_types::Event;

/// One event, or a round of the mesh.
#[derive(Clone, Copy)]
pub enum RunItem {
    One(Event),
    Round,
}

/// A run item that comes `count` times.
#[derive(Clone, Copy)]
pub struct Repeat {
    pub count: u32,
    pub part: RunItem,
}

/// A run item that comes `count` times. `end` is the number of events up to its end.
#[derive(Clone, Copy)]
pub struct EventRun {
    pub count: u32,
    pub end: u32,
    pub part: RunItem,
}

/// The number of events of a run item.
pub fn part_len(round: &[Event], part: RunItem) -> usize
    ensures { result ≡ length (part_events round.now part) }
{
    match part {
        RunItem::One(_) => 1,
        RunItem::Round => round.len(),
    }
}

/// The event of a number in a run.
fn event_in(round: &[Event], stretch: EventRun, number: u32) -> Event
    requires small { stretch.count * length (part_events round.now stretch.part) ≤ stretch.end }
    requires begins { stretch.end - stretch.count * length (part_events round.now stretch.part) ≤ number }
    requires ends { number < stretch.end }
    ensures { slice_get (stretch_events round.now stretch) (number - (stretch.end - stretch.count * length (part_events round.now stretch.part))) ≡ Some result }
{
    let start = stretch.end - stretch.count * part_len(round, stretch.part) as u32;
    match stretch.part {
        RunItem::One(event) => event,
        RunItem::Round => round[(number - start) as usize % round.len()],
    }
}

/// The event of a number, counted from 0. Requires a number below `last`, the number of all events. The time is
/// logarithmic in the number of runs.
pub fn event_at(round: &[Event], stretches: &[EventRun], last: u32, number: u32) -> Event
    requires ends { AreEnds round.now 0 stretches.now last }
    requires within { number < last }
    ensures { slice_get (stretched round.now stretches.now) number ≡ Some result }
{
    let place = stretches.partition_point(|stretch| stretch.end <= number);
    event_in(round, stretches[place], number)
}
