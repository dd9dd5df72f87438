//! A schedule.
ghost use Rattle.std.specs.Prelude.{◌≡◌, ◌<◌, length, Some, slice_get};

use crate::event_runs::{EventRun, event_at};
use run_types::Event;
use std::marker::Model;

/// A schedule: a quantum, whether links are lossy wires, and a list of events. The events are stored as the lines of
/// the text have them: rounds and counts are not expanded.
#[derive(Drop)]
pub struct Schedule {
    pub(crate) quantum: u32,
    pub(crate) lossy: bool,
    pub(crate) round: Vec<Event>,
    pub(crate) stretches: Vec<EventRun>,
    pub(crate) last: u32,
}

impl Model for Schedule {
    ghost use Rattle.schedule_reader.specs.Schedules.{Plan};
    ghost use Rattle.schedule_reader.specs.EventRuns.{AreEnds, stretched};

    ghost Value = { Plan };

    ghost view = { λ s. record { quantum = s.quantum; lossy = s.lossy; events = stretched s.round.items s.stretches.items } };

    ghost invariant = { λ s. AreEnds s.round.items 0 s.stretches.items s.last };
}

impl Schedule {
    /// The quantum: the largest number of local transitions of a turn, from 1 to 10,000.
    pub fn quantum(&self) -> u32
        ensures { result ≡ self.now.quantum }
    {
        self.quantum
    }

    /// Reports whether each link is a wire that may lose, repeat and reorder frames. Otherwise the schedule has no
    /// event on a wire.
    pub fn lossy(&self) -> bool
        ensures { result ≡ self.now.lossy }
    {
        self.lossy
    }

    /// The number of events, at most 2,000,000.
    pub fn len(&self) -> u32
        ensures { result ≡ length self.now.events }
    {
        self.last
    }

    /// Event `i`, counted from 0. It allocates nothing, and its time is logarithmic in the number of lines.
    pub fn event(&self, i: u32) -> Event
        requires { i < length self.now.events }
        ensures { slice_get self.now.events i ≡ Some result }
    {
        event_at(
            self.round.as_slice(),
            self.stretches.as_slice(),
            self.last,
            i,
        )
    }
}
