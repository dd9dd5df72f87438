//! The counters of a machine.
ghost use Rattle.std.specs.Prelude.{◌≡◌, ◌<◌, ◌≤◌, ◌^◌, length};
ghost use Rattle.mesh_semantics.specs.Record.{shown};
ghost use Rattle.pool_machine.specs.SentPackets.{moved};

use run_types::{Event, What};

/// 1 if a packet has left a link, and else 0.
pub(crate) fn moved_by(event: &Event, what: &What) -> u64
    ensures count { result ≡ moved event.now what.now }
    ensures one { result ≤ 1 }
{
    match *event {
        Event::Turn { .. } => 0,
        Event::Link { .. } => match *what {
            What::Idle | What::Stale { .. } => 0,
            _ => 1,
        },
        Event::Wire { .. } => 0,
    }
}

/// The number of transitions that a line shows.
pub(crate) fn shown_by(what: &What) -> u64
    ensures count { result ≡ length (shown what.now) }
    ensures few { result < 2 ^ 32 }
{
    match *what {
        What::Step { times, .. } => u64::from(times),
        _ => 0,
    }
}
