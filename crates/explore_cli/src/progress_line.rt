//! One line of counts on a terminal, while a search runs. It is erased before the program writes anything else.
ghost use Rattle.std.specs.Prelude.{◌≡◌, ◌+◌, ◌-◌, ◌^◌, ◌<◌, ◌≤◌};

use pool_outside::{Failed, Sink};
use pool_search::Progress;
use std::alloc::Global;
use std::cell::Cell;
use std::io::{IsTerminal, Write};
use std::rt::Clock;
use std::time::Instant;

/// Goes to the start of the line, and erases to its end.
const ERASE: &[u8] = b"\r\x1b[K";

/// The number of calls of `note` for each look at the clock.
const CALLS: u32 = 256;

/// The number of milliseconds between two lines, at least.
const PERIOD: u128 = 1000;

/// Erases the line, if it is on the terminal. A failed write is not reported.
fn erase<W: Write>(terminal: &mut W, is_shown: &Cell<bool>) {
    if is_shown.replace(false) {
        let _ = terminal.write_all(ERASE);
    }
}

/// Writes the counts of a search on a terminal, at most once a second, each time over the line before. It writes
/// nothing in the first second of a search, and nothing at all if the writer is no terminal.
#[derive(Drop)]
pub struct ProgressLine<'a, C: Clock + Drop, W: IsTerminal + Write + Drop> {
    alloc: Global,
    clock: C,
    terminal: W,
    is_terminal: bool,
    is_shown: &'a Cell<bool>,
    /// The number of calls since the last look at the clock.
    calls: u32,
    /// The time of the last line, or of the first look, and the number of configurations that were kept then.
    last: Option<Instant>,
    kept: u32,
}

impl<'a, C: Clock + Drop, W: IsTerminal + Write + Drop> ProgressLine<'a, C, W> {
    /// Makes the line for this writer. `is_shown` tells whether the line is on the terminal.
    pub fn make(
        alloc: Global,
        clock: C,
        terminal: W,
        is_shown: &'a Cell<bool>,
    ) -> ProgressLine<'a, C, W> {
        let is_terminal = terminal.is_terminal();
        ProgressLine {
            alloc,
            clock,
            terminal,
            is_terminal,
            is_shown,
            calls: 0,
            last: None,
            kept: 0,
        }
    }

    /// Erases the line.
    pub fn finish(&mut self) {
        erase(&mut self.terminal, self.is_shown);
    }

    /// Writes the counts. `millis` is the number of milliseconds since the last line.
    fn show(&mut self, kept: u32, tried: u32, millis: u128)
        requires { 0 < millis }
    {
        // A second search begins with fewer configurations.
        let more = kept.checked_sub(self.kept).unwrap_or(kept);
        let left = kept.saturating_sub(tried);
        let rate = more as u128 * 1000 / millis;
        let text = format!(in self.alloc;
            "\r{kept} configurations kept, {left} of them to be tried, {rate} kept a second\x1b[K"
        );
        if let Ok(text) = text {
            self.is_shown.set(true);
            let _ = self.terminal.write_all(text.as_bytes());
        }
    }

    /// Looks at the clock, and writes the counts if a second has passed since the last line.
    #[inline(never)]
    fn look(&mut self, kept: u32, tried: u32) {
        let Ok(now) = Instant::now(&self.clock) else {
            return;
        };
        if let Some(last) = self.last {
            let millis = now.duration_since(last).as_millis();
            if millis < PERIOD {
                return;
            }
            self.show(kept, tried, millis);
        }
        self.last = Some(now);
        self.kept = kept;
    }
}

impl<C: Clock + Drop, W: IsTerminal + Write + Drop> Progress for ProgressLine<'_, C, W> {
    fn note(&mut self, kept: u32, tried: u32) {
        if !self.is_terminal {
            return;
        }
        if self.calls == 0 {
            self.look(kept, tried);
        }
        self.calls = self.calls.wrapping_add(1) % CALLS;
    }
}

/// A sink that erases the line before each write.
#[derive(Drop)]
pub struct Clearing<'a, K: Sink + Drop, W: Write + Drop> {
    sink: K,
    terminal: W,
    is_shown: &'a Cell<bool>,
}

impl<'a, K: Sink + Drop, W: Write + Drop> Clearing<'a, K, W> {
    /// Makes the sink, with the terminal of the line. `is_shown` tells whether the line is there.
    pub fn make(sink: K, terminal: W, is_shown: &'a Cell<bool>) -> Clearing<'a, K, W> {
        Clearing {
            sink,
            terminal,
            is_shown,
        }
    }
}

impl<K: Sink + Drop, W: Write + Drop> Sink for Clearing<'_, K, W> {
    ghost written = { λ s. K.written s.sink };

    ghost faults = { λ s. K.faults s.sink };

    fn write(&mut self, piece: &[u8]) -> Result<usize, Failed> {
        erase(&mut self.terminal, self.is_shown);
        self.sink.write(piece)
    }
}
