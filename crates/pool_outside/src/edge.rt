// Files and sinks of the system, over std. No contract says what they contain. The bytes that std gives and takes are
// passed on unchanged.
ghost use Rattle.std.specs.Prelude.{◌≡◌, ℕ, ◌+◌, ◌-◌, ◌^◌, ◌<◌, ◌≤◌, None, true, false, length, take, is_some, option_map, unwrap_or, IfOk, OnOk, OnErr};
ghost use Rattle.std.specs.Io.KnownBytes.{Appends, Consumes, IsAtEnd, Keeps};
ghost use Rattle.pool_outside.specs.Outside.{Rose};
ghost use Rattle.pool_outside.specs.Memory.{counted};
ghost use Rattle.pool_outside.specs.Edge.{Counts, Passed};

use crate::outside::{Failed, Files, Sink};
use std::io::{Read, Write};
use std::marker::Model;
use std::{fs, rt};

/// The files of the system, through the runtime. A path that cannot be opened for reading fails at `open_file`, and a
/// folder there or at its first read.
#[derive(Drop)]
pub struct StdFiles<R: rt::Files + Drop> {
    rt: R,
    file: Option<R::File>,
    opens: u64,
    given: u64,
    faults: u64,
}

impl<R: rt::Files + Drop> Model for StdFiles<R> {
    ghost Value = { Counts };

    ghost view = { λ f. record { opens = f.opens; given = f.given; faults = f.faults; live = is_some f.file; left = unwrap_or (option_map (λ file. R.File.remaining file) f.file) None } };
}

impl<R: rt::Files + Drop> StdFiles<R> {
    /// Reports the files that this runtime reaches, with no call counted and no file open.
    pub fn make(rt: R) -> StdFiles<R>
        ensures { result ≡ record { opens = 0; given = 0; faults = 0; live = false; left = None } }
    {
        StdFiles {
            rt,
            file: None,
            opens: 0,
            given: 0,
            faults: 0,
        }
    }

    fn fail(&mut self)
        ensures fields { self.new ≡ record self.old { faults = counted self.old.faults 1; live = false; left = None } }
        ensures rose { Rose self.old.faults self.new.faults }
        ensures stay_or_rise { self.old.faults ≤ self.new.faults }
    {
        self.file = None;
        self.faults = self.faults.saturating_add(1);
    }
}

impl<R: rt::Files + Drop> Files for StdFiles<R> {
    ghost told = { λ f name. None };

    ghost rest = { λ f. None };

    ghost given = { λ f. f.given };

    ghost faults = { λ f. f.faults };

    ghost opens = { λ f. f.opens };

    ghost may = { λ f n name. true };

    ghost live = { λ f. f.live };

    fn open_file(&mut self, name: &str) -> Result<(), Failed> {
        self.opens += 1;
        self.given = 0;
        match fs::open(&self.rt, name) {
            Ok(file) => {
                self.file = Some(file);
                Ok(())
            }
            Err(_) => {
                self.fail();
                Err(Failed)
            }
        }
    }

    /// Reads the next bytes of the file into `into`, and reports their number, which is 0 only at its end.
    fn read(&mut self, into: &mut [u8]) -> Result<usize, Failed>
        requires live { self.old.live ≡ true }
        requires room { 0 < length into.old }
        ensures passed { IfOk result (λ n. 0 < n → Consumes self.old.left self.new.left (take n into.new)) }
        ensures at_end { IfOk result (λ n. n ≡ 0 → IsAtEnd self.old.left) }
        ensures no_fault { OnOk result (self.new.faults ≡ self.old.faults) }
        ensures fits { IfOk result (λ n. n ≤ length into.old) }
        ensures counted { IfOk result (λ n. self.new.given ≡ counted self.old.given n) }
        ensures ended { IfOk result (λ n. n ≡ 0 → self.new.live ≡ false) }
        ensures goes_on { IfOk result (λ n. 0 < n → self.new.live ≡ true) }
        ensures failed { OnErr result (Rose self.old.faults self.new.faults × (self.new.live ≡ false) × (self.new.given ≡ self.old.given)) }
        ensures faults_stay_or_rise { self.old.faults ≤ self.new.faults }
        ensures same_opens { self.new.opens ≡ self.old.opens }
    {
        let outcome = match &mut self.file {
            Some(file) => file.read(into),
            None => unreachable!(),
        };
        match outcome {
            Ok(count) => {
                self.given = self.given.saturating_add(count as u64);
                if count == 0 {
                    self.file = None;
                }
                Ok(count)
            }
            Err(_) => {
                self.fail();
                Err(Failed)
            }
        }
    }
}

/// A writer of the system, such as standard output or standard error. It has no buffer. A write that takes no byte
/// counts as failed.
#[derive(Drop)]
pub struct StdSink<W: Write + Drop> {
    writer: W,
    faults: u64,
}

impl<W: Write + Drop> Model for StdSink<W> {
    ghost Value = { Passed };

    ghost view = { λ s. record { held = W.contents s.writer; faults = s.faults } };
}

impl<W: Write + Drop> StdSink<W> {
    /// Reports a sink over the writer.
    pub fn make(writer: W) -> StdSink<W>
        ensures { result ≡ record { held = W.contents writer; faults = 0 } }
    {
        StdSink { writer, faults: 0 }
    }
}

impl<W: Write + Drop> Sink for StdSink<W> {
    ghost written = { λ s. None };

    ghost faults = { λ s. s.faults };

    /// Passes the piece to the writer, which takes a prefix of it, or nothing if the write fails.
    fn write(&mut self, piece: &[u8]) -> Result<usize, Failed>
        requires some { 0 < length piece.now }
        ensures passed { IfOk result (λ n. Appends self.old.held self.new.held (take n piece.now)) }
        ensures kept { OnErr result (Keeps self.old.held self.new.held) }
        ensures takes { IfOk result (λ n. (1 ≤ n) × (n ≤ length piece.now)) }
        ensures failed { OnErr result (Rose self.old.faults self.new.faults) }
        ensures no_fault { OnOk result (self.new.faults ≡ self.old.faults) }
        ensures faults_stay_or_rise { self.old.faults ≤ self.new.faults }
    {
        match self.writer.write(piece) {
            Ok(count) if count > 0 => Ok(count),
            _ => {
                self.faults = self.faults.saturating_add(1);
                Err(Failed)
            }
        }
    }
}
