// Files and sinks in memory.
ghost use Rattle.std.specs.Prelude.{◌≡◌, ℕ, ◌+◌, ◌-◌, ◌^◌, ◌<◌, ◌≤◌, ◌++◌, ◌↔◌, ◌||◌, List, [], Option, None, Some, Bool, true, false, length, take, drop, min, option_map, option_copied, unwrap_or};
ghost use Rattle.std.specs.Prelude.{slice_get, is_some, is_none, IsTrue, IfOk, OnOk, OnErr, IfSome, IsOk, not, nat_lt, nat_eq, vec_capacity, vec_len};
ghost use Rattle.std.specs.Result.{is_err};
ghost use Rattle.std.specs.Str.{bytes_eq};
ghost use Rattle.pool_outside.specs.Outside.{Rose};
ghost use Rattle.pool_outside.specs.Memory.{counted, is_failing, text_under, text_at, Texts, Pieces, FilesState, SinkState};

use crate::outside::{Failed, Files, Sink};
use std::alloc::{AllocError, Global};
use std::marker::Model;

/// A text under a name.
#[derive(Drop)]
pub struct NamedText {
    pub name: String,
    pub text: Vec<u8>,
}

impl Model for NamedText {
    ghost use Rattle.std.specs.Prelude.{List, ℕ, string_bytes};

    ghost Value = { List ℕ × List ℕ };

    ghost view = { λ t. (string_bytes t.name, t.text.items) };
}

/// A position in a text, which is given by its index.
#[derive(Clone, Copy)]
struct Place {
    text: usize,
    at: usize,
}

/// Texts, of which one may be open.
#[derive(Drop)]
struct Shelf {
    texts: Vec<NamedText>,
    place: Option<Place>,
    live: bool,
    given: u64,
    opens: u64,
}

impl Model for Shelf {
    ghost Value = { Texts };

    ghost view = { λ s. record { texts = s.texts.items; rest = option_map (λ p. drop p.at (text_at s.texts.items p.text)) s.place; live = s.live; given = s.given; opens = s.opens } };

    ghost invariant = { λ s. IfSome s.place (λ p. p.at ≤ length (text_at s.texts.items p.text)) };
}

fn index_of(texts: &[NamedText], name: &str) -> Option<usize>
    ensures { option_map (λ i. text_at texts.now i) result ≡ text_under texts.now name.now }
{
    for (i, t) in texts.iter().enumerate() {
        if t.name.as_str() == name {
            return Some(i);
        }
    }
    None
}

fn text_of(texts: &[NamedText], index: usize) -> &[u8]
    ensures { result.now ≡ text_at texts.now index }
{
    match texts.get(index) {
        Some(t) => t.text.as_slice(),
        None => &[],
    }
}

fn copy_front(from: &[u8], into: &mut [u8]) -> usize
    ensures least { result ≡ min (length into.old) (length from.now) }
    ensures front { take result into.new ≡ take result from.now }
{
    let count = into.len().min(from.len());
    into[..count].copy_from_slice(&from[..count]);
    count
}

impl Shelf {
    fn make(texts: Vec<NamedText>) -> Shelf
        ensures { result ≡ record { texts = texts.items; rest = None; live = false; given = 0; opens = 0 } }
    {
        Shelf {
            texts,
            place: None,
            live: false,
            given: 0,
            opens: 0,
        }
    }

    fn enter(&mut self, name: &str) -> bool
        requires { self.old.opens < 2 ^ 64 - 1 }
        ensures found { result ≡ is_some (text_under self.old.texts name.now) }
        ensures entered { self.new ≡ record self.old { rest = text_under self.old.texts name.now; live = result; given = 0; opens = self.old.opens + 1 } }
    {
        let index = index_of(&self.texts, name);
        self.place = index.map(|text| Place { text, at: 0 });
        self.live = self.place.is_some();
        self.given = 0;
        self.opens += 1;
        self.live
    }

    fn enter_empty(&mut self)
        ensures { self.new ≡ record self.old { rest = Some []; live = true } }
    {
        self.place = Some(Place {
            text: self.texts.len(),
            at: 0,
        });
        self.live = true;
    }

    fn leave(&mut self)
        ensures { self.new ≡ record self.old { rest = None; live = false } }
    {
        self.place = None;
        self.live = false;
    }

    fn stop(&mut self)
        ensures { self.new ≡ record self.old { live = false } }
    {
        self.live = false;
    }

    fn take(&mut self, into: &mut [u8]) -> usize
        requires { 0 < length into.old }
        ensures least { result ≡ min (length into.old) (length (unwrap_or self.old.rest [])) }
        ensures front { take result into.new ≡ take result (unwrap_or self.old.rest []) }
        ensures left { self.new ≡ record self.old { rest = option_map (drop result) self.old.rest; live = nat_lt 0 result; given = counted self.old.given result } }
    {
        let mut count = 0;
        if let Some(place) = self.place {
            count = copy_front(&text_of(&self.texts, place.text)[place.at..], into);
            self.place = Some(Place {
                text: place.text,
                at: place.at + count,
            });
        }
        self.live = count > 0;
        self.given = self.given.saturating_add(count as u64);
        count
    }
}

/// Texts in memory as files, for tests. Opens and reads are numbered together, from 0.
#[derive(Drop)]
pub struct MemFiles {
    shelf: Shelf,
    failing: Vec<u64>,
    calls: u64,
    faults: u64,
}

impl Model for MemFiles {
    ghost Value = { FilesState };

    ghost view = { λ f. record {
      texts = f.shelf.texts;
      rest = f.shelf.rest;
      live = f.shelf.live;
      given = f.shelf.given;
      opens = f.shelf.opens;
      failing = f.failing.items;
      calls = f.calls;
      faults = f.faults;
    } };
}

impl MemFiles {
    /// Reports files with these texts, of which the first of a name counts. `failing` has the numbers of the calls
    /// that fail.
    pub fn make(texts: Vec<NamedText>, failing: Vec<u64>) -> MemFiles
        ensures { result ≡ record { texts = texts.items; rest = None; live = false; given = 0; opens = 0; failing = failing.items; calls = 0; faults = 0 } }
    {
        MemFiles {
            shelf: Shelf::make(texts),
            failing,
            calls: 0,
            faults: 0,
        }
    }

    fn is_next_failing(&mut self) -> bool
        ensures answer { result ≡ is_failing self.old.failing self.old.calls }
        ensures next { self.new ≡ record self.old { calls = counted self.old.calls 1 } }
    {
        let fails = self.failing.contains(&self.calls);
        self.calls = self.calls.saturating_add(1);
        fails
    }

    fn fault(&mut self)
        ensures counted { self.new ≡ record self.old { faults = counted self.old.faults 1 } }
        ensures rose { Rose self.old.faults self.new.faults }
        ensures stay_or_rise { self.old.faults ≤ self.new.faults }
    {
        self.faults = self.faults.saturating_add(1);
    }
}

impl Files for MemFiles {
    ghost told = { λ f. text_under f.texts };

    ghost rest = { λ f. f.rest };

    ghost given = { λ f. f.given };

    ghost faults = { λ f. f.faults };

    ghost opens = { λ f. f.opens };

    ghost may = { λ f n name. true };

    ghost live = { λ f. f.live };

    /// Fails exactly if the number of the call is in `failing`, or no text has the name.
    fn open_file(&mut self, name: &str) -> Result<(), Failed>
        requires countable { self.old.opens < 2 ^ 64 - 1 }
        ensures fails { is_err result ≡ (is_failing self.old.failing self.old.calls || is_none (text_under self.old.texts name.now)) }
        ensures entered { OnOk result (self.new ≡ record self.old { rest = text_under self.old.texts name.now; live = true; given = 0; opens = self.old.opens + 1; calls = counted self.old.calls 1 }) }
        ensures failed { OnErr result
            (self.new ≡ record self.old { rest = None; live = false; given = 0; opens = self.old.opens + 1; calls = counted self.old.calls 1; faults = counted self.old.faults 1 }) }
        ensures rose { OnErr result (Rose self.old.faults self.new.faults) }
        ensures faults_stay_or_rise { self.old.faults ≤ self.new.faults }
    {
        let fails = self.is_next_failing();
        let found = self.shelf.enter(name);
        if found && !fails {
            return Ok(());
        }
        self.shelf.leave();
        self.fault();
        Err(Failed)
    }

    /// Fails exactly if the number of the call is in `failing`. Otherwise it gives as many bytes as `into` has room
    /// for.
    fn read(&mut self, into: &mut [u8]) -> Result<usize, Failed>
        requires room { 0 < length into.old }
        ensures fails { is_err result ≡ is_failing self.old.failing self.old.calls }
        ensures least { IfOk result (λ n. n ≡ min (length into.old) (length (unwrap_or self.old.rest []))) }
        ensures front { IfOk result (λ n. take n into.new ≡ take n (unwrap_or self.old.rest [])) }
        ensures given { IfOk result
            (λ n. self.new ≡ record self.old { rest = option_map (drop n) self.old.rest; live = nat_lt 0 n; given = counted self.old.given n; calls = counted self.old.calls 1 }) }
        ensures failed { OnErr result (self.new ≡ record self.old { live = false; calls = counted self.old.calls 1; faults = counted self.old.faults 1 }) }
        ensures rose { OnErr result (Rose self.old.faults self.new.faults) }
        ensures faults_stay_or_rise { self.old.faults ≤ self.new.faults }
    {
        if self.is_next_failing() {
            self.shelf.stop();
            self.fault();
            return Err(Failed);
        }
        Ok(self.shelf.take(into))
    }
}

/// Texts in memory as files whose calls never fail. A name without a text has the empty text.
#[derive(Drop)]
pub struct CalmFiles {
    shelf: Shelf,
}

impl Model for CalmFiles {
    ghost Value = { Texts };

    ghost view = { λ f. f.shelf };
}

impl CalmFiles {
    /// Reports files with these texts, of which the first of a name counts.
    pub fn make(texts: Vec<NamedText>) -> CalmFiles
        ensures { result ≡ record { texts = texts.items; rest = None; live = false; given = 0; opens = 0 } }
    {
        CalmFiles {
            shelf: Shelf::make(texts),
        }
    }
}

impl Files for CalmFiles {
    ghost told = { λ f name. Some (unwrap_or (text_under f.texts name) []) };

    ghost rest = { λ f. f.rest };

    ghost given = { λ f. f.given };

    ghost faults = { λ f. 0 };

    ghost opens = { λ f. f.opens };

    ghost may = { λ f n name. true };

    ghost live = { λ f. f.live };

    /// Never fails.
    fn open_file(&mut self, name: &str) -> Result<(), Failed>
        requires countable { self.old.opens < 2 ^ 64 - 1 }
        ensures ok { IsOk result }
        ensures entered { self.new ≡ record self.old { rest = Some (unwrap_or (text_under self.old.texts name.now) []); live = true; given = 0; opens = self.old.opens + 1 } }
    {
        if !self.shelf.enter(name) {
            self.shelf.enter_empty();
        }
        Ok(())
    }

    /// Never fails, and gives as many bytes as `into` has room for.
    fn read(&mut self, into: &mut [u8]) -> Result<usize, Failed>
        requires room { 0 < length into.old }
        ensures ok { IsOk result }
        ensures least { IfOk result (λ n. n ≡ min (length into.old) (length (unwrap_or self.old.rest []))) }
        ensures front { IfOk result (λ n. take n into.new ≡ take n (unwrap_or self.old.rest [])) }
        ensures given { IfOk result (λ n. self.new ≡ record self.old { rest = option_map (drop n) self.old.rest; live = nat_lt 0 n; given = counted self.old.given n }) }
    {
        Ok(self.shelf.take(into))
    }
}

/// Texts in memory as files whose calls never fail, and whose reads give at most `gives` bytes each. A name without a
/// text has the empty text.
#[derive(Drop)]
pub struct PieceFiles {
    shelf: Shelf,
    gives: usize,
}

impl Model for PieceFiles {
    ghost Value = { Pieces };

    ghost view = { λ f. record { shelf = f.shelf; gives = f.gives } };

    ghost invariant = { λ f. 1 ≤ f.gives };
}

impl PieceFiles {
    /// Reports files with these texts, of which the first of a name counts. One read gives at most `gives` bytes.
    pub fn make(texts: Vec<NamedText>, gives: usize) -> PieceFiles
        requires { 1 ≤ gives }
        ensures { result ≡ record { shelf = record { texts = texts.items; rest = None; live = false; given = 0; opens = 0 }; gives = gives } }
    {
        PieceFiles {
            shelf: Shelf::make(texts),
            gives,
        }
    }
}

impl Files for PieceFiles {
    ghost told = { λ f name. Some (unwrap_or (text_under f.shelf.texts name) []) };

    ghost rest = { λ f. f.shelf.rest };

    ghost given = { λ f. f.shelf.given };

    ghost faults = { λ f. 0 };

    ghost opens = { λ f. f.shelf.opens };

    ghost may = { λ f n name. true };

    ghost live = { λ f. f.shelf.live };

    /// Never fails.
    fn open_file(&mut self, name: &str) -> Result<(), Failed>
        requires countable { self.old.shelf.opens < 2 ^ 64 - 1 }
        ensures ok { IsOk result }
        ensures entered { self.new.shelf ≡ record self.old.shelf { rest = Some (unwrap_or (text_under self.old.shelf.texts name.now) []); live = true; given = 0; opens = self.old.shelf.opens + 1 } }
        ensures same_piece { self.new.gives ≡ self.old.gives }
    {
        if !self.shelf.enter(name) {
            self.shelf.enter_empty();
        }
        Ok(())
    }

    /// Never fails, and gives as many bytes as `into` has room for, but at most `gives`.
    fn read(&mut self, into: &mut [u8]) -> Result<usize, Failed>
        requires room { 0 < length into.old }
        ensures ok { IsOk result }
        ensures least { IfOk result (λ n. n ≡ min (min (length into.old) self.old.gives) (length (unwrap_or self.old.shelf.rest []))) }
        ensures ended { IfOk result (λ n. n ≡ 0 → IfSome self.old.shelf.rest (λ s. s ≡ []) × (self.new.shelf.live ≡ false)) }
        ensures front { IfOk result (λ n. take n into.new ≡ take n (unwrap_or self.old.shelf.rest [])) }
        ensures given { IfOk result (λ n. self.new.shelf ≡ record self.old.shelf { rest = option_map (drop n) self.old.shelf.rest; live = nat_lt 0 n; given = counted self.old.shelf.given n }) }
        ensures same_piece { self.new.gives ≡ self.old.gives }
    {
        let most = into.len().min(self.gives);
        Ok(self.shelf.take(&mut into[..most]))
    }
}

/// A sink in memory, for tests. It allocates only when it is made.
#[derive(Drop)]
pub struct MemSink {
    bytes: Vec<u8>,
    room: usize,
    takes: usize,
    failing: Vec<u64>,
    calls: u64,
    faults: u64,
}

impl Model for MemSink {
    ghost Value = { SinkState };

    ghost view = { λ s. record { bytes = s.bytes.items; room = s.room; takes = s.takes; failing = s.failing.items; calls = s.calls; faults = s.faults } };

    ghost invariant = { λ s. (1 ≤ s.takes) × (vec_len s.bytes + s.room ≤ vec_capacity s.bytes) };
}

impl MemSink {
    /// Reports an empty sink with room for `room` bytes. One write takes at most `takes` bytes. `failing` has the
    /// numbers of the writes that fail, counted from 0. The error is out of memory.
    pub fn make(
        alloc: Global,
        room: usize,
        takes: usize,
        failing: Vec<u64>,
    ) -> Result<MemSink, AllocError>
        requires { 1 ≤ takes }
        ensures { IfOk result (λ s. s ≡ record { bytes = []; room = room; takes = takes; failing = failing.items; calls = 0; faults = 0 }) }
    {
        let bytes = Vec::with_capacity(alloc, room)?;
        Ok(MemSink {
            bytes,
            room,
            takes,
            failing,
            calls: 0,
            faults: 0,
        })
    }

    /// Lends the bytes that were written.
    pub fn written(&self) -> &[u8]
        ensures { result.now ≡ self.now.bytes }
    {
        self.bytes.as_slice()
    }
}

impl Sink for MemSink {
    ghost written = { λ s. Some s.bytes };

    ghost faults = { λ s. s.faults };

    /// Fails exactly if the number of the write is in `failing`, or no room is left.
    fn write(&mut self, piece: &[u8]) -> Result<usize, Failed>
        requires some { 0 < length piece.now }
        ensures fails { is_err result ≡ (is_failing self.old.failing self.old.calls || nat_eq self.old.room 0) }
        ensures least { IfOk result (λ n. n ≡ min self.old.takes (min self.old.room (length piece.now))) }
        ensures some { IfOk result (λ n. 1 ≤ n) }
        ensures appended { IfOk result (λ n. self.new ≡ record self.old { bytes = self.old.bytes ++ take n piece.now; room = self.old.room - n; calls = counted self.old.calls 1 }) }
        ensures failed { OnErr result (self.new ≡ record self.old { calls = counted self.old.calls 1; faults = counted self.old.faults 1 }) }
        ensures rose { OnErr result (Rose self.old.faults self.new.faults) }
        ensures faults_stay_or_rise { self.old.faults ≤ self.new.faults }
    {
        let fails = self.failing.contains(&self.calls) || self.room == 0;
        self.calls = self.calls.saturating_add(1);
        if fails {
            self.faults = self.faults.saturating_add(1);
            return Err(Failed);
        }
        let count = self.takes.min(self.room).min(piece.len());
        self.bytes.extend_from_slice(&piece[..count]).unwrap();
        self.room -= count;
        Ok(count)
    }
}

/// A sink that takes every piece whole and keeps nothing.
#[derive(Drop)]
pub struct CalmSink;

impl CalmSink {
    /// Reports a sink that keeps nothing.
    pub fn make() -> CalmSink
        ensures { result ≡ record {} }
    {
        CalmSink
    }
}

impl Sink for CalmSink {
    ghost written = { λ s. None };

    ghost faults = { λ s. 0 };

    /// Never fails.
    fn write(&mut self, piece: &[u8]) -> Result<usize, Failed>
        requires some { 0 < length piece.now }
        ensures whole { result ≡ Ok (length piece.now) }
    {
        Ok(piece.len())
    }
}
