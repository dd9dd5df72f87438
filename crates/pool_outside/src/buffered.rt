// A buffer in front of a sink.
ghost use Rattle.std.specs.Prelude.{◌≡◌, List, ℕ, ◌+◌, ◌-◌, ◌<◌, ◌≤◌, ◌++◌, [], Option, None, length, take, drop, option_map, OnOk, OnErr};
ghost use Rattle.std.specs.Borrow.{GName};
ghost use Rattle.pool_outside.specs.Outside.{Rose, IsProperFront};
ghost use Rattle.pool_outside.specs.Gathered.{gathered, HasGrown};

use crate::calls::{WriteFault, write_all_of};
use crate::outside::{Failed, Sink};
use std::marker::{Brand, Model, PhantomData};

/// The size of the buffer in bytes.
const ROOM: usize = 4096;

/// The buffered bytes, at most `ROOM`.
#[derive(Drop)]
struct Gathered {
    bytes: [u8; ROOM],
    count: usize,
}

impl Model for Gathered {
    ghost use Rattle.std.specs.Prelude.{List, ℕ, ◌≤◌, take};

    ghost Value = { List ℕ };

    ghost view = { λ g. take g.count g.bytes };

    ghost invariant = { λ g. g.count ≤ 4096 };
}

impl Gathered {
    fn make() -> Gathered
        ensures { result ≡ [] }
    {
        Gathered {
            bytes: [0; ROOM],
            count: 0,
        }
    }

    fn room(&self) -> usize
        ensures { result + length self.now ≡ 4096 }
    {
        ROOM - self.count
    }

    fn as_slice(&self) -> &[u8]
        ensures { result.now ≡ self.now }
    {
        &self.bytes[..self.count]
    }

    fn add(&mut self, piece: &[u8]) -> usize
        requires some { 0 < length piece.now }
        requires room { length self.old < 4096 }
        ensures takes { (1 ≤ result) × (result ≤ length piece.now) }
        ensures appended { self.new ≡ self.old ++ take result piece.now }
    {
        let taken = piece.len().min(ROOM - self.count);
        let end = self.count + taken;
        self.bytes[self.count..end].copy_from_slice(&piece[..taken]);
        self.count = end;
        taken
    }

    fn remove_front(&mut self, taken: usize)
        requires { taken ≤ length self.old }
        ensures { self.new ≡ drop taken self.old }
    {
        self.bytes.copy_within(taken..self.count, 0);
        self.count -= taken;
    }
}

/// Identifies, for proofs alone, the sink of a buffer. A generic function over the buffer does not promise that the
/// buffer still refers to the same sink; this name does. A caller chooses it at a call with `Brand`.
pub trait Behind {
    /// The name of the reference to the sink.
    ghost name: { GName };

    /// The bytes that the sink had before the first one was buffered, if they are known.
    ghost start: { Option (List ℕ) };
}

impl Behind for Brand {
    ghost name = { 0 };

    ghost start = { None };
}

/// A sink that collects pieces in a buffer of 4,096 bytes. It passes them to the inner sink if the buffer is full and
/// at the end. It is not dropped: `finish` writes the rest, and `abandon` discards it.
pub struct Buffered<'a, K: Sink, B: Behind> {
    sink: &'a mut K,
    bytes: Gathered,
    of: PhantomData<B>,
    ghost same: { sink.ghost_name ≡ B.name },
    ghost grown: { HasGrown B.start (K.written sink.now) },
}

impl<'a, K: Sink, B: Behind> Buffered<'a, K, B> {
    /// Reports an empty buffer in front of the sink.
    pub fn make(sink: &'a mut K) -> Buffered<'a, K, B>
        requires name { sink.ghost_name ≡ B.name }
        requires start { K.written sink.old ≡ B.start }
        ensures written { gathered (K.written result.sink.now) result.bytes ≡ B.start }
        ensures faults { K.faults result.sink.now ≡ K.faults sink.entry.now }
    {
        Buffered {
            sink,
            bytes: Gathered::make(),
            of: PhantomData,
        }
    }

    /// Writes the rest and returns the inner sink. If a write fails, the inner sink has a proper prefix of the bytes.
    pub fn finish(self) -> (&'a mut K, Result<(), WriteFault>)
        ensures same_reference { result.0.ghost_name ≡ B.name }
        ensures whole { OnOk result.1 (K.written result.0.now ≡ gathered (K.written self.entry.sink.now) self.entry.bytes) }
        ensures front { OnErr result.1
            ((text : List ℕ) → gathered (K.written self.entry.sink.now) self.entry.bytes ≡ option_map (λ w. w ++ text) B.start → IsProperFront B.start text (K.written result.0.now)) }
        ensures failed { OnErr result.1 (Rose (K.faults self.entry.sink.now) (K.faults result.0.now)) }
        ensures no_fault { OnOk result.1 (K.faults result.0.now ≡ K.faults self.entry.sink.now) }
        ensures faults_stay_or_rise { K.faults self.entry.sink.now ≤ K.faults result.0.now }
    {
        let Buffered { sink, bytes, of: _ } = self;
        let outcome = write_all_of(sink, bytes.as_slice());
        (sink, outcome)
    }

    /// Returns the inner sink and discards the buffered bytes, as after a failed write.
    pub fn abandon(self) -> &'a mut K
        ensures same_reference { result.ghost_name ≡ B.name }
        ensures same { result.now ≡ self.entry.sink.now }
        ensures front { (text : List ℕ) → IsProperFront B.start text (gathered (K.written self.entry.sink.now) self.entry.bytes) → IsProperFront B.start text (K.written result.now) }
    {
        let Buffered {
            sink,
            bytes: _,
            of: _,
        } = self;
        sink
    }

    /// Passes a prefix of the buffered bytes to the inner sink, by one write. A failed write loses nothing.
    fn hand_on(&mut self) -> Result<(), Failed>
        requires { 0 < length self.old.bytes }
        ensures same { gathered (K.written self.new.sink.now) self.new.bytes ≡ gathered (K.written self.old.sink.now) self.old.bytes }
        ensures fewer { OnOk result (length self.new.bytes < length self.old.bytes) }
        ensures failed { OnErr result (Rose (K.faults self.old.sink.now) (K.faults self.new.sink.now)) }
        ensures no_fault { OnOk result (K.faults self.new.sink.now ≡ K.faults self.old.sink.now) }
        ensures faults_stay_or_rise { K.faults self.old.sink.now ≤ K.faults self.new.sink.now }
    {
        let taken = self.sink.write(self.bytes.as_slice())?;
        self.bytes.remove_front(taken);
        Ok(())
    }
}

impl<'a, K: Sink, B: Behind> Sink for Buffered<'a, K, B> {
    ghost written = { λ b. gathered (K.written b.sink.now) b.bytes };

    ghost faults = { λ b. K.faults b.sink.now };

    /// Takes as many bytes of the piece as there is room for. If the buffer is full, it first passes bytes on by one
    /// write.
    fn write(&mut self, piece: &[u8]) -> Result<usize, Failed> {
        if self.bytes.room() == 0 {
            self.hand_on()?;
        }
        Ok(self.bytes.add(piece))
    }
}

/// A text that can be written to any sink.
pub trait Text {
    /// The bytes of the text.
    ghost bytes: { Self → List ℕ };

    /// What `write_to` requires.
    ghost writable: { Self → Type 0 } = { λ _. Unit {0} };

    /// Writes the whole text to the sink. If a write fails, the sink has a proper prefix of the text.
    fn write_to<S: Sink>(&self, sink: &mut S) -> Result<(), WriteFault>
        requires { writable self.now }
        ensures whole { OnOk result (S.written sink.new ≡ option_map (λ w. w ++ bytes self.now) (S.written sink.old)) }
        ensures front { OnErr result (IsProperFront (S.written sink.old) (bytes self.now) (S.written sink.new)) }
        ensures failed { OnErr result (Rose (S.faults sink.old) (S.faults sink.new)) }
        ensures no_fault { OnOk result (S.faults sink.new ≡ S.faults sink.old) }
        ensures faults_stay_or_rise { S.faults sink.old ≤ S.faults sink.new };
}

// It returns the sink, so that the reference keeps its name.
fn gather<'a, T: Text, K: Sink, B: Behind>(
    text: &T,
    out: &'a mut K,
) -> (&'a mut K, Result<(), WriteFault>)
    requires writable { T.writable text.now }
    requires name { out.ghost_name ≡ B.name }
    requires start { K.written out.old ≡ B.start }
    ensures same_reference { result.0.ghost_name ≡ B.name }
    ensures whole { OnOk result.1 (K.written result.0.now ≡ option_map (λ w. w ++ T.bytes text.now) B.start) }
    ensures front { OnErr result.1 (IsProperFront B.start (T.bytes text.now) (K.written result.0.now)) }
    ensures failed { OnErr result.1 (Rose (K.faults out.entry.now) (K.faults result.0.now)) }
    ensures no_fault { OnOk result.1 (K.faults result.0.now ≡ K.faults out.entry.now) }
    ensures faults_stay_or_rise { K.faults out.entry.now ≤ K.faults result.0.now }
{
    let mut buffered = Buffered::<'a, K, B>::make(out);
    match text.write_to(&mut buffered) {
        Ok(()) => buffered.finish(),
        Err(fault) => (buffered.abandon(), Err(fault)),
    }
}

/// Writes the whole text to the sink through a buffer of 4,096 bytes. If a write fails, the sink has a proper prefix
/// of the text, and the buffered bytes are discarded.
pub fn write_gathered<T: Text, K: Sink>(text: &T, out: &mut K) -> Result<(), WriteFault>
    requires { T.writable text.now }
    ensures whole { OnOk result (K.written out.new ≡ option_map (λ w. w ++ T.bytes text.now) (K.written out.old)) }
    ensures front { OnErr result (IsProperFront (K.written out.old) (T.bytes text.now) (K.written out.new)) }
    ensures failed { OnErr result (Rose (K.faults out.old) (K.faults out.new)) }
    ensures no_fault { OnOk result (K.faults out.new ≡ K.faults out.old) }
    ensures faults_stay_or_rise { K.faults out.old ≤ K.faults out.new }
{
    let (_, outcome) = gather::<T, K, Brand>(text, out);
    outcome
}
