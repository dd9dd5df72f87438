// Reading a whole text, and writing a whole piece.
ghost use Rattle.std.specs.Prelude.{◌≡◌, ℕ, ◌+◌, ◌-◌, ◌^◌, ◌<◌, ◌≤◌, ◌++◌, ◌↔◌, true, false, length, take, option_map, IsTrue, IfOk, OnOk, OnErr, IfSome, IsErrOf};
ghost use Rattle.pool_outside.specs.Outside.{Rose, IsProperFront};
ghost use Rattle.pool_outside.specs.declared.calls.ReadFault.TheVariants.{Failed as ReadFailed, Memory};

use crate::outside::{Failed, Files, Sink};
use std::alloc::{AllocError, Global};
use thiserror::Error;

/// The reason why a text was not read whole.
#[derive(Clone, Copy, Debug, Error)]
pub enum ReadFault {
    /// The open or a read failed. The count of faults rose, or is at its last value.
    #[error("a read failed")]
    Failed,
    /// More bytes than the limit were read.
    #[error("the text is too long")]
    TooLong,
    /// Out of memory.
    #[error("out of memory")]
    Memory,
}

impl From<Failed> for ReadFault {
    ghost from_gives = { λ _ e. e ≡ ReadFailed };

    fn from(_failed: Failed) -> ReadFault {
        ReadFault::Failed
    }
}

impl From<AllocError> for ReadFault {
    ghost from_gives = { λ _ e. e ≡ Memory };

    fn from(_error: AllocError) -> ReadFault {
        ReadFault::Memory
    }
}

/// A write failed before the piece was whole in the sink.
#[derive(Clone, Copy)]
pub struct WriteFault;

/// The largest number of bytes that one read asks for.
const PIECE: usize = 65536;

fn zeros(alloc: Global, count: usize) -> Result<Vec<u8>, AllocError>
    ensures { IfOk result (λ bytes. length bytes.items ≡ count) }
{
    vec![in alloc; 0u8; count]
}

/// Opens the file once and reports its whole text. It reads pieces of at most 65,536 bytes. After more than `limit`
/// bytes it stops and reports `TooLong`. `Failed` comes if the open or a read fails, and no call follows. `Memory`
/// comes if memory runs out.
pub fn read_whole<F: Files>(
    alloc: Global,
    files: &mut F,
    name: &str,
    limit: usize,
) -> Result<Vec<u8>, ReadFault>
    requires allowed { IsTrue (F.may files.old (F.opens files.old) name.now) }
    requires countable { F.opens files.old < 2 ^ 64 - 1 }
    requires bounded { limit < 2 ^ 32 }
    ensures whole { IfOk result (λ text. IfSome (F.told files.old name.now) (λ s. text.items ≡ s)) }
    ensures counted { IfOk result (λ text. F.given files.new ≡ length text.items) }
    ensures within { IfOk result (λ text. length text.items ≤ limit) }
    ensures ended { OnOk result (F.live files.new ≡ false) }
    ensures failed { IsErrOf result ReadFault.Failed → Rose (F.faults files.old) (F.faults files.new) }
    ensures failed_within { IsErrOf result ReadFault.Failed → F.given files.new ≤ limit }
    ensures too_long { IsErrOf result ReadFault.TooLong ↔ limit < F.given files.new }
    ensures stops_there { IsErrOf result ReadFault.TooLong → F.live files.new ≡ true }
    ensures no_fault { OnOk result (F.faults files.new ≡ F.faults files.old) }
    ensures no_fault_too_long { IsErrOf result ReadFault.TooLong → F.faults files.new ≡ F.faults files.old }
    ensures no_fault_memory { IsErrOf result ReadFault.Memory → F.faults files.new ≡ F.faults files.old }
    ensures stops { F.given files.new ≤ limit + 65536 }
    ensures no_more_than_told { IfSome (F.told files.old name.now) (λ s. F.given files.new ≤ length s) }
    ensures opened_once { F.opens files.new ≡ F.opens files.old + 1 }
    ensures faults_stay_or_rise { F.faults files.old ≤ F.faults files.new }
    ensures same_texts { F.told files.new ≡ F.told files.old }
    ensures same_leave { F.may files.new ≡ F.may files.old }
{
    match files.open_file(name) {
        Ok(()) => {}
        Err(Failed) => return Err(ReadFault::Failed),
    }
    let mut piece = match zeros(alloc, PIECE) {
        Ok(piece) => piece,
        Err(AllocError) => return Err(ReadFault::Memory),
    };
    let mut text = Vec::new(alloc);
    loop {
        let taken = match files.read(&mut piece) {
            Ok(taken) => taken,
            Err(Failed) => return Err(ReadFault::Failed),
        };
        if taken == 0 {
            return Ok(text);
        }
        if taken > limit - text.len() {
            return Err(ReadFault::TooLong);
        }
        match text.extend_from_slice(&piece[..taken]) {
            Ok(()) => {}
            Err(AllocError) => return Err(ReadFault::Memory),
        }
    }
}

/// Writes the whole piece, by as many writes as the sink needs. An empty piece needs none. The error comes if a write
/// fails, and the sink then has a proper prefix of the piece.
pub fn write_all_of<K: Sink>(sink: &mut K, piece: &[u8]) -> Result<(), WriteFault>
    ensures whole { OnOk result (K.written sink.new ≡ option_map (λ w. w ++ piece.now) (K.written sink.old)) }
    ensures front { OnErr result (IsProperFront (K.written sink.old) piece.now (K.written sink.new)) }
    ensures failed { OnErr result (Rose (K.faults sink.old) (K.faults sink.new)) }
    ensures no_fault { OnOk result (K.faults sink.new ≡ K.faults sink.old) }
    ensures faults_stay_or_rise { K.faults sink.old ≤ K.faults sink.new }
{
    let mut at = 0;
    while at < piece.len() {
        match sink.write(&piece[at..]) {
            Ok(taken) => at += taken,
            Err(Failed) => return Err(WriteFault),
        }
    }
    Ok(())
}
