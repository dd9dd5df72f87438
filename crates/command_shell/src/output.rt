//! Writes an output, or the line of an input error.
ghost use Rattle.std.specs.Prelude.{◌≡◌};
ghost use Rattle.command_shell.specs.Writing.{Writes, writing};
ghost use Rattle.command_shell.specs.Results.{ReportsInputError};

use crate::status::Status;
use command_inputs::{InputError, line_of_refusal, line_of_unread};
use pool_outside::{Sink, write_all_of};
use std::alloc::Global;

/// Writes a text. Returns the status, or `WriteFault` if the write fails.
pub fn say<K: Sink>(sink: &mut K, piece: &[u8], status: Status) -> Status
    ensures { Writes (writing K.written K.faults sink.old sink.new) piece.now status result }
{
    match write_all_of(sink, piece) {
        Ok(()) => status,
        Err(_) => Status::WriteFault,
    }
}

/// Writes the line of an input error to `err`, and returns its status: `Refused` or `ReadFault`. Returns `WriteFault`
/// if the write fails. Returns `Memory`, and writes nothing, if the error is out of memory or memory runs out.
pub fn say_stop<E: Sink>(alloc: Global, err: &mut E, stop: InputError) -> Status
    ensures { ReportsInputError (writing E.written E.faults err.old err.new) stop result }
{
    match stop {
        InputError::Memory => Status::Memory,
        InputError::Refused { input, fault } => match line_of_refusal(alloc, input, fault) {
            Ok(line) => say(err, &line, Status::Refused),
            Err(_) => Status::Memory,
        },
        InputError::Unread { input } => match line_of_unread(alloc, input) {
            Ok(line) => say(err, &line, Status::ReadFault),
            Err(_) => Status::Memory,
        },
    }
}
