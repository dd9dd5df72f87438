//! Appends pieces to a text.
ghost use Rattle.std.specs.Prelude.{◌≡◌, ◌++◌, OnOk, decimal};

use itoa::Buffer;
use run_types::List;
use std::alloc::AllocError;

/// Appends a piece. Returns `Err` if memory runs out.
pub fn push_piece(text: &mut List<u8>, piece: &[u8]) -> Result<(), AllocError>
    ensures { OnOk result (text.new ≡ text.old ++ piece.now) }
{
    for byte in piece {
        text.push(*byte)?;
    }
    Ok(())
}

/// Appends the digits of a number. Returns `Err` if memory runs out.
pub fn push_number(text: &mut List<u8>, number: u32) -> Result<(), AllocError>
    ensures { OnOk result (text.new ≡ text.old ++ decimal number) }
{
    let mut buffer = Buffer::new();
    push_piece(text, buffer.format(number).as_bytes())
}
