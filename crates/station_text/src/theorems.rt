//! The law of pieces, over the definitions alone. It is the contract of a function with an empty body.
ghost use Rattle.std.specs.Prelude.{◌<◌, ◌^◌, ◌++◌, length};
ghost use Rattle.text_scan.specs.Text.{Text};
ghost use Rattle.station_text.specs.Pieces.{IsFirstPiece, piece_bytes};

/// A piece that was written before other bytes is read back.
pub fn pieces_are_read_back()
    ensures { (bs rest : Text) → length bs < 2 ^ 32 → IsFirstPiece (piece_bytes bs ++ rest) bs rest }
{}
