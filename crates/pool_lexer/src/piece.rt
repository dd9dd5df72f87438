//! The piece that begins at a byte of a text.
ghost use Rattle.std.specs.Prelude.{◌≡◌, ◌≢◌, ◌^◌, ◌<◌, length, slice_index};
ghost use Rattle.pool_lexer.specs.Pieces.{IsNoRun, RunOf, TellsPiece};

use crate::spelling::sign;
use pool_syntax::{LexFault, Sign};
use text_scan::{ByteSet, run_end};

/// The kind of a piece. White space and comments are `Skipped`.
#[derive(Clone, Copy)]
pub enum Kind {
    Skipped,
    Word,
    Integer,
    Text,
    Sign(Sign),
}

/// A piece: its kind, and the byte at which it ends.
#[derive(Clone, Copy)]
pub struct Piece {
    pub kind: Kind,
    pub end: usize,
}

/// Reports the longest piece that begins at the byte `at`, or the fault if no piece begins there.
pub fn piece_at(bytes: &[u8], at: usize) -> Result<Piece, LexFault>
    requires within { at < length bytes.now }
    requires small { length bytes.now < 2 ^ 32 }
    ensures { TellsPiece bytes.now at result }
{
    let first = bytes[at];
    if let Some((set, kind)) = run_of(first) {
        return Ok(Piece {
            kind,
            end: run_end(bytes, at, set),
        });
    }
    if first == b'"' {
        string_at(bytes, at)
    } else {
        sign_at(bytes, at)
    }
}

/// Reports the set of the further bytes of a piece that begins with this byte, and its kind. Reports `None` if such a
/// piece is not a run of bytes.
fn run_of(first: u8) -> Option<(ByteSet, Kind)>
    ensures { RunOf first result }
{
    if ByteSet::Space.has(first) {
        Some((ByteSet::Space, Kind::Skipped))
    } else if first == b'#' {
        Some((ByteSet::NotLineFeed, Kind::Skipped))
    } else if ByteSet::Letter.has(first) {
        Some((ByteSet::NameByte, Kind::Word))
    } else if ByteSet::Digit.has(first) {
        Some((ByteSet::Digit, Kind::Integer))
    } else {
        None
    }
}

/// Reports the string that begins at the quote `at`, or `OpenString`.
fn string_at(bytes: &[u8], at: usize) -> Result<Piece, LexFault>
    requires within { at < length bytes.now }
    requires quote { slice_index bytes.now at ≡ 34 }
    requires small { length bytes.now < 2 ^ 32 }
    ensures { TellsPiece bytes.now at result }
{
    let close = run_end(bytes, at + 1, ByteSet::Inner);
    if close < bytes.len() && bytes[close] == b'"' {
        return Ok(Piece {
            kind: Kind::Text,
            end: close + 1,
        });
    }
    Err(LexFault::OpenString { at: at as u32 })
}

/// Reports the longest sign that begins at the byte `at`, or `BadByte`. Requires that no other piece begins there.
fn sign_at(bytes: &[u8], at: usize) -> Result<Piece, LexFault>
    requires within { at < length bytes.now }
    requires small { length bytes.now < 2 ^ 32 }
    requires no_run { IsNoRun (slice_index bytes.now at) }
    requires no_quote { slice_index bytes.now at ≢ 34 }
    ensures { TellsPiece bytes.now at result }
{
    let end = bytes.len().min(at + 2);
    if let Some(sign) = sign(&bytes[at..end]) {
        return Ok(Piece {
            kind: Kind::Sign(sign),
            end,
        });
    }
    match sign(&bytes[at..at + 1]) {
        Some(sign) => Ok(Piece {
            kind: Kind::Sign(sign),
            end: at + 1,
        }),
        None => Err(LexFault::BadByte { at: at as u32 }),
    }
}
