//! Output of tokens, each after the separator from the token before it.
ghost use Rattle.std.specs.Prelude.{◌≡◌, ◌∷◌, [], true};
ghost use Rattle.pool_syntax.specs.declared.token.Tok.TheVariants.{Sign as SignToken};
ghost use Rattle.pool_printer.specs.Canonical.{gap};
ghost use Rattle.pool_printer.specs.Known.{are_known, is_known};
ghost use Rattle.pool_printer.specs.SinkState.{Prints, Puts, separator_at, state};
ghost use Rattle.pool_printer.specs.Spelling.{spelling};

use itoa::Buffer;
use pool_outside::{Sink, WriteFault, write_all_of};
use pool_syntax::{Sign, Tok};
use run_types::Names;
use text_scan::Keyword;

/// The state of the output: its last token, and whether a write has failed. After a failed write nothing is written.
#[derive(Clone, Copy)]
pub struct Progress {
    pub last: Option<Tok>,
    pub failed: bool,
}

/// Writes the piece, unless a write has failed before.
pub fn put<K: Sink>(sink: &mut K, progress: &mut Progress, piece: &[u8])
    ensures last { progress.new.last ≡ progress.old.last }
    ensures text { Puts piece.now (state progress.old (K.written sink.old) (K.faults sink.old)) (state progress.new (K.written sink.new) (K.faults sink.new)) }
{
    if !progress.failed {
        match write_all_of(sink, piece) {
            Ok(()) => {}
            Err(WriteFault) => progress.failed = true,
        }
    }
}

/// Reports the separator before a token.
fn gap(before: Option<Tok>, token: Tok) -> &'static [u8]
    ensures { result.now ≡ gap before token }
{
    match (before, token) {
        (None, _) => b"",
        (Some(Tok::Sign(Sign::Semicolon)), _) => b"\n",
        (_, Tok::Word(Keyword::Class | Keyword::Var | Keyword::Method | Keyword::Body)) => b"\n",
        _ => b" ",
    }
}

/// Writes the text of a token.
fn spell<K: Sink>(names: &Names, sink: &mut K, progress: &mut Progress, token: Tok)
    requires { is_known names.now token ≡ true }
    ensures last { progress.new.last ≡ progress.old.last }
    ensures text { Puts (spelling names.now token) (state progress.old (K.written sink.old) (K.faults sink.old)) (state progress.new (K.written sink.new) (K.faults sink.new)) }
{
    match token {
        Tok::Word(word) => put(sink, progress, word.text()),
        Tok::Name(name) => put(sink, progress, names.text(name)),
        Tok::Int(value) => {
            let mut buffer = Buffer::new();
            put(sink, progress, buffer.format(value).as_bytes());
        }
        Tok::Str(text) => {
            put(sink, progress, b"\"");
            put(sink, progress, names.text(text));
            put(sink, progress, b"\"");
        }
        Tok::Sign(sign) => put(sink, progress, sign.text()),
        Tok::End => put(sink, progress, b""),
    }
}

/// Writes a token after the separator from the last one.
pub fn say<K: Sink>(names: &Names, sink: &mut K, progress: &mut Progress, token: Tok)
    requires { is_known names.now token ≡ true }
    ensures { Prints names.now (token ∷ []) (state progress.old (K.written sink.old) (K.faults sink.old)) (state progress.new (K.written sink.new) (K.faults sink.new)) }
{
    put(sink, progress, gap(progress.last, token));
    spell(names, sink, progress, token);
    progress.last = Some(token);
}

/// Writes tokens.
pub fn say_all<K: Sink>(names: &Names, sink: &mut K, progress: &mut Progress, tokens: &[Tok])
    requires { are_known names.now tokens.now ≡ true }
    ensures { Prints names.now tokens.now (state progress.old (K.written sink.old) (K.faults sink.old)) (state progress.new (K.written sink.new) (K.faults sink.new)) }
{
    for token in tokens {
        say(names, sink, progress, *token);
    }
}

#[tactic(auto, using(crate::proofs::SequentialOutput::prints_nothing))]
/// Writes the separator before the part with the index `place`. The first part has none.
pub fn separate<K: Sink>(
    names: &Names,
    sink: &mut K,
    progress: &mut Progress,
    separator: Sign,
    place: usize,
)
    ensures { Prints names.now (separator_at (SignToken separator) place) (state progress.old (K.written sink.old) (K.faults sink.old)) (state progress.new (K.written sink.new) (K.faults sink.new)) }
{
    if place > 0 {
        say(names, sink, progress, Tok::Sign(separator));
    }
}
