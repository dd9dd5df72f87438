//! Output of statements.
ghost use Rattle.std.specs.Prelude.{◌≡◌, ◌∷◌, true};
ghost use Rattle.text_scan.specs.declared.keywords.Keyword.TheVariants.{Answer};
ghost use Rattle.pool_syntax.specs.declared.token.Tok.TheVariants.{Word};
ghost use Rattle.pool_syntax.specs.TreeOf.{alternatives_of, statement_of, statements_of};
ghost use Rattle.pool_printer.specs.Canonical.{alternatives_tokens, answer_tokens, else_tokens, names_tokens, statement_tokens, statements_tokens};
ghost use Rattle.pool_printer.specs.Known.{are_known};
ghost use Rattle.pool_printer.specs.Parts.{alternative_tokens};
ghost use Rattle.pool_printer.specs.SinkState.{Prints, state};

use crate::expressions::{call, expression};
use crate::levels::{ANY, SEND};
use crate::token_writer::{Progress, say, separate};
use pool_outside::Sink;
use pool_syntax::{Alt, Named, Sign, Stmt, Tok};
use run_types::{List, Names};
use text_scan::Keyword;

/// Writes names in parentheses.
fn list<K: Sink>(names: &Names, sink: &mut K, progress: &mut Progress, list: &[Named])
    requires { are_known names.now (names_tokens list.now) ≡ true }
    ensures { Prints names.now (names_tokens list.now) (state progress.old (K.written sink.old) (K.faults sink.old)) (state progress.new (K.written sink.new) (K.faults sink.new)) }
{
    say(names, sink, progress, Tok::Sign(Sign::LeftParen));
    for (i, named) in list.iter().enumerate() {
        separate(names, sink, progress, Sign::Comma, i);
        say(names, sink, progress, Tok::Name(named.name));
    }
    say(names, sink, progress, Tok::Sign(Sign::RightParen));
}

/// Writes `answer` and its names.
fn answer_to<K: Sink>(names: &Names, sink: &mut K, progress: &mut Progress, listed: &[Named])
    requires { are_known names.now (names_tokens listed.now) ≡ true }
    ensures { Prints names.now (Word Answer ∷ names_tokens listed.now) (state progress.old (K.written sink.old) (K.faults sink.old)) (state progress.new (K.written sink.new) (K.faults sink.new)) }
{
    say(names, sink, progress, Tok::Word(Keyword::Answer));
    list(names, sink, progress, listed);
}

/// Writes the answer list of an alternative, if it has one.
fn answer<K: Sink>(
    names: &Names,
    sink: &mut K,
    progress: &mut Progress,
    answer: &Option<List<Named>>,
)
    requires { are_known names.now (answer_tokens answer.now) ≡ true }
    ensures { Prints names.now (answer_tokens answer.now) (state progress.old (K.written sink.old) (K.faults sink.old)) (state progress.new (K.written sink.new) (K.faults sink.new)) }
{
    if let Some(answer) = answer {
        answer_to(names, sink, progress, answer.items());
    }
}

/// Writes a statement.
#[cycle(statements)]
fn statement<K: Sink>(names: &Names, sink: &mut K, progress: &mut Progress, stmt: &Stmt)
    requires { are_known names.now (statement_tokens (statement_of stmt.now)) ≡ true }
    ensures { Prints names.now (statement_tokens (statement_of stmt.now)) (state progress.old (K.written sink.old) (K.faults sink.old)) (state progress.new (K.written sink.new) (K.faults sink.new)) }
{
    match stmt {
        Stmt::Assign { target, value } => {
            say(names, sink, progress, Tok::Name(target.name));
            say(names, sink, progress, Tok::Sign(Sign::Becomes));
            expression(names, sink, progress, ANY, value);
        }
        Stmt::Write { value } => {
            say(names, sink, progress, Tok::Word(Keyword::Write));
            expression(names, sink, progress, ANY, value);
        }
        Stmt::WriteText { text } => {
            say(names, sink, progress, Tok::Word(Keyword::Write));
            say(names, sink, progress, Tok::Str(*text));
        }
        Stmt::Do { value } => expression(names, sink, progress, ANY, value),
        Stmt::Async { to, method, args } => {
            expression(names, sink, progress, SEND, to);
            say(names, sink, progress, Tok::Sign(Sign::BangBang));
            call(names, sink, progress, method.name, args.items());
        }
        Stmt::If { cond, yes, no } => {
            say(names, sink, progress, Tok::Word(Keyword::If));
            expression(names, sink, progress, ANY, cond);
            say(names, sink, progress, Tok::Word(Keyword::Then));
            statements(names, sink, progress, yes.items());
            otherwise(names, sink, progress, no.items());
            say(names, sink, progress, Tok::Word(Keyword::Fi));
        }
        Stmt::While { cond, body } => {
            say(names, sink, progress, Tok::Word(Keyword::While));
            expression(names, sink, progress, ANY, cond);
            say(names, sink, progress, Tok::Word(Keyword::Do));
            statements(names, sink, progress, body.items());
            say(names, sink, progress, Tok::Word(Keyword::Od));
        }
        Stmt::Answer { names: listed } => answer_to(names, sink, progress, listed.items()),
        Stmt::Select { alts } => {
            say(names, sink, progress, Tok::Word(Keyword::Select));
            alternatives(names, sink, progress, alts.items());
            say(names, sink, progress, Tok::Word(Keyword::End));
        }
    }
}

/// Writes `else` and its statements, if there are any.
#[cycle(statements)]
fn otherwise<K: Sink>(names: &Names, sink: &mut K, progress: &mut Progress, stmts: &[Stmt])
    requires { are_known names.now (else_tokens (statements_of stmts.now) (statements_tokens (statements_of stmts.now))) ≡ true }
    ensures { Prints names.now (else_tokens (statements_of stmts.now) (statements_tokens (statements_of stmts.now))) (state progress.old (K.written sink.old) (K.faults sink.old))
        (state progress.new (K.written sink.new) (K.faults sink.new)) }
{
    if !stmts.is_empty() {
        say(names, sink, progress, Tok::Word(Keyword::Else));
        statements(names, sink, progress, stmts);
    }
}

/// Writes statements.
#[cycle(statements)]
pub fn statements<K: Sink>(names: &Names, sink: &mut K, progress: &mut Progress, stmts: &[Stmt])
    requires { are_known names.now (statements_tokens (statements_of stmts.now)) ≡ true }
    ensures { Prints names.now (statements_tokens (statements_of stmts.now)) (state progress.old (K.written sink.old) (K.faults sink.old))
        (state progress.new (K.written sink.new) (K.faults sink.new)) }
{
    for (i, stmt) in stmts.iter().enumerate() {
        separate(names, sink, progress, Sign::Semicolon, i);
        statement(names, sink, progress, stmt);
    }
}

/// Writes the alternatives of a select.
#[cycle(statements)]
fn alternatives<K: Sink>(names: &Names, sink: &mut K, progress: &mut Progress, alts: &[Alt])
    requires { are_known names.now (alternatives_tokens (alternatives_of alts.now)) ≡ true }
    ensures { Prints names.now (alternatives_tokens (alternatives_of alts.now)) (state progress.old (K.written sink.old) (K.faults sink.old))
        (state progress.new (K.written sink.new) (K.faults sink.new)) }
{
    for alt in alts {
        alternative(names, sink, progress, alt);
    }
}

/// Writes an alternative of a select.
#[cycle(statements)]
fn alternative<K: Sink>(names: &Names, sink: &mut K, progress: &mut Progress, alt: &Alt)
    requires { are_known names.now (alternative_tokens alt.now) ≡ true }
    ensures { Prints names.now (alternative_tokens alt.now) (state progress.old (K.written sink.old) (K.faults sink.old)) (state progress.new (K.written sink.new) (K.faults sink.new)) }
{
    say(names, sink, progress, Tok::Word(Keyword::When));
    expression(names, sink, progress, ANY, &alt.guard);
    answer(names, sink, progress, &alt.answer);
    say(names, sink, progress, Tok::Word(Keyword::Then));
    statements(names, sink, progress, alt.work.items());
}
