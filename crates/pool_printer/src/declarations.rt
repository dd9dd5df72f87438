//! Output of declarations.
ghost use Rattle.std.specs.Prelude.{◌≡◌, map, true};
ghost use Rattle.pool_syntax.specs.TreeOf.{class_tree, expression_of, method_tree, statements_of};
ghost use Rattle.pool_syntax.specs.declared.token.Tok.TheVariants.{Sign as SignToken};
ghost use Rattle.pool_printer.specs.Canonical.{class_tokens, declarations_tokens, kind_token, method_tokens, methods_tokens, outcome_tokens, post_tokens, program_tokens, result_tokens, separated_by};
ghost use Rattle.pool_printer.specs.Canonical.{variable_tokens};
ghost use Rattle.pool_printer.specs.Known.{are_known};
ghost use Rattle.pool_printer.specs.SinkState.{Prints, state};

use crate::expressions::expression;
use crate::levels::ANY;
use crate::statements::statements;
use crate::token_writer::{Progress, say, say_all, separate};
use pool_outside::Sink;
use pool_syntax::{ClassDecl, Expr, Method, Sign, Stmt, Tok, Var};
use run_types::{Kind, Names};
use text_scan::Keyword;

fn kind_token(kind: Kind) -> Tok
    ensures { result ≡ kind_token kind }
{
    match kind {
        Kind::Int => Tok::Word(Keyword::Int),
        Kind::Bool => Tok::Word(Keyword::Bool),
        Kind::Class(name) => Tok::Name(name),
    }
}

/// Writes a variable's name and declared type.
fn variable<K: Sink>(names: &Names, sink: &mut K, progress: &mut Progress, var: Var)
    requires { are_known names.now (variable_tokens var) ≡ true }
    ensures { Prints names.now (variable_tokens var) (state progress.old (K.written sink.old) (K.faults sink.old)) (state progress.new (K.written sink.new) (K.faults sink.new)) }
{
    say_all(
        names,
        sink,
        progress,
        &[
            Tok::Name(var.name),
            Tok::Sign(Sign::Colon),
            kind_token(var.kind),
        ],
    );
}

/// Writes parameters.
fn params<K: Sink>(names: &Names, sink: &mut K, progress: &mut Progress, params: &[Var])
    requires { are_known names.now (separated_by (SignToken Sign.Comma) (map variable_tokens params.now)) ≡ true }
    ensures { Prints names.now (separated_by (SignToken Sign.Comma) (map variable_tokens params.now)) (state progress.old (K.written sink.old) (K.faults sink.old))
        (state progress.new (K.written sink.new) (K.faults sink.new)) }
{
    for (i, param) in params.iter().enumerate() {
        separate(names, sink, progress, Sign::Comma, i);
        variable(names, sink, progress, *param);
    }
}

/// Writes one declaration for each variable.
fn variables<K: Sink>(
    names: &Names,
    sink: &mut K,
    progress: &mut Progress,
    word: Keyword,
    vars: &[Var],
)
    requires { are_known names.now (declarations_tokens word vars.now) ≡ true }
    ensures { Prints names.now (declarations_tokens word vars.now) (state progress.old (K.written sink.old) (K.faults sink.old)) (state progress.new (K.written sink.new) (K.faults sink.new)) }
{
    for var in vars {
        say(names, sink, progress, Tok::Word(word));
        variable(names, sink, progress, *var);
    }
}

/// Writes the type of a method's result, if it has one.
fn outcome<K: Sink>(names: &Names, sink: &mut K, progress: &mut Progress, kind: Option<Kind>)
    requires { are_known names.now (outcome_tokens kind) ≡ true }
    ensures { Prints names.now (outcome_tokens kind) (state progress.old (K.written sink.old) (K.faults sink.old)) (state progress.new (K.written sink.new) (K.faults sink.new)) }
{
    if let Some(kind) = kind {
        say(names, sink, progress, Tok::Sign(Sign::Colon));
        say(names, sink, progress, kind_token(kind));
    }
}

/// Writes the value of a method, if it has a result.
fn value<K: Sink>(
    names: &Names,
    sink: &mut K,
    progress: &mut Progress,
    kind: Option<Kind>,
    value: &Expr,
)
    requires { are_known names.now (result_tokens kind (expression_of value.now)) ≡ true }
    ensures { Prints names.now (result_tokens kind (expression_of value.now)) (state progress.old (K.written sink.old) (K.faults sink.old))
        (state progress.new (K.written sink.new) (K.faults sink.new)) }
{
    if let Some(_) = kind {
        say(names, sink, progress, Tok::Word(Keyword::Result));
        expression(names, sink, progress, ANY, value);
    }
}

/// Writes the post statements of a method, if it has any.
fn post<K: Sink>(names: &Names, sink: &mut K, progress: &mut Progress, stmts: &[Stmt])
    requires { are_known names.now (post_tokens (statements_of stmts.now)) ≡ true }
    ensures { Prints names.now (post_tokens (statements_of stmts.now)) (state progress.old (K.written sink.old) (K.faults sink.old)) (state progress.new (K.written sink.new) (K.faults sink.new)) }
{
    if !stmts.is_empty() {
        say(names, sink, progress, Tok::Word(Keyword::Post));
        statements(names, sink, progress, stmts);
    }
}

fn method<K: Sink>(names: &Names, sink: &mut K, progress: &mut Progress, method: &Method)
    requires { are_known names.now (method_tokens (method_tree method.now)) ≡ true }
    ensures { Prints names.now (method_tokens (method_tree method.now)) (state progress.old (K.written sink.old) (K.faults sink.old)) (state progress.new (K.written sink.new) (K.faults sink.new)) }
{
    say(names, sink, progress, Tok::Word(Keyword::Method));
    say(names, sink, progress, Tok::Name(method.name.name));
    say(names, sink, progress, Tok::Sign(Sign::LeftParen));
    params(names, sink, progress, method.params.items());
    say(names, sink, progress, Tok::Sign(Sign::RightParen));
    outcome(names, sink, progress, method.result);
    variables(names, sink, progress, Keyword::Local, method.locals.items());
    say(names, sink, progress, Tok::Word(Keyword::Begin));
    statements(names, sink, progress, method.body.items());
    value(names, sink, progress, method.result, &method.value);
    post(names, sink, progress, method.post.items());
    say(names, sink, progress, Tok::Word(Keyword::End));
}

fn methods<K: Sink>(names: &Names, sink: &mut K, progress: &mut Progress, methods: &[Method])
    requires { are_known names.now (methods_tokens (map method_tree methods.now)) ≡ true }
    ensures { Prints names.now (methods_tokens (map method_tree methods.now)) (state progress.old (K.written sink.old) (K.faults sink.old))
        (state progress.new (K.written sink.new) (K.faults sink.new)) }
{
    for next in methods {
        method(names, sink, progress, next);
    }
}

fn class<K: Sink>(names: &Names, sink: &mut K, progress: &mut Progress, class: &ClassDecl)
    requires { are_known names.now (class_tokens (class_tree class.now)) ≡ true }
    ensures { Prints names.now (class_tokens (class_tree class.now)) (state progress.old (K.written sink.old) (K.faults sink.old)) (state progress.new (K.written sink.new) (K.faults sink.new)) }
{
    say(names, sink, progress, Tok::Word(Keyword::Class));
    say(names, sink, progress, Tok::Name(class.name.name));
    variables(names, sink, progress, Keyword::Var, class.vars.items());
    methods(names, sink, progress, class.methods.items());
    say(names, sink, progress, Tok::Word(Keyword::Body));
    statements(names, sink, progress, class.body.items());
    say(names, sink, progress, Tok::Word(Keyword::End));
}

/// Writes classes.
pub fn classes<K: Sink>(names: &Names, sink: &mut K, progress: &mut Progress, classes: &[ClassDecl])
    requires { are_known names.now (program_tokens (map class_tree classes.now)) ≡ true }
    ensures { Prints names.now (program_tokens (map class_tree classes.now)) (state progress.old (K.written sink.old) (K.faults sink.old))
        (state progress.new (K.written sink.new) (K.faults sink.new)) }
{
    for next in classes {
        class(names, sink, progress, next);
    }
}
