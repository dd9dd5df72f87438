//! Parsing of variables, methods, classes and the program.
ghost use Rattle.std.specs.Prelude.{◌≡◌, ◌+◌, ◌<◌, ◌≤◌, [], ◌++◌, length, map, ℕ, Some, IfOk, IfErr, slice_get, List as ListOf};
ghost use Rattle.pool_syntax.specs.declared.tree.Var.{Var as OneVariable};
ghost use Rattle.pool_grammar.specs.Rules.{more_vars, more_locals, params as params_phrase, more_params, param as param_phrase, method as method_phrase, more_methods, post as post_phrase};
ghost use Rattle.pool_grammar.specs.Rules.{class as class_phrase, more_classes};
ghost use Rattle.pool_grammar.specs.Grammar.{variables};
ghost use Rattle.pool_syntax.specs.TreeOf.{method_tree, class_tree, statements_of};
ghost use Rattle.expression_parser.specs.declared.fault.SyntaxFault.TheVariants.{Memory};
ghost use Rattle.pool_parser.specs.Tails.{proper_part, result_part, body_part};
ghost use Rattle.pool_parser.specs.Declarations.{ParsesDeclared, ParsesProgram};
ghost use Rattle.expression_parser.specs.Parses.{seen, Parses, ParsesRule, Advances, Stays};

use crate::steps::read;
use expression_parser::{
    Grouping, Source, SyntaxFault, expect, expect_name, grouped, is_at, kind, names, pushed,
};
use pool_syntax::{ClassDecl, Expr, Method, Named, Program, Sign, Stmt, Tok, Token, Var};
use run_types::{Kind, List};
use statement_parser::statements::statements;
use std::alloc::Global;
use text_scan::Keyword;

/// Appends a variable of this type for each name.
fn declare(
    mut vars: List<Var>,
    names: &[Named],
    kind: Kind,
    kind_pos: u32,
) -> Result<List<Var>, SyntaxFault>
    ensures ok { IfOk result (λ all. all ≡ vars ++ variables names.now (kind, kind_pos)) }
    ensures err { IfErr result (λ e. e ≡ Memory) }
{
    for name in names {
        let var = Var {
            name: name.name,
            kind,
            pos: name.pos,
            kind_pos,
        };
        vars = read!(pushed(vars, var));
    }
    Ok(vars)
}

/// Parses names, a colon and a type, and appends their variables.
fn declared(
    alloc: Global,
    source: Source,
    at: usize,
    vars: List<Var>,
) -> Result<(List<Var>, usize), SyntaxFault>
    requires within { at ≤ length source.tokens.now }
    ensures parses { ParsesDeclared source.entry.tokens.now vars at result }
    ensures next { Advances source.entry.tokens.now at result }
{
    let (names, next) = read!(names(alloc, source, at));
    read!(expect(source, next, Tok::Sign(Sign::Colon)));
    let ((kind, kind_pos), after) = read!(kind(source, next + 1));
    Ok((read!(declare(vars, names.items(), kind, kind_pos)), after))
}

/// Parses the variables of a class.
fn fields(alloc: Global, source: Source, at: usize) -> Result<(List<Var>, usize), SyntaxFault>
    requires within { at ≤ length source.tokens.now }
    ensures parses { Parses source.entry.tokens.now (more_vars []) at (λ vs. vs) result }
    ensures next { Stays source.entry.tokens.now at result }
{
    let mut vars = List::make(alloc);
    let mut next = at;
    'fields: while is_at(source, next, Tok::Word(Keyword::Var)) {
        let (all, after) = read!(declared(alloc, source, next + 1, vars));
        vars = all;
        next = after;
    }
    Ok((vars, next))
}

/// Parses the locals of a method.
fn locals(alloc: Global, source: Source, at: usize) -> Result<(List<Var>, usize), SyntaxFault>
    requires within { at ≤ length source.tokens.now }
    ensures parses { Parses source.entry.tokens.now (more_locals []) at (λ vs. vs) result }
    ensures next { Stays source.entry.tokens.now at result }
{
    let mut vars = List::make(alloc);
    let mut next = at;
    'locals: while is_at(source, next, Tok::Word(Keyword::Local)) {
        let (all, after) = read!(declared(alloc, source, next + 1, vars));
        vars = all;
        next = after;
    }
    Ok((vars, next))
}

/// Parses a parameter: a name, a colon and a type.
fn param(source: Source, at: usize) -> Result<(Var, usize), SyntaxFault>
    requires within { at ≤ length source.tokens.now }
    ensures parses { Parses source.entry.tokens.now param_phrase at (λ v. v) result }
    ensures next { Advances source.entry.tokens.now at result }
{
    let name = read!(expect_name(source, at));
    read!(expect(source, at + 1, Tok::Sign(Sign::Colon)));
    let ((kind, kind_pos), next) = read!(kind(source, at + 2));
    let var = Var {
        name: name.name,
        kind,
        pos: name.pos,
        kind_pos,
    };
    Ok((var, next))
}

/// Parses parameters in parentheses.
fn params(alloc: Global, source: Source, at: usize) -> Result<(List<Var>, usize), SyntaxFault>
    requires within { at ≤ length source.tokens.now }
    ensures parses { Parses source.entry.tokens.now params_phrase at (λ vs. vs) result }
    ensures next { Advances source.entry.tokens.now at result }
{
    read!(expect(source, at, Tok::Sign(Sign::LeftParen)));
    if is_at(source, at + 1, Tok::Sign(Sign::RightParen)) {
        return Ok((List::make(alloc), at + 2));
    }
    let (first, next) = read!(param(source, at + 1));
    let params = List::make(alloc);
    let params = read!(pushed(params, first));
    let (params, next) = read!(further_params(source, next, params));
    read!(expect(source, next, Tok::Sign(Sign::RightParen)));
    Ok((params, next + 1))
}

fn further_params(
    source: Source,
    at: usize,
    mut params: List<Var>,
) -> Result<(List<Var>, usize), SyntaxFault>
    requires within { at ≤ length source.tokens.now }
    ensures parses { Parses source.entry.tokens.now (more_params params) at (λ vs. vs) result }
    ensures next { Stays source.entry.tokens.now at result }
{
    let mut next = at;
    'params: while is_at(source, next, Tok::Sign(Sign::Comma)) {
        let (param, after) = read!(param(source, next + 1));
        params = read!(pushed(params, param));
        next = after;
    }
    Ok((params, next))
}

/// Parses a method, with or without a result.
fn method(alloc: Global, source: Source, at: usize) -> Result<(Method, usize), SyntaxFault>
    requires within { at ≤ length source.tokens.now }
    ensures parses { Parses source.entry.tokens.now method_phrase at method_tree result }
    ensures next { Advances source.entry.tokens.now at result }
{
    read!(expect(source, at, Tok::Word(Keyword::Method)));
    let name = read!(expect_name(source, at + 1));
    let (params, next) = read!(params(alloc, source, at + 2));
    if is_at(source, next, Tok::Sign(Sign::Colon)) {
        with_result(alloc, source, next, name, params)
    } else {
        without_result(alloc, source, next, name, params)
    }
}

/// Parses the post statements of a method, if it has any.
fn post(alloc: Global, source: Source, at: usize) -> Result<(List<Stmt>, usize), SyntaxFault>
    requires within { at ≤ length source.tokens.now }
    ensures parses { Parses source.entry.tokens.now post_phrase at statements_of result }
    ensures next { Stays source.entry.tokens.now at result }
{
    if !is_at(source, at, Tok::Word(Keyword::Post)) {
        return Ok((List::make(alloc), at));
    }
    statements(alloc, source, at + 1)
}

/// Parses the rest of a method without a result.
fn without_result(
    alloc: Global,
    source: Source,
    at: usize,
    name: Named,
    params: List<Var>,
) -> Result<(Method, usize), SyntaxFault>
    requires within { at ≤ length source.tokens.now }
    ensures parses { ParsesRule source.entry.tokens.now method_phrase (proper_part name params) at method_tree result }
    ensures next { Advances source.entry.tokens.now at result }
{
    let (locals, begin) = read!(locals(alloc, source, at));
    read!(expect(source, begin, Tok::Word(Keyword::Begin)));
    let (body, next) = read!(statements(alloc, source, begin + 1));
    let (post, end) = read!(post(alloc, source, next));
    read!(expect(source, end, Tok::Word(Keyword::End)));
    let method = Method {
        name,
        params,
        locals,
        result: None,
        result_pos: 0,
        body,
        value: Expr::Nil { pos: 0 },
        post,
    };
    Ok((method, end + 1))
}

/// Parses the rest of a method with a result.
fn with_result(
    alloc: Global,
    source: Source,
    at: usize,
    name: Named,
    params: List<Var>,
) -> Result<(Method, usize), SyntaxFault>
    requires colon { slice_get (seen source.tokens.now) at ≡ Some (Tok.Sign Sign.Colon) }
    requires within { at + 1 ≤ length source.tokens.now }
    ensures parses { ParsesRule source.entry.tokens.now method_phrase (result_part name params) at method_tree result }
    ensures next { Advances source.entry.tokens.now at result }
{
    let ((kind, kind_pos), next) = read!(kind(source, at + 1));
    let (locals, begin) = read!(locals(alloc, source, next));
    read!(expect(source, begin, Tok::Word(Keyword::Begin)));
    let (body, result) = read!(statements(alloc, source, begin + 1));
    read!(expect(source, result, Tok::Word(Keyword::Result)));
    let (value, next) = read!(grouped(alloc, source, result + 1, Grouping::Or));
    let (post, end) = read!(post(alloc, source, next), value);
    read!(expect(source, end, Tok::Word(Keyword::End)), value);
    let method = Method {
        name,
        params,
        locals,
        result: Some(kind),
        result_pos: kind_pos,
        body,
        value,
        post,
    };
    Ok((method, end + 1))
}

/// Parses the methods of a class.
fn methods(alloc: Global, source: Source, at: usize) -> Result<(List<Method>, usize), SyntaxFault>
    requires within { at ≤ length source.tokens.now }
    ensures parses { Parses source.entry.tokens.now (more_methods []) at (λ ms. map method_tree ms) result }
    ensures next { Stays source.entry.tokens.now at result }
{
    let mut methods = List::make(alloc);
    let mut next = at;
    'methods: while is_at(source, next, Tok::Word(Keyword::Method)) {
        let (method, after) = read!(method(alloc, source, next));
        methods = read!(pushed(methods, method));
        next = after;
    }
    Ok((methods, next))
}

fn class(alloc: Global, source: Source, at: usize) -> Result<(ClassDecl, usize), SyntaxFault>
    requires within { at ≤ length source.tokens.now }
    ensures parses { Parses source.entry.tokens.now class_phrase at class_tree result }
    ensures next { Advances source.entry.tokens.now at result }
{
    read!(expect(source, at, Tok::Word(Keyword::Class)));
    let name = read!(expect_name(source, at + 1));
    let (vars, next) = read!(fields(alloc, source, at + 2));
    let (methods, body) = read!(methods(alloc, source, next));
    class_body(alloc, source, body, name, vars, methods)
}

/// Parses the rest of a class, after its variables and methods.
fn class_body(
    alloc: Global,
    source: Source,
    at: usize,
    name: Named,
    vars: List<Var>,
    methods: List<Method>,
) -> Result<(ClassDecl, usize), SyntaxFault>
    requires within { at ≤ length source.tokens.now }
    ensures parses { ParsesRule source.entry.tokens.now class_phrase (body_part name vars (map method_tree methods)) at class_tree result }
    ensures next { Advances source.entry.tokens.now at result }
{
    read!(expect(source, at, Tok::Word(Keyword::Body)));
    let (body, end) = read!(statements(alloc, source, at + 1));
    read!(expect(source, end, Tok::Word(Keyword::End)));
    let class = ClassDecl {
        name,
        vars,
        methods,
        body,
    };
    Ok((class, end + 1))
}

fn further_classes(
    alloc: Global,
    source: Source,
    at: usize,
    mut classes: List<ClassDecl>,
) -> Result<(List<ClassDecl>, usize), SyntaxFault>
    requires within { at ≤ length source.tokens.now }
    ensures parses { Parses source.entry.tokens.now (more_classes (map class_tree classes)) at (λ cs. map class_tree cs) result }
    ensures next { Stays source.entry.tokens.now at result }
{
    let mut next = at;
    'classes: while is_at(source, next, Tok::Word(Keyword::Class)) {
        let (class, after) = read!(class(alloc, source, next));
        classes = read!(pushed(classes, class));
        next = after;
    }
    Ok((classes, next))
}

/// Parses the program that all tokens form, followed by `End`.
pub fn program(alloc: Global, source: Source) -> Result<Program, SyntaxFault>
    requires once { (i : ℕ) → slice_get (seen source.tokens.now) i ≡ Some Tok.End → i ≡ length source.tokens.now }
    ensures { ParsesProgram source.entry.tokens.now result }
{
    let (first, next) = read!(class(alloc, source, 0));
    let classes = List::make(alloc);
    let classes = read!(pushed(classes, first));
    let (classes, end) = read!(further_classes(alloc, source, next, classes));
    read!(expect(source, end, Tok::End));
    Ok(Program { classes })
}
