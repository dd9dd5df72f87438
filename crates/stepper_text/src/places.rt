//! The text around the part of an expression that is under evaluation.
ghost use Rattle.std.specs.Prelude.{◌≡◌, ◌++◌, [], ◌∷◌, OnOk};
ghost use Rattle.pool_printer.specs.Canonical.{left_need, operator_level, right_need};
ghost use Rattle.stepper_text.specs.Around.{after, afters, before, befores, closed, done_arguments, nested_level, opened, operand_text, place_level};

use pool_printer::{left_need, operator_level, right_need};
use record_writer::{push_name, push_value, push_word};
use run_types::Names;
use std::alloc::AllocError;
use stepper_terms::contexts::{ExpressionContext, Operand};
use term_text::{push_call, push_enclosed, push_more_arguments, push_operator};

/// Appends an evaluated value.
pub fn push_operand(text: &mut Vec<u8>, operand: &Operand) -> Result<(), AllocError>
    ensures { OnOk result (text.new.items ≡ text.old.items ++ operand_text operand.now) }
{
    push_value(text, operand.value)
}

/// Appends the parenthesis before a part of this level, if the place requires a higher one.
pub fn push_opened(text: &mut Vec<u8>, need: u8, level: u8) -> Result<(), AllocError>
    ensures { OnOk result (text.new.items ≡ text.old.items ++ opened need level) }
{
    if need <= level {
        Ok(())
    } else {
        push_word(text, b"(")
    }
}

/// Appends the parenthesis after it.
pub fn push_closed(text: &mut Vec<u8>, need: u8, level: u8) -> Result<(), AllocError>
    ensures { OnOk result (text.new.items ≡ text.old.items ++ closed need level) }
{
    if need <= level {
        Ok(())
    } else {
        push_word(text, b")")
    }
}

/// Appends evaluated arguments, a comma after each.
pub fn push_done(text: &mut Vec<u8>, done: &[Operand]) -> Result<(), AllocError>
    ensures { OnOk result (text.new.items ≡ text.old.items ++ done_arguments done.now) }
{
    for operand in done {
        put!(push_operand(text, operand));
        put!(push_word(text, b","));
    }
    Ok(())
}

/// Appends the text before a part of this level.
fn push_before(
    text: &mut Vec<u8>,
    names: &Names,
    place: &ExpressionContext<'_>,
    level: u8,
) -> Result<(), AllocError>
    ensures { OnOk result (text.new.items ≡ text.old.items ++ before names.now place.now level) }
{
    match place {
        ExpressionContext::Prefix { op, .. } => {
            put!(push_operator(text, *op));
            push_opened(text, 6, level)
        }
        ExpressionContext::Left { op, .. } => push_opened(text, left_need(*op), level),
        ExpressionContext::Right { op, left, .. } => {
            put!(push_operand(text, left));
            put!(push_operator(text, *op));
            push_opened(text, right_need(*op), level)
        }
        ExpressionContext::CallArgument { method, done, .. } => {
            put!(push_name(text, names, *method));
            put!(push_word(text, b"("));
            push_done(text, done.as_slice())
        }
        ExpressionContext::Destination { .. } => push_opened(text, 7, level),
        ExpressionContext::SendArgument {
            to,
            method,
            done,
            ..
        } => {
            put!(push_operand(text, to));
            put!(push_word(text, b"!"));
            put!(push_name(text, names, *method));
            put!(push_word(text, b"("));
            push_done(text, done.as_slice())
        }
    }
}

/// Appends the text after it.
fn push_after(
    text: &mut Vec<u8>,
    names: &Names,
    place: &ExpressionContext<'_>,
    level: u8,
) -> Result<(), AllocError>
    ensures { OnOk result (text.new.items ≡ text.old.items ++ after names.now place.now level) }
{
    match place {
        ExpressionContext::Prefix { .. } => push_closed(text, 6, level),
        ExpressionContext::Left { op, right, .. } => {
            put!(push_closed(text, left_need(*op), level));
            put!(push_operator(text, *op));
            push_enclosed(text, names, right_need(*op), right)
        }
        ExpressionContext::Right { op, .. } => push_closed(text, right_need(*op), level),
        ExpressionContext::CallArgument { rest, .. } => {
            put!(push_more_arguments(text, names, rest));
            push_word(text, b")")
        }
        ExpressionContext::Destination { method, args, .. } => {
            put!(push_closed(text, 7, level));
            put!(push_word(text, b"!"));
            push_call(text, names, *method, args)
        }
        ExpressionContext::SendArgument { rest, .. } => {
            put!(push_more_arguments(text, names, rest));
            push_word(text, b")")
        }
    }
}

/// The level of an expression with a part in this context.
fn place_level(place: &ExpressionContext<'_>) -> u8
    ensures { result ≡ place_level place.now }
{
    match place {
        ExpressionContext::Prefix { .. } => 6,
        ExpressionContext::Left { op, .. } => operator_level(*op),
        ExpressionContext::Right { op, .. } => operator_level(*op),
        ExpressionContext::CallArgument { .. } => 8,
        ExpressionContext::Destination { .. } => 7,
        ExpressionContext::SendArgument { .. } => 7,
    }
}

/// The level of the whole expression, for a part of this level in these contexts.
pub fn nested_level(places: &[ExpressionContext<'_>], level: u8) -> u8
    ensures { result ≡ nested_level places.now level }
{
    match places.first() {
        None => level,
        Some(place) => place_level(place),
    }
}

/// Appends the text before a part of this level in all of these contexts.
pub fn push_befores(
    text: &mut Vec<u8>,
    names: &Names,
    places: &[ExpressionContext<'_>],
    level: u8,
) -> Result<(), AllocError>
    ensures { OnOk result (text.new.items ≡ text.old.items ++ befores names.now places.now level) }
{
    for i in 0..places.len() {
        put!(push_before(
            text,
            names,
            &places[i],
            nested_level(&places[i + 1..], level),
        ));
    }
    Ok(())
}

/// Appends the text after it in all of them.
pub fn push_afters(
    text: &mut Vec<u8>,
    names: &Names,
    places: &[ExpressionContext<'_>],
    level: u8,
) -> Result<(), AllocError>
    ensures { OnOk result (text.new.items ≡ text.old.items ++ afters names.now places.now level) }
{
    for i in (0..places.len()).rev() {
        put!(push_after(
            text,
            names,
            &places[i],
            nested_level(&places[i + 1..], level),
        ));
    }
    Ok(())
}
