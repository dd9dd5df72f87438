//! The text of a statement around the part that is under evaluation.
ghost use Rattle.std.specs.Prelude.{◌≡◌, ◌++◌, OnOk};
ghost use Rattle.stepper_text.specs.Contents.{slot_after, slot_before};

use crate::places::{push_closed, push_done, push_opened, push_operand};
use crate::redex::{push_again, push_guards};
use record_writer::{push_name, push_word};
use run_types::Names;
use std::alloc::AllocError;
use stepper_terms::contexts::StatementContext;
use term_text::{
    push_alternatives, push_answer, push_call, push_else, push_more_arguments, push_statements,
};

/// Appends the text of the statement before its expression of this level.
pub fn push_slot_before(
    text: &mut Vec<u8>,
    names: &Names,
    slot: &StatementContext<'_>,
    level: u8,
) -> Result<(), AllocError>
    ensures { OnOk result (text.new.items ≡ text.old.items ++ slot_before names.now slot.now level) }
{
    match slot {
        StatementContext::Assign { target } => {
            put!(push_name(text, names, target.name));
            push_word(text, b":=")
        }
        StatementContext::Write => push_word(text, b"write"),
        StatementContext::Do => Ok(()),
        StatementContext::Destination { .. } => push_opened(text, 7, level),
        StatementContext::Argument {
            to,
            method,
            done,
            ..
        } => {
            put!(push_operand(text, to));
            put!(push_word(text, b"!!"));
            put!(push_name(text, names, method.name));
            put!(push_word(text, b"("));
            push_done(text, done.as_slice())
        }
        StatementContext::If { .. } => push_word(text, b"if"),
        StatementContext::Loop { .. } => push_word(text, b"if"),
        StatementContext::Guard { done, .. } => {
            put!(push_word(text, b"select"));
            put!(push_guards(text, names, done.as_slice()));
            push_word(text, b"when")
        }
        StatementContext::Value => Ok(()),
    }
}

/// Appends the text after it, to the statement's end.
pub fn push_slot_after(
    text: &mut Vec<u8>,
    names: &Names,
    slot: &StatementContext<'_>,
    level: u8,
) -> Result<(), AllocError>
    ensures { OnOk result (text.new.items ≡ text.old.items ++ slot_after names.now slot.now level) }
{
    match slot {
        StatementContext::Assign { .. } => Ok(()),
        StatementContext::Write => Ok(()),
        StatementContext::Do => Ok(()),
        StatementContext::Destination { method, args } => {
            put!(push_closed(text, 7, level));
            put!(push_word(text, b"!!"));
            push_call(text, names, method.name, args)
        }
        StatementContext::Argument { rest, .. } => {
            put!(push_more_arguments(text, names, rest));
            push_word(text, b")")
        }
        StatementContext::If { yes, no } => {
            put!(push_word(text, b"then"));
            put!(push_statements(text, names, yes));
            put!(push_else(text, names, no));
            push_word(text, b"fi")
        }
        StatementContext::Loop { cond, body } => {
            put!(push_word(text, b"then"));
            put!(push_again(text, names, cond, body));
            push_word(text, b"fi")
        }
        StatementContext::Guard { at, rest, .. } => {
            put!(push_answer(text, names, &at.answer));
            put!(push_word(text, b"then"));
            put!(push_statements(text, names, at.work.items()));
            put!(push_alternatives(text, names, rest));
            push_word(text, b"end")
        }
        StatementContext::Value => Ok(()),
    }
}
