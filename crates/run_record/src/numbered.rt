//! Lines with the numbers of their names in the table.
ghost use Rattle.std.specs.Prelude.{◌≡◌, ◌+◌, ◌<◌, ◌≤◌, ◌^◌, length, IfOk, OnErr, OnOk};
ghost use Rattle.run_record.specs.Numbered.{item_with, label_with, line_with, numbered, what_with, with_name};
ghost use Rattle.run_types.specs.Table.{name_of};
ghost use Rattle.record_parser.specs.ReadLineView.{told};

use record_parser::ReadLine;
use run_types::{Item, Label, Line, NameId, Names, What};
use std::alloc::AllocError;

fn item_with(id: NameId, item: Item) -> Item
    ensures { result ≡ item_with id item }
{
    match item {
        Item::Value(value) => Item::Value(value),
        Item::Text(_) => Item::Text(id),
    }
}

fn label_with(id: NameId, label: &Label) -> Label
    ensures { result ≡ label_with id label.now }
{
    match label {
        Label::New { object, name, .. } => Label::New {
            object: *object,
            name: *name,
            class: id,
        },
        Label::Answer {
            receiver,
            caller,
            args,
            ..
        } => Label::Answer {
            receiver: *receiver,
            caller: *caller,
            method: id,
            args: *args,
        },
        Label::Send {
            object,
            receiver,
            args,
            ..
        } => Label::Send {
            object: *object,
            receiver: *receiver,
            method: id,
            args: *args,
        },
        Label::Take {
            receiver,
            sender,
            args,
            ..
        } => Label::Take {
            receiver: *receiver,
            sender: *sender,
            method: id,
            args: *args,
        },
        Label::Write { object, item } => Label::Write {
            object: *object,
            item: item_with(id, *item),
        },
        other => *other,
    }
}

fn what_with(id: NameId, what: &What) -> What
    ensures { result ≡ what_with id what.now }
{
    match what {
        What::Step { label, times } => What::Step {
            label: label_with(id, label),
            times: *times,
        },
        What::PostCreate { object, node, .. } => What::PostCreate {
            object: *object,
            class: id,
            node: *node,
        },
        What::PostCall {
            object,
            receiver,
            args,
            ..
        } => What::PostCall {
            object: *object,
            receiver: *receiver,
            method: id,
            args: *args,
        },
        What::Arrive {
            object,
            receiver,
            ..
        } => What::Arrive {
            object: *object,
            receiver: *receiver,
            method: id,
        },
        other => *other,
    }
}

fn line_with(id: NameId, line: &Line) -> Line
    ensures { result ≡ line_with id line.now }
{
    match line {
        Line::Event {
            number,
            event,
            what,
        } => Line::Event {
            number: *number,
            event: *event,
            what: what_with(id, what),
        },
        Line::End(end) => Line::End(*end),
    }
}

/// The number of a text in the table, or the number of texts if the table does not have it.
fn number_in(names: &Names, text: &[u8]) -> NameId
    requires { length names.now < 2 ^ 32 }
    ensures { result.0 ≡ name_of names.now text.now }
{
    match names.find(text) {
        Some(id) => id,
        None => NameId(names.count() as u32),
    }
}

/// The line with the number of its name in the table. A name that is not in the table has the number of its names.
pub fn numbered_in(names: &Names, read: &ReadLine<'_>) -> Line
    requires { length names.now < 2 ^ 32 }
    ensures { result ≡ numbered names.now (told read.now) }
{
    match read.text {
        None => read.line,
        Some(text) => line_with(number_in(names, text), &read.line),
    }
}

/// The line with the number of its name in the table. A new name is appended to the table. Returns `Err`, and leaves
/// the table unchanged, if memory runs out.
pub fn numbered(names: &mut Names, read: &ReadLine<'_>) -> Result<Line, AllocError>
    requires { length names.old < 2 ^ 32 }
    ensures line { IfOk result (λ l. l ≡ numbered names.old (told read.now)) }
    ensures names { OnOk result (names.new ≡ with_name names.old (told read.now).text) }
    ensures few { OnOk result (length names.new ≤ length names.old + 1) }
    ensures err { OnErr result (names.new ≡ names.old) }
{
    match read.text {
        None => Ok(read.line),
        Some(text) => {
            let id = names.add(text)?;
            Ok(line_with(id, &read.line))
        }
    }
}
