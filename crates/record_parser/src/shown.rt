//! Parses the content of a line.
ghost use Rattle.std.specs.Prelude.{◌≡◌, None, option_map};
ghost use Rattle.record_parser.specs.Fields.{fields, values_within};
ghost use Rattle.record_parser.specs.TextParts.{parts_left};
ghost use Rattle.record_parser.specs.Shown.{arrive_of, created_of, delay_of, fault_of, frame_of, only_count, create_of, item_for, item_of, local_of, making, message_from, message_of, new_of, once};
ghost use Rattle.record_parser.specs.Shown.{pick_of, post_by, post_of, result_of, return_of, shown_by, step_of, what_of, write_of};
ghost use Rattle.record_parser.specs.ReadView.{shown};

use crate::fields::{FirstFields, cut, first_fields};
use crate::spelled::{begins_with, count, error, name, object, positive, string, value};
use run_types::{Args, Item, Label, NameId, What};

/// The parsed content of a line. It has 0 as the number of its name. `text` is the text of the name, if the line has
/// one.
#[derive(Clone, Copy)]
pub struct Read<'a> {
    pub what: What,
    pub text: Option<&'a [u8]>,
}

/// The kinds of messages.
#[derive(Clone, Copy)]
pub enum Message {
    Answer,
    Send,
    Take,
    PostCall,
}

/// The number 0, used instead of the number of a name.
const NO_NUMBER: NameId = NameId(0);

/// Parses at most 8 values, one for each word.
fn args_in(rest: Option<&[u8]>) -> Option<Args>
    ensures { result ≡ values_within 8 (parts_left 32 (option_map (λ t. t.now) rest.entry)) }
{
    let mut args = Args::make();
    let mut left = rest;
    while let Some(text) = left {
        if args.len() == 8 {
            return None;
        }
        let next = cut(b' ', text);
        let value = value(next.first)?;
        args.add(value);
        left = next.rest;
    }
    Some(args)
}

fn one_step<'a>(label: Label, text: Option<&'a [u8]>) -> Read<'a>
    ensures { shown result ≡ record { what = once label; text = option_map (λ t. t.now) text.entry } }
{
    Read {
        what: What::Step { label, times: 1 },
        text,
    }
}

fn local_in(words: &[u8]) -> Option<Read<'_>>
    ensures { option_map shown result ≡ local_of (fields words.now) }
{
    let FirstFields::Two(one, two) = first_fields(words) else {
        return None;
    };
    let object = object(one)?;
    let times = positive(two)?;
    Some(Read {
        what: What::Step {
            label: Label::Local { object },
            times,
        },
        text: None,
    })
}

fn new_in(words: &[u8]) -> Option<Read<'_>>
    ensures { option_map shown result ≡ new_of (fields words.now) }
{
    let FirstFields::Three(one, two, three) = first_fields(words) else {
        return None;
    };
    let maker = object(one)?;
    let made = object(two)?;
    let class = name(three)?;
    let label = Label::New {
        object: maker,
        name: made,
        class: NO_NUMBER,
    };
    Some(one_step(label, Some(class)))
}

fn return_in(words: &[u8]) -> Option<Read<'_>>
    ensures { option_map shown result ≡ return_of (fields words.now) }
{
    let FirstFields::Three(one, two, three) = first_fields(words) else {
        return None;
    };
    let receiver = object(one)?;
    let caller = object(two)?;
    let value = value(three)?;
    let label = Label::Return {
        receiver,
        caller,
        value,
    };
    Some(one_step(label, None))
}

fn pick_in(words: &[u8]) -> Option<Read<'_>>
    ensures { option_map shown result ≡ pick_of (fields words.now) }
{
    let FirstFields::Two(one, two) = first_fields(words) else {
        return None;
    };
    let object = object(one)?;
    let alt = positive(two)?;
    Some(one_step(Label::Pick { object, alt }, None))
}

fn fault_in(words: &[u8]) -> Option<Read<'_>>
    ensures { option_map shown result ≡ fault_of (fields words.now) }
{
    let FirstFields::Two(one, two) = first_fields(words) else {
        return None;
    };
    let object = object(one)?;
    let error = error(two)?;
    Some(one_step(Label::Fault { object, error }, None))
}

fn arrive_in(words: &[u8]) -> Option<Read<'_>>
    ensures { option_map shown result ≡ arrive_of (fields words.now) }
{
    let FirstFields::Three(one, two, three) = first_fields(words) else {
        return None;
    };
    let sender = object(one)?;
    let receiver = object(two)?;
    let method = name(three)?;
    Some(Read {
        what: What::Arrive {
            object: sender,
            receiver,
            method: NO_NUMBER,
        },
        text: Some(method),
    })
}

fn created_in(words: &[u8]) -> Option<Read<'_>>
    ensures { option_map shown result ≡ created_of (fields words.now) }
{
    let FirstFields::Two(one, two) = first_fields(words) else {
        return None;
    };
    let maker = object(one)?;
    let made = object(two)?;
    Some(Read {
        what: What::Created {
            object: maker,
            name: made,
        },
        text: None,
    })
}

fn result_in(words: &[u8]) -> Option<Read<'_>>
    ensures { option_map shown result ≡ result_of (fields words.now) }
{
    let FirstFields::Two(one, two) = first_fields(words) else {
        return None;
    };
    let object = object(one)?;
    let value = value(two)?;
    Some(Read {
        what: What::Result { object, value },
        text: None,
    })
}

fn message_what(kind: Message, one: u32, other: u32, args: Args) -> What
    ensures { result ≡ making kind one other args }
{
    let method = NO_NUMBER;
    let label = match kind {
        Message::Answer => Label::Answer {
            receiver: one,
            caller: other,
            method,
            args,
        },
        Message::Send => Label::Send {
            object: one,
            receiver: other,
            method,
            args,
        },
        Message::Take => Label::Take {
            receiver: one,
            sender: other,
            method,
            args,
        },
        Message::PostCall => {
            return What::PostCall {
                object: one,
                receiver: other,
                method,
                args,
            };
        }
    };
    What::Step { label, times: 1 }
}

fn message_from<'a>(
    kind: Message,
    one: &[u8],
    two: &[u8],
    three: &'a [u8],
    rest: Option<&[u8]>,
) -> Option<Read<'a>>
    ensures { option_map shown result ≡ message_from kind one.now two.now three.now (parts_left 32 (option_map (λ t. t.now) rest.entry)) }
{
    let first = object(one)?;
    let second = object(two)?;
    let method = name(three)?;
    let args = args_in(rest)?;
    Some(Read {
        what: message_what(kind, first, second, args),
        text: Some(method),
    })
}

fn message_in(kind: Message, words: &[u8]) -> Option<Read<'_>>
    ensures { option_map shown result ≡ message_of kind (fields words.now) }
{
    match first_fields(words) {
        FirstFields::One(_) => None,
        FirstFields::Two(_, _) => None,
        FirstFields::Three(one, two, three) => message_from(kind, one, two, three, None),
        FirstFields::More(one, two, three, rest) => message_from(kind, one, two, three, Some(rest)),
    }
}

fn item_in(object: u32, words: &[u8]) -> Option<Read<'_>>
    ensures { option_map shown result ≡ item_of object words.now }
{
    if begins_with(b'"', words) {
        let text = string(words)?;
        let label = Label::Write {
            object,
            item: Item::Text(NO_NUMBER),
        };
        return Some(one_step(label, Some(text)));
    }
    let value = value(words)?;
    let label = Label::Write {
        object,
        item: Item::Value(value),
    };
    Some(one_step(label, None))
}

fn write_in(words: &[u8]) -> Option<Read<'_>>
    ensures { option_map shown result ≡ write_of (fields words.now) }
{
    let next = cut(b' ', words);
    let writer = object(next.first)?;
    let left = next.rest?;
    item_in(writer, left)
}

fn create_in(words: &[u8]) -> Option<Read<'_>>
    ensures { option_map shown result ≡ create_of (fields words.now) }
{
    let FirstFields::Three(one, two, three) = first_fields(words) else {
        return None;
    };
    let maker = object(one)?;
    let class = name(two)?;
    let node = count(three)?;
    Some(Read {
        what: What::PostCreate {
            object: maker,
            class: NO_NUMBER,
            node,
        },
        text: Some(class),
    })
}

fn post_by<'a>(word: &[u8], words: &'a [u8]) -> Option<Read<'a>>
    ensures { option_map shown result ≡ post_by word.now (fields words.now) }
{
    if word == b"call".as_slice() {
        return message_in(Message::PostCall, words);
    }
    if word == b"create".as_slice() {
        return create_in(words);
    }
    None
}

fn post_in(words: &[u8]) -> Option<Read<'_>>
    ensures { option_map shown result ≡ post_of (fields words.now) }
{
    let next = cut(b' ', words);
    let left = next.rest?;
    post_by(next.first, left)
}

fn step_in<'a>(word: &[u8], words: &'a [u8]) -> Option<Read<'a>>
    ensures { option_map shown result ≡ step_of word.now (fields words.now) }
{
    if word == b"local".as_slice() {
        return local_in(words);
    }
    if word == b"new".as_slice() {
        return new_in(words);
    }
    if word == b"answer".as_slice() {
        return message_in(Message::Answer, words);
    }
    if word == b"return".as_slice() {
        return return_in(words);
    }
    if word == b"send".as_slice() {
        return message_in(Message::Send, words);
    }
    if word == b"take".as_slice() {
        return message_in(Message::Take, words);
    }
    if word == b"write".as_slice() {
        return write_in(words);
    }
    if word == b"pick".as_slice() {
        return pick_in(words);
    }
    if word == b"fault".as_slice() {
        return fault_in(words);
    }
    None
}

/// Parses a count, which must be the only word.
fn only_count(words: &[u8]) -> Option<u32>
    ensures { result ≡ only_count (fields words.now) }
{
    match first_fields(words) {
        FirstFields::One(one) => count(one),
        FirstFields::Two(_, _) => None,
        FirstFields::Three(_, _, _) => None,
        FirstFields::More(_, _, _, _) => None,
    }
}

/// Parses the content of a line about a frame: `frame`, `lost`, `stale`, `acked` or `late`.
fn frame_in(word: &[u8], words: &[u8]) -> Option<Read<'static>>
    ensures { option_map shown result ≡ frame_of word.now (fields words.now) }
{
    if word == b"frame".as_slice() {
        let number = only_count(words)?;
        return Some(alone(What::Frame { number }));
    }
    if word == b"lost".as_slice() {
        let number = only_count(words)?;
        return Some(alone(What::Lost { number }));
    }
    if word == b"stale".as_slice() {
        let number = only_count(words)?;
        return Some(alone(What::Stale { number }));
    }
    if word == b"acked".as_slice() {
        let number = only_count(words)?;
        return Some(alone(What::Acked { number }));
    }
    if word == b"late".as_slice() {
        let number = only_count(words)?;
        return Some(alone(What::Late { number }));
    }
    None
}

fn delay_in<'a>(word: &[u8], words: &'a [u8]) -> Option<Read<'a>>
    ensures { option_map shown result ≡ delay_of word.now (fields words.now) }
{
    if word == b"post".as_slice() {
        return post_in(words);
    }
    if word == b"arrive".as_slice() {
        return arrive_in(words);
    }
    if word == b"created".as_slice() {
        return created_in(words);
    }
    if word == b"result".as_slice() {
        return result_in(words);
    }
    frame_in(word, words)
}

fn shown_by<'a>(word: &[u8], words: &'a [u8]) -> Option<Read<'a>>
    ensures { option_map shown result ≡ shown_by word.now (fields words.now) }
{
    match step_in(word, words) {
        Some(read) => Some(read),
        None => delay_in(word, words),
    }
}

fn alone(what: What) -> Read<'static>
    ensures { shown result ≡ record { what = what; text = None } }
{
    Read { what, text: None }
}

/// Parses the words after the event of a line. None exactly if they are no content of a line.
pub fn what_in(words: &[u8]) -> Option<Read<'_>>
    ensures { option_map shown result ≡ what_of (fields words.now) }
{
    let next = cut(b' ', words);
    if let Some(left) = next.rest {
        return shown_by(next.first, left);
    }
    if next.first == b"pass".as_slice() {
        return Some(alone(What::Pass));
    }
    if next.first == b"idle".as_slice() {
        return Some(alone(What::Idle));
    }
    None
}
