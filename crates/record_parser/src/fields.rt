//! The parts of a text between separators.
ghost use Rattle.std.specs.Prelude.{◌≡◌, ◌<◌, length, IfSome};
ghost use Rattle.record_parser.specs.Fields.{fields, parts};
ghost use Rattle.record_parser.specs.TextParts.{AreFields, IsCut};

/// The first part of a text, and the rest after the separator. `rest` is None if there is no separator.
#[derive(Clone, Copy)]
pub struct Front<'a> {
    pub first: &'a [u8],
    pub rest: Option<&'a [u8]>,
}

/// Cuts a text at its first byte `separator`.
pub fn cut(separator: u8, text: &[u8]) -> Front<'_>
    ensures parts { IsCut separator (parts separator text.now) result }
    ensures shorter { IfSome result.rest (λ t. length t.now < length text.now) }
{
    let mut at = 0;
    while at < text.len() && text[at] != separator {
        at += 1;
    }
    if at == text.len() {
        return Front {
            first: text,
            rest: None,
        };
    }
    Front {
        first: &text[0..at],
        rest: Some(&text[at + 1..text.len()]),
    }
}

/// The words of a text. If there are more than three, the last text has all words after the third.
#[derive(Clone, Copy)]
pub enum FirstFields<'a> {
    One(&'a [u8]),
    Two(&'a [u8], &'a [u8]),
    Three(&'a [u8], &'a [u8], &'a [u8]),
    More(&'a [u8], &'a [u8], &'a [u8], &'a [u8]),
}

/// Splits a text into words at each space. An empty word counts.
pub fn first_fields(text: &[u8]) -> FirstFields<'_>
    ensures { AreFields (fields text.now) result }
{
    let one = cut(b' ', text);
    let Some(behind_one) = one.rest else {
        return FirstFields::One(one.first);
    };
    let two = cut(b' ', behind_one);
    let Some(behind_two) = two.rest else {
        return FirstFields::Two(one.first, two.first);
    };
    let three = cut(b' ', behind_two);
    match three.rest {
        None => FirstFields::Three(one.first, two.first, three.first),
        Some(rest) => FirstFields::More(one.first, two.first, three.first, rest),
    }
}
