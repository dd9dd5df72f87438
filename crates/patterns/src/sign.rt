//! The signs of the text of a pattern.
use run_types::Item;

/// A sign of the text of a pattern.
#[derive(Clone, Copy)]
pub enum Sign {
    Item(Item),
    Dot,
    Star,
    Plus,
    Question,
    Bar,
    Ampersand,
    Open,
    Close,
}

/// How many times a part comes.
#[derive(Clone, Copy)]
pub enum Times {
    Once,
    Any,
    Some,
    Maybe,
}
