//! Positions of lines and words in a text, and the value of a decimal word.

/// The position of a line: its bytes are those from `start` to `end`, and the next line begins at `next`.
#[derive(Clone, Copy)]
pub struct LineAt {
    pub start: usize,
    pub end: usize,
    pub next: usize,
}

/// The position of a word: its bytes are those from `start` to `end`.
#[derive(Clone, Copy)]
pub struct WordAt {
    pub start: usize,
    pub end: usize,
}

/// The value of a word of digits: `Value` below 2^63, else `TooLarge`. `NotDigits` is any other word.
#[derive(Clone, Copy)]
pub enum Decimal {
    NotDigits,
    TooLarge,
    Value(u64),
}
