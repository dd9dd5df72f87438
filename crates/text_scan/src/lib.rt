//! Lines, words, byte sets, decimals and keywords of texts.
//!
//! Does not know: the grammar of programs and the line forms of inputs and records.
#![tactic(auto)]

mod content_lines;
mod keywords;
mod lines;
mod scan;
mod spans;
mod spelling;

pub use content_lines::{
    ContentLine, UpToFour, count_lines, next_content_line, number, split_up_to_four,
};
pub use keywords::Keyword;
pub use lines::{decimal, next_line, next_word};
pub use scan::{ByteSet, all_in, is_word, run_end};
pub use spans::{Decimal, LineAt, WordAt};
pub use spelling::keyword;
