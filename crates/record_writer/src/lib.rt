//! Writes the lines of a record: each in one piece without allocating memory, or appended to a text.
//!
//! Does not know: where a line comes from.
#![tactic(auto)]

mod asked;
mod label_texts;
mod labels;
mod line_texts;
mod parts;
mod text;
mod words;
mod write;

pub use asked::{asker, asker_of, is_asked, poster};
pub use label_texts::{push_about, push_label, push_message, push_pair};
pub use line_texts::{push_effect, push_end, push_line, push_written};
pub use words::{
    push_args, push_count, push_error, push_item, push_name, push_number, push_object,
    push_object_name, push_value, push_word, text_of,
};
pub use write::{write_event2, write_form, write_item, write_line, write_line2};
