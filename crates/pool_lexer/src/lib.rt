//! Splits a program's text into tokens with a table of names, or reports the first fault.
//!
//! Does not know: the grammar.
#![tactic(auto)]

mod lexer;
mod piece;
mod spelling;
mod table;
mod token;

pub use lexer::tokens;
pub use pool_syntax::{LexFault, Sign, Tok, Token};
pub use table::Tokens;
pub use text_scan::Keyword;
