//! Parses a list of tokens: the one program that they form, or the first unexpected or too deep token.
//!
//! Does not know: what names mean.
#![tactic(auto)]

mod declarations;
mod nesting;
mod parser;
mod steps;
pub mod theorems;

pub use expression_parser::SyntaxFault;
pub use parser::parse;
