//! Parses the names, declared types, answer lists and expressions of a list of tokens.
//!
//! Does not know: statements, declarations, and what names mean.
#![tactic(auto)]

mod expressions;
mod fault;
mod naming;
mod source;
mod steps;

pub use expressions::{Grouping, PostfixTree, arguments, grouped, postfix};
pub use fault::SyntaxFault;
pub use naming::{answer_list, kind, names};
pub use source::{Source, expect, expect_name, is_at, peek};
pub use steps::pushed;
