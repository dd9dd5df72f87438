//! The language: tokens and trees of programs, and the definitions of tokens, class faults and written programs.
//!
//! Does not know: the grammar and the transition relation.
#![tactic(auto)]

mod token;
mod tree;

pub use token::{LexFault, Sign, Tok, Token};
pub use tree::{Alt, ClassDecl, Expr, Method, Named, Program, Stmt, Var};
