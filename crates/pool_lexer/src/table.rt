//! The result of the lexer.
use pool_syntax::Token;
use run_types::{List, Names};

/// The tokens of a text with their positions, and the table of the texts of its names and strings. The last token is
/// `End`.
#[derive(Drop)]
pub struct Tokens {
    pub names: Names,
    pub list: List<Token>,
}
