//! What a search keeps, and how much.
use visited_set::Keeps;

/// What a search keeps, and the largest number of configurations that it keeps.
#[derive(Clone, Copy)]
pub struct Scope {
    pub keeps: Keeps,
    pub most: u32,
}
