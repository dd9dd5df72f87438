//! What was read between two parentheses, from the right.
use crate::sign::Times;

/// What stands behind a place between two parentheses, as the numbers of patterns: how many times the part before it comes,
/// the parts of its series, the series after the next `&`, and the alternatives after the next `|`.
#[derive(Clone, Copy)]
pub struct Level {
    pub times: Times,
    pub series: u32,
    pub beside: u32,
    pub others: u32,
}

/// What was read of the signs of a pattern: the level of the place, and those around it, the next one last.
#[derive(Drop)]
pub struct Reader {
    pub here: Level,
    pub around: Vec<Level>,
}
