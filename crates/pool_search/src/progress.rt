//! What is told of a search while it runs.

/// Is told how far a search is.
pub trait Progress {
    /// `kept` is the number of configurations that the search has kept, and `tried` is the number of those whose labels
    /// it has tried. The loop of a search calls this once for each entry that it visits, before it visits the entry.
    fn note(&mut self, kept: u32, tried: u32);
}
