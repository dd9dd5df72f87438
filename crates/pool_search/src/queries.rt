//! Queries of a search, and their results.
use label_list::LabelList;
use run_types::NameId;
use std::alloc::Global;

/// The kind of run that a search looks for.
#[derive(Clone, Copy)]
pub enum Target {
    /// A run that gets stuck.
    Stuck,
    /// A run that meets a run-time error.
    Fault,
    /// A run of either kind.
    Both,
}

/// A query: the kind of run, and the bounds of the search.
#[derive(Clone, Copy)]
pub struct Query {
    pub wanted: Target,
    /// Whether a run also counts as stuck if an object waits at `answer` or `select`, or a message was not accepted.
    pub all: bool,
    /// The largest number of configurations that the search keeps.
    pub most: u32,
}

/// An object and its class.
#[derive(Clone, Copy)]
pub struct Member {
    pub object: u32,
    pub class: NameId,
}

/// An object, and the number of messages to it that were not accepted.
#[derive(Clone, Copy)]
pub struct Mailbox {
    pub owner: Member,
    pub messages: usize,
}

/// Why a search does not know the answer.
#[derive(Clone, Copy)]
pub enum Cause {
    /// More configurations would be kept than the bound on their number. The fullest mailbox of the last one, if an
    /// object has messages in it.
    Bound(Option<Mailbox>),
    /// 1,000,000 transitions that need no choice followed one another. The object that made the last one.
    Transitions(Member),
    /// Another limit of the search: no number of 32 bits is left, or a run that was found could not be repeated.
    Limit,
}

/// The result of a search.
#[derive(Drop)]
pub enum SearchResult {
    /// The labels of a run that gets stuck where no label is possible. They begin at the start, and the first object
    /// has the name 0.
    Stuck(LabelList),
    /// The labels of a run, in the same form, and the dead objects after it. There is at least one. Other objects can
    /// go on.
    Dead { labels: LabelList, names: Vec<u32> },
    /// The labels of a run that meets a run-time error, in the same form.
    Fault(LabelList),
    /// There is no such run. The number of configurations that the search kept.
    Finite(u32),
    /// Unknown. The number of configurations that the search kept, but at most `most`, and why it ended.
    Over { kept: u32, cause: Cause },
}
