//! The plain data types of a run.

use crate::args::Args;
use crate::list::List;

/// The number of a text in the table of a program's names and strings: its index there.
#[derive(Clone, Copy, PartialEq, Eq)]
pub struct NameId(pub u32);

/// An operator of the language. `Neg` and `Not` are prefix operators, all others are infix.
#[derive(Clone, Copy)]
pub enum Op {
    Add,
    Sub,
    Mul,
    Div,
    Rem,
    Neg,
    Less,
    LessEq,
    More,
    MoreEq,
    Same,
    Differs,
    And,
    Or,
    Not,
}

/// A value of the language: a 64-bit integer, a truth value, the name of an object, or `nil`.
#[derive(Clone, Copy)]
pub enum Value {
    Int(i64),
    Bool(bool),
    Ref(u32),
    Nil,
}

/// For whom a method runs. `Own`: the object called itself. `Caller`: the object of this name called it, and the
/// request has this number. `Sender`: an asynchronous message, whose sender does not wait.
#[derive(Clone, Copy)]
pub enum Serves {
    Own,
    Caller { name: u32, number: u32 },
    Sender,
}

/// A run-time error of the language.
#[derive(Clone, Copy)]
pub enum Error {
    NilDestination,
    NilOperand,
    Overflow,
    ZeroDivisor,
    NoOpenGuard,
}

/// An item that `write` puts out: a value, or a string of the program.
#[derive(Clone, Copy)]
pub enum Item {
    Value(Value),
    Text(NameId),
}

/// The label of a transition. Objects are given by their names, classes and methods by the numbers of their texts.
#[derive(Clone, Copy)]
pub enum Label {
    Local {
        object: u32,
    },
    New {
        object: u32,
        name: u32,
        class: NameId,
    },
    Answer {
        receiver: u32,
        caller: u32,
        method: NameId,
        args: Args,
    },
    Return {
        receiver: u32,
        caller: u32,
        value: Value,
    },
    Send {
        object: u32,
        receiver: u32,
        method: NameId,
        args: Args,
    },
    Take {
        receiver: u32,
        sender: u32,
        method: NameId,
        args: Args,
    },
    Write {
        object: u32,
        item: Item,
    },
    Pick {
        object: u32,
        alt: u32,
    },
    Fault {
        object: u32,
        error: Error,
    },
}

/// The effect of an event, as its line of the record shows it. `Step` shows transitions, and `times` says how many.
/// `Idle` says that the event could do nothing. Every other effect is a delay, which shows no transition.
#[derive(Clone, Copy)]
pub enum What {
    Step {
        label: Label,
        times: u32,
    },
    PostCreate {
        object: u32,
        class: NameId,
        node: u32,
    },
    PostCall {
        object: u32,
        receiver: u32,
        method: NameId,
        args: Args,
    },
    Arrive {
        object: u32,
        receiver: u32,
        method: NameId,
    },
    Created {
        object: u32,
        name: u32,
    },
    Result {
        object: u32,
        value: Value,
    },
    Pass,
    Idle,
    /// A frame with this number was put on a wire, by a send or as a duplicate.
    Frame {
        number: u32,
    },
    /// A frame or an acknowledgement with this number was lost.
    Lost {
        number: u32,
    },
    /// A data frame with this number arrived and was dropped, since another number was due.
    Stale {
        number: u32,
    },
    /// An acknowledgement with this number arrived.
    Acked {
        number: u32,
    },
    /// A frame or an acknowledgement with this number became the last on its wire.
    Late {
        number: u32,
    },
}

/// An event on a wire other than the arrival of its first data frame. `Send` puts a data frame on the wire, and `Ack`
/// receives the first acknowledgement. The others lose, duplicate or delay the first data frame or acknowledgement.
#[derive(Clone, Copy)]
pub enum WireAct {
    Send,
    Ack,
    Lose,
    Twice,
    Late,
    LoseAck,
    TwiceAck,
    LateAck,
}

/// An event of a schedule: a turn of a node, a move on a link, or another event on a wire.
#[derive(Clone, Copy)]
pub enum Event {
    Turn { node: u32 },
    Link { from: u32, to: u32 },
    Wire { act: WireAct, from: u32, to: u32 },
}

/// The limit of a node that an event would exceed: objects, frames or cells.
#[derive(Clone, Copy)]
pub enum FullKind {
    Heap,
    Frames,
    Cells,
}

/// How a run ends, after `done` events: quiet, at the end of the schedule, or at a limit of a node.
#[derive(Clone, Copy)]
pub enum End {
    Quiet {
        done: u32,
    },
    Schedule {
        done: u32,
    },
    Full {
        kind: FullKind,
        node: u32,
        done: u32,
    },
}

/// A line of a record: an event with its number, counted from 1, or the end of the run.
#[derive(Clone, Copy)]
pub enum Line {
    Event {
        number: u32,
        event: Event,
        what: What,
    },
    End(End),
}

/// The status of an object. `Ready`: it can make a step. `Finished`: its body is done. `Faulted`: it met a run-time
/// error. `Calls`: it waits for its call of this method at `to`. `Creates`: it waits for its new object on this node.
/// `Due`: its value or the name of its new object is on a link. `Awaits`: it is at an answer or select that can
/// accept nothing.
#[derive(Clone, Copy)]
pub enum Standing {
    Ready,
    Finished,
    Faulted { error: Error },
    Calls { to: u32, method: NameId },
    Creates { class: NameId, node: u32 },
    Due,
    Awaits,
}

/// Where objects of a class are created: on one node, on the creator's node, or on the nodes in turn.
#[derive(Clone, Copy)]
pub enum Place {
    At(u32),
    Same,
    Spread,
}

/// A link, from a node to a neighbour.
#[derive(Clone, Copy)]
pub struct LinkId {
    pub from: u32,
    pub to: u32,
}

/// A line of a routing table: at the node `at`, a packet for the node `goal` goes to the neighbour `next`.
#[derive(Clone, Copy)]
pub struct Route {
    pub at: u32,
    pub goal: u32,
    pub next: u32,
}

/// The placement of a program on a mesh of `width` times `height` nodes. `objects`, `frames` and `cells` are the
/// limits of each node. `places` has an item for each class. `cuts` are the links of the mesh that are missing. A
/// packet without a route goes first along the row, then along the column.
#[derive(Drop)]
pub struct Placement {
    pub width: u32,
    pub height: u32,
    pub objects: u32,
    pub frames: u32,
    pub cells: u32,
    pub places: List<Place>,
    pub cuts: List<LinkId>,
    pub routes: List<Route>,
}

/// A declared type: of a variable, a parameter or a result.
#[derive(Clone, Copy)]
pub enum Kind {
    Int,
    Bool,
    Class(NameId),
}
