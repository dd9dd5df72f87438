//! The answers of the interpreter.
use run_types::{Args, Error, Item, NameId, Value};

/// The request of an object whose current instruction makes no local transition. It requests a new object of the class
/// with this index in the unit, a call, an asynchronous message, or a write. `Answer` and `Select` wait for a message
/// or a choice. `Return` gives a value to the caller whose request has this number. `Fault` is a run-time error.
/// `Halted`: the body is over.
#[derive(Clone, Copy)]
pub enum Need {
    New {
        class: u32,
    },
    Send {
        to: u32,
        method: NameId,
        args: Args,
    },
    Async {
        to: u32,
        method: NameId,
        args: Args,
    },
    Write {
        item: Item,
    },
    Answer,
    Select,
    Return {
        caller: u32,
        number: u32,
        value: Value,
    },
    Fault {
        error: Error,
    },
    Halted,
}

/// The next action of an object: a local transition, or a request.
#[derive(Clone, Copy)]
pub enum Hand {
    Local,
    At(Need),
}

/// The outcome of a burst: `steps` local transitions; none, since the current instruction makes none; or none, since it
/// is a call and no frame is free.
#[derive(Clone, Copy)]
pub enum Burst {
    Local { steps: u32 },
    At(Need),
    FramesFull,
}
