//! What a table of moves knows.
ghost use Rattle.std.specs.Prelude.{◌≡◌, Some, None, true, false};

use crate::parts::Part;
use message_queue::Mail;
use run_types::{Args, Error, Item, NameId, Value};

/// A transition that one object makes alone, but no local one.
#[derive(Clone, Copy)]
pub enum Solo {
    Write(Item),
    /// The alternative, counted from 1.
    Pick(u32),
    Fault(Error),
}

/// A transition of a receiver and a caller. If `returned` is a value, it is the return of this value. Else it is the
/// answer to a call of this method with these arguments.
#[derive(Clone, Copy)]
pub struct Duo {
    pub returned: Option<Value>,
    pub method: NameId,
    pub args: Args,
}

impl Duo {
    /// The answer to a call of this method with these arguments.
    pub fn answer(method: NameId, args: Args) -> Duo
        ensures { (result.returned ≡ None) × (result.method ≡ method) × (result.args ≡ args) }
    {
        Duo {
            returned: None,
            method,
            args,
        }
    }

    /// The return of this value.
    pub fn give(value: Value) -> Duo
        ensures { result.returned ≡ Some value }
    {
        Duo {
            returned: Some(value),
            method: NameId(0),
            args: Args::make(),
        }
    }
}

/// A message that an object sends to another, or takes from it.
#[derive(Clone, Copy)]
pub struct Parcel {
    /// Whether the object takes it. Else it sends it.
    pub takes: bool,
    /// The receiver of a message that is sent, or the sender of one that is taken.
    pub other: u32,
    pub method: NameId,
    pub args: Args,
}

impl Parcel {
    /// The message to this receiver, as it is sent.
    pub fn to_receiver(receiver: u32, method: NameId, args: Args) -> Parcel
        ensures { (result.takes ≡ false) × (result.other ≡ receiver) × (result.method ≡ method) × (result.args ≡ args) }
    {
        Parcel {
            takes: false,
            other: receiver,
            method,
            args,
        }
    }

    /// The message of this sender, as it is taken.
    pub fn from_sender(sender: u32, method: NameId, args: Args) -> Parcel
        ensures { (result.takes ≡ true) × (result.other ≡ sender) × (result.method ≡ method) × (result.args ≡ args) }
    {
        Parcel {
            takes: true,
            other: sender,
            method,
            args,
        }
    }

    /// The message, apart from its sender and its receiver.
    pub fn mail(&self) -> Mail
        ensures { (result.method ≡ self.now.method) × (result.args ≡ self.now.args) }
    {
        Mail {
            method: self.method,
            args: self.args,
        }
    }
}

/// What a transition of one object leads to.
#[derive(Clone, Copy)]
pub enum One {
    /// It is not possible.
    Impossible,
    /// The object is then in the state with this number.
    To(u32),
}

/// What a transition of a receiver and a caller leads to, or one of an object and the new object that it makes.
#[derive(Clone, Copy)]
pub enum Two {
    /// It is not possible.
    Impossible,
    /// The first and the second are then in the states with these numbers.
    To(u32, u32),
}

/// What an object makes next after its local transitions.
#[derive(Clone, Copy)]
pub enum Next {
    /// It makes no transition that needs no choice.
    Nothing,
    /// It writes, or meets an error.
    Makes(Solo),
    /// It returns a value to this caller.
    Returns { caller: u32, value: Value },
    /// It sends the message with this number.
    Sends(u32),
}

/// The names of a receiver and a caller, and the numbers of their states.
#[derive(Clone, Copy)]
pub struct Pair {
    pub receiver: u32,
    pub serving: u32,
    pub caller: u32,
    pub asking: u32,
}

/// Where the part of the object of this name, in this state, leads.
#[derive(Clone, Copy)]
pub struct KnownEdge {
    pub object: u32,
    pub state: u32,
    pub part: Part,
    pub to: One,
}

/// The object of this name, in this state, makes an object of this class under the name `name`.
#[derive(Clone, Copy)]
pub struct Birth {
    pub object: u32,
    pub state: u32,
    pub name: u32,
    pub class: NameId,
}

/// The state of an object after its local transitions, how many they are, and what it makes next.
#[derive(Clone, Copy)]
pub struct KnownRest {
    pub object: u32,
    pub state: u32,
    pub steps: u32,
    pub to: u32,
    pub next: Next,
}

/// What a table of moves tells of a label in a row.
#[derive(Clone, Copy)]
pub enum Lead {
    /// It tells nothing.
    Unknown,
    /// The label is not possible.
    Impossible,
    /// The row is now the one after the label and some transitions that are followed.
    Made,
}
