//! A configuration as numbers of object states and of lists of messages.
ghost use Rattle.std.specs.Prelude.{◌≡◌};
ghost use Rattle.flat_lists.specs.Units.{numbers_of};
ghost use Rattle.visited_set.specs.Rows.{row_of, stored_row};

/// The messages from one sender to one receiver, the oldest first, as the number of their list.
#[derive(Clone, Copy)]
pub struct Queue {
    pub sender: u32,
    pub receiver: u32,
    pub mails: u32,
}

/// A configuration, the next free name, and the number of what was written. `objects` has the number of each object's
/// state, in the order of the names 0, 1, 2, .. `queues` are in the order of their senders and receivers.
#[derive(Clone, Copy)]
pub struct Numbered<'b> {
    pub next: u32,
    pub written: u32,
    pub objects: &'b [u32],
    pub queues: &'b [Queue],
}

/// A configuration of the set: the same, but the numbers of the objects' states are in units of 16 bits.
#[derive(Clone, Copy)]
pub struct Stored<'b> {
    pub next: u32,
    pub written: u32,
    pub objects: &'b [u16],
    pub queues: &'b [Queue],
}

impl<'b> Stored<'b> {
    /// The configuration, of which these are the numbers of the objects' states.
    pub fn with(&self, objects: &'b [u32]) -> Numbered<'b>
        requires { objects.now ≡ numbers_of self.now.objects.now }
        ensures { row_of result ≡ stored_row self.now }
    {
        Numbered {
            next: self.next,
            written: self.written,
            objects,
            queues: self.queues,
        }
    }
}
