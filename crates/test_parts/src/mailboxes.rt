//! Tests of a mailbox of few cells, worked out by hand.
ghost use Rattle.std.specs.Prelude.{◌≡◌, ◌≤◌, length};

use mailbox::{Mailbox, Message};
use run_types::{Args, List, NameId, Value};

// A call of a mailbox with its result: a message is stored, or comes back; the
// first one with a name is taken from this place; or no message has a name.
#[derive(Clone, Copy)]
enum Step {
    Put,
    Back,
    Taken(usize),
    Nothing,
}

// A step, the slot, the message by its sender, its method and its call, and the number of messages after the step.
type Row = (Step, u32, u32, u32, Option<u32>, u32);

const ROWS: &[Row] = &[
    (Step::Put, 1, 10, 7, None, 1),
    (Step::Put, 1, 11, 9, Some(3), 2),
    (Step::Put, 1, 12, 8, None, 3),
    (Step::Put, 0, 13, 8, Some(4), 4),
    (Step::Back, 1, 14, 8, None, 4),
    (Step::Taken(1), 1, 11, 9, Some(3), 3),
    (Step::Put, 1, 14, 8, None, 4),
    (Step::Taken(1), 1, 12, 8, None, 3),
    (Step::Taken(1), 1, 14, 8, None, 2),
    (Step::Nothing, 1, 0, 0, None, 2),
    (Step::Taken(0), 0, 13, 8, Some(4), 1),
];

// Each message of this test has one argument, 7.
fn is_same(left: &Message, right: &Message) -> bool {
    let head = left.from == right.from && left.method.0 == right.method.0;
    head && left.call == right.call && matches!(left.args.values(), [Value::Int(7)])
}

/// Whether the mailbox answers as a row says.
fn is_answered(mailbox: &mut Mailbox, names: &List<NameId>, row: &Row) -> bool
    requires { 2 ≤ length mailbox.old.boxes }
    ensures { length mailbox.new.boxes ≡ length mailbox.old.boxes }
{
    let (step, slot, from, method, call, _) = *row;
    let method = NameId(method);
    let to = slot % 2;
    let mut args = Args::make();
    args.add(Value::Int(7));
    let message = Message {
        from,
        method,
        args,
        call,
    };
    match step {
        Step::Put => mailbox.post(to, message).is_ok(),
        Step::Back => match mailbox.post(to, message) {
            Ok(()) => false,
            Err(back) => is_same(&back, &message),
        },
        Step::Taken(place) => match mailbox.first(to, names) {
            Some(at) => is_same(&mailbox.take(to, at), &message) & (at == place),
            None => false,
        },
        Step::Nothing => mailbox.first(to, names).is_none(),
    }
}

/// Whether the mailbox answers as each row says, and has the right number of messages after each.
fn are_answered(mailbox: &mut Mailbox, names: &List<NameId>, rows: &[Row]) -> bool
    requires { 2 ≤ length mailbox.old.boxes }
{
    let mut each = true;
    for row in rows {
        each &= is_answered(mailbox, names, row) & (mailbox.count() == row.5);
    }
    each
}

#[test]
fn the_first_with_a_name_is_taken_out_of_the_middle(rt: HostRuntime) {
    let mut names = List::make(rt.alloc());
    let _ = names.push(NameId(8));
    let _ = names.push(NameId(9));
    let each = match Mailbox::make(rt.alloc(), 2, 4) {
        Ok(mut mailbox) => are_answered(&mut mailbox, &names, ROWS),
        Err(_) => false,
    };
    assert!(rt; each);
}
