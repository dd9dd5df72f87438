//! What one object does in a transition.
ghost use Rattle.std.specs.Prelude.{◌≡◌, [], None, Some, true};
ghost use Rattle.object_moves.specs.Roles.{asking_role, mail_role, serving_role, solo_role};

use crate::equality::{same_error, same_item, same_values};
use crate::hashes::{hash_value, hash_values};
use crate::known::{Duo, Parcel, Solo};
use operators::same;
use run_types::{Args, Error, Item, NameId, Value};
use std::hash::{FoldHasher, Hasher};

/// What one object does in a transition, apart from the arguments of a message.
#[derive(Clone, Copy)]
pub enum Role {
    /// It makes a local transition.
    Goes,
    Writes(Item),
    /// It picks the alternative of this number, counted from 1.
    Picks(u32),
    /// It meets the error.
    Fails(Error),
    /// It sends the receiver a message for this method.
    Sends { receiver: u32, method: NameId },
    /// Its call of this method is answered.
    Calls { receiver: u32, method: NameId },
    /// It begins to serve the method, for a caller that waits or for none.
    Serves { method: NameId, caller: Option<u32> },
    /// It returns the value to the caller.
    Returns { caller: u32, value: Value },
    /// The receiver for which it waits returns the value.
    Gets { receiver: u32, value: Value },
    /// It makes an object of the class under this name.
    Makes { class: NameId, name: u32 },
}

/// What one object does in a transition. The arguments are those of the message that it sends, calls with or serves.
#[derive(Clone, Copy)]
pub struct Part {
    pub role: Role,
    pub args: Args,
}

impl Part {
    /// A part without arguments.
    pub fn bare(role: Role) -> Part
        ensures { (result.role ≡ role) × (result.args ≡ []) }
    {
        Part {
            role,
            args: Args::make(),
        }
    }

    /// The part of an object in a transition that it makes alone.
    pub fn alone(act: Solo) -> Part
        ensures { result.role ≡ solo_role act }
    {
        match act {
            Solo::Write(item) => Part::bare(Role::Writes(item)),
            Solo::Pick(alt) => Part::bare(Role::Picks(alt)),
            Solo::Fault(error) => Part::bare(Role::Fails(error)),
        }
    }

    /// The part of an object that sends or takes this message.
    pub fn mail(act: &Parcel) -> Part
        ensures { (result.role ≡ mail_role act.now act.now.takes) × (result.args ≡ act.now.args) }
    {
        let method = act.method;
        let role = if act.takes {
            Role::Serves {
                method,
                caller: None,
            }
        } else {
            Role::Sends {
                receiver: act.other,
                method,
            }
        };
        Part {
            role,
            args: act.args,
        }
    }

    /// The part of the caller in an answer or a return of the receiver.
    pub fn asking(receiver: u32, act: &Duo) -> Part
        ensures { (result.role ≡ asking_role receiver act.now act.now.returned) × (result.args ≡ act.now.args) }
    {
        let role = match act.returned {
            None => Role::Calls {
                receiver,
                method: act.method,
            },
            Some(value) => Role::Gets { receiver, value },
        };
        Part {
            role,
            args: act.args,
        }
    }

    /// The part of the receiver in an answer or a return to the caller.
    pub fn serving(caller: u32, act: &Duo) -> Part
        ensures { (result.role ≡ serving_role caller act.now act.now.returned) × (result.args ≡ act.now.args) }
    {
        let role = match act.returned {
            None => Role::Serves {
                method: act.method,
                caller: Some(caller),
            },
            Some(value) => Role::Returns { caller, value },
        };
        Part {
            role,
            args: act.args,
        }
    }
}

fn same_caller(left: Option<u32>, right: Option<u32>) -> bool
    ensures { result ≡ true → left ≡ right }
{
    match (left, right) {
        (None, None) => true,
        (Some(caller), Some(other)) => caller == other,
        _ => false,
    }
}

/// Whether two roles are the same.
#[tactic(auto, using(run_types::proofs::Laws::same_value))]
fn same_role(left: Role, right: Role) -> bool
    ensures { result ≡ true → left ≡ right }
{
    match left {
        Role::Goes => matches!(right, Role::Goes),
        Role::Writes(item) => match right {
            Role::Writes(other) => same_item(item, other),
            _ => false,
        },
        Role::Picks(alt) => match right {
            Role::Picks(other) => alt == other,
            _ => false,
        },
        Role::Fails(error) => match right {
            Role::Fails(other) => same_error(error, other),
            _ => false,
        },
        Role::Sends { receiver, method } => match right {
            Role::Sends {
                receiver: other,
                method: name,
            } => receiver == other && method.0 == name.0,
            _ => false,
        },
        Role::Calls { receiver, method } => match right {
            Role::Calls {
                receiver: other,
                method: name,
            } => receiver == other && method.0 == name.0,
            _ => false,
        },
        Role::Serves { method, caller } => match right {
            Role::Serves {
                method: name,
                caller: other,
            } => method.0 == name.0 && same_caller(caller, other),
            _ => false,
        },
        Role::Returns { caller, value } => match right {
            Role::Returns {
                caller: other,
                value: given,
            } => caller == other && same(value, given),
            _ => false,
        },
        Role::Gets { receiver, value } => match right {
            Role::Gets {
                receiver: other,
                value: given,
            } => receiver == other && same(value, given),
            _ => false,
        },
        Role::Makes { class, name } => match right {
            Role::Makes {
                class: made,
                name: other,
            } => class.0 == made.0 && name == other,
            _ => false,
        },
    }
}

/// Whether two parts are the same.
pub fn same_part(left: &Part, right: &Part) -> bool
    ensures { result ≡ true → left.now ≡ right.now }
{
    same_role(left.role, right.role) && same_values(left.args.values(), right.args.values())
}

/// Adds to a hash what the state of the object does not determine of its part. No proof depends on it.
fn hash_part(part: &Part, hash: &mut FoldHasher) {
    match part.role {
        Role::Picks(alt) => hash.write_u32(alt),
        Role::Gets { value, .. } => hash_value(value, hash),
        Role::Makes { name, .. } => hash.write_u32(name),
        Role::Serves { method, caller } => {
            hash.write_u32(method.0);
            hash.write_u32(caller.unwrap_or(u32::MAX));
            hash_values(part.args.values(), hash);
        }
        _ => {}
    }
}

/// The hash of the part of an object in a state. No proof depends on it.
pub fn edge_hash(object: u32, state: u32, part: &Part) -> u64 {
    let mut hash = FoldHasher::default();
    hash.write_u32(object);
    hash.write_u32(state);
    hash_part(part, &mut hash);
    hash.finish()
}

/// The hash of an object with the number of its state. No proof depends on it.
pub fn rest_hash(object: u32, state: u32) -> u64 {
    u64::from(object) << 32 | u64::from(state)
}
