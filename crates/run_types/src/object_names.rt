//! Names of objects: 65,536 times the number of the node, plus the number of the slot.
ghost use Rattle.std.specs.Prelude.{◌≡◌, ◌+◌, ◌*◌, ◌<◌};
ghost use Rattle.run_types.specs.ObjectNames.{node_of, slot_of};

/// Reports the node in an object's name.
#[inline(always)]
pub fn node_of(name: u32) -> u32
    ensures node { result ≡ node_of name }
    ensures few { result < 65536 }
{
    name / 65536
}

/// Reports the slot in an object's name.
#[inline(always)]
pub fn slot_of(name: u32) -> u32
    ensures slot { result ≡ slot_of name }
    ensures few { result < 65536 }
{
    name % 65536
}

/// Reports the name of the object in a slot of a node. Both numbers are below 65,536.
#[inline(always)]
pub fn object_name(node: u32, slot: u32) -> u32
    requires node { node < 65536 }
    requires slot { slot < 65536 }
    ensures { result ≡ node * 65536 + slot }
{
    node * 65536 + slot
}
