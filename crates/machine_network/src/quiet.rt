//! The test whether nodes and the network between them are quiet.
ghost use Rattle.std.specs.Prelude.{◌≡◌, None, true, map};
ghost use Rattle.run_types.specs.Tables.{no_entry_empty};
ghost use Rattle.run_types.specs.declared.types.What.TheVariants as W;
ghost use Rattle.mesh_of_code.specs.Coded.{coded};
ghost use Rattle.node_semantics.specs.Machine.{any_ready, is_machine_quiet};
ghost use Rattle.machine_network.specs.MachineOn.{AreOfUnit, machine_on};
ghost use Rattle.machine_network.specs.LinkWires.{wires_in};

use crate::types::Network;
use crate::wires::is_acknowledged;
use code_semantics::Unit;
use pool_node::Node;
use run_types::What;

/// Reports whether an object of some node can step.
fn can_step(unit: &Unit, nodes: &[Node]) -> bool
    requires { AreOfUnit unit.now nodes.now }
    ensures { result ≡ any_ready (coded unit.now) 0 (map (λ n. n.state) nodes.now) }
{
    for node in nodes {
        if node.is_ready(unit) {
            return true;
        }
    }
    false
}

/// Reports whether all links are empty, every packet that a wire handed out is acknowledged, and no object can step.
/// Requires nodes of the unit, numbered from 0.
pub fn is_quiet_now(unit: &Unit, nodes: &[Node], network: &Network) -> bool
    requires units { AreOfUnit unit.now nodes.now }
    requires filled { no_entry_empty network.now.links.links ≡ true }
    ensures { result ≡ is_machine_quiet (coded unit.now) (machine_on nodes.now network.now.links.links (wires_in network.now.wires)) }
{
    network.links.is_empty() && is_acknowledged(&network.wires) && !can_step(unit, nodes)
}

/// Reports whether the machine is quiet after an event with this line. `before` is the answer before the event: without
/// wires an idle event changes nothing. Over wires it searches again. Requires nodes of the unit, numbered from 0.
pub fn quiet_after(
    unit: &Unit,
    nodes: &[Node],
    network: &Network,
    what: &What,
    before: bool,
) -> bool
    requires units { AreOfUnit unit.now nodes.now }
    requires filled { no_entry_empty network.now.links.links ≡ true }
    ensures { (wires_in network.now.wires ≡ None → what.now ≡ W.Idle → before ≡ is_machine_quiet (coded unit.now) (machine_on nodes.now network.now.links.links (wires_in network.now.wires)))
        → result ≡ is_machine_quiet (coded unit.now) (machine_on nodes.now network.now.links.links (wires_in network.now.wires)) }
{
    match network.wires {
        Some(_) => is_quiet_now(unit, nodes, network),
        None => match *what {
            What::Idle => before,
            _ => is_quiet_now(unit, nodes, network),
        },
    }
}
