//! The machine.
ghost use Rattle.std.specs.Prelude.{◌≡◌, ◌<◌, ◌≤◌, ◌-◌, ◌*◌, ◌^◌, [], is_some, IfOk};
ghost use Rattle.std.specs.Option.{option_map};
ghost use Rattle.std.specs.List.{list_any};
ghost use Rattle.code_semantics.specs.Proper.{IsProper};
ghost use Rattle.code_semantics.specs.Suits.{Suits};
ghost use Rattle.mesh_semantics.specs.Config.{Config};
ghost use Rattle.mesh_semantics.specs.Delay.{Delay};
ghost use Rattle.mesh_semantics.specs.Act.{act, is_quiet, object_count};
ghost use Rattle.mesh_semantics.specs.Record.{last_place, root_node};
ghost use Rattle.mesh_of_code.specs.Coded.{Placed, coded};
ghost use Rattle.mesh_routing.specs.Links.{links_of};
ghost use Rattle.pool_node.specs.Standings.{told_standing};
ghost use Rattle.machine_network.specs.LinkWires.{wires_in};
ghost use Rattle.pool_machine.specs.AnswerOf.{answer_of, answer_seen};
ghost use Rattle.pool_machine.specs.MachineInvariant.{AreEmpty};
ghost use Rattle.pool_machine.specs.OnWires.{AreMade};
ghost use Rattle.pool_machine.specs.Answers.{IsOfMesh, IsOutcome, IsServed, IsStart, MachineRepresents, class_at, standing_at};

use crate::counts::{moved_by, shown_by};
use crate::report::{class_in, has_faulted, standing_in};
use crate::step::step;
use crate::types::{EventOutcome, OpenFault, Outcome, Plan};
use code_semantics::Unit;
use machine_network::{Network, all_wires, is_quiet_now, quiet_after};
use mesh_routing::{Links, Mesh};
use pool_node::{Node, StepOutput};
use run_types::{Event, Line, NameId, Place, Placement, Standing};
use std::alloc::{AllocError, Global};
use std::marker::Model;
use table_routing::Table;

/// The machine of a unit on the nodes of a placement, with the links between them. Contracts speak of every sound
/// configuration of code, with its delay, that the machine represents. Only `make` and `on_table` allocate.
#[derive(Drop)]
pub struct Machine<'a> {
    plan: Plan<'a>,
    mesh: Mesh,
    nodes: Vec<Node>,
    network: Network,
    // Whether the machine is quiet, so that an idle event need not search all nodes and links again.
    quiet: bool,
    done: u32,
    moves: u64,
    transitions: u64,
}

impl<'a> Model for Machine<'a> {
    ghost use Rattle.run_types.specs.contracts.frames.CodeObject as image;
    ghost use Rattle.code_semantics.specs.contracts.unit.Unit as unit_of;
    ghost use Rattle.run_types.specs.contracts.types.Placement as placement_of;
    ghost use Rattle.run_types.specs.contracts.types.Error as error;
    ghost use Rattle.run_types.specs.contracts.types.Value as value;
    ghost use Rattle.rendezvous_protocol.specs.contracts.packet.Packet as packet;
    ghost use Rattle.node_state.specs.contracts.long.LongAnswer as long_answer;
    ghost use Rattle.node_state.specs.NodeOf.{node_code};
    ghost use Rattle.pool_machine.specs.MachineOf.{MachineOf, machine_code};

    ghost Value = { MachineOf };

    ghost coded = { machine_code unit_of.the_row.coded placement_of.the_row.coded (node_code image.the_row.coded error.the_row.coded value.the_row.coded long_answer.the_row.coded) packet.the_row.coded };

    ghost use Rattle.pool_machine.specs.MachineInvariant.{MachineInvariant, machine_view};

    ghost view = { machine_view };

    ghost invariant = { MachineInvariant };
}

/// Makes all nodes of a mesh, without objects.
fn all_nodes(alloc: Global, unit: &Unit, placement: &Placement) -> Result<Vec<Node>, AllocError>
    requires proper { IsProper unit.now }
    requires suits { Suits placement.now unit.now }
    ensures { IfOk result (λ nodes. AreEmpty unit.now placement.now (placement.now.width * placement.now.height) nodes.items) }
{
    let mut nodes = Vec::new(alloc);
    for id in 0..placement.width * placement.height {
        nodes.push(Node::make(alloc, unit, placement, id)?)?;
    }
    Ok(nodes)
}

/// Makes the links of a mesh without packets, and if `lossy` is true a wire for each. An error means out of memory.
fn empty_network(alloc: Global, mesh: &Mesh, cells: u32, lossy: bool) -> Result<Network, AllocError>
    ensures links { IfOk result (λ n. n.links ≡ links_of mesh.now.width mesh.now.height cells []) }
    ensures wires { IfOk result (λ n. AreMade mesh.now.width (mesh.now.width * mesh.now.height) lossy (wires_in n.wires)) }
{
    let Ok(links) = Links::make(alloc, mesh, cells) else {
        return Err(AllocError);
    };
    if !lossy {
        return Ok(Network { links, wires: None });
    }
    let Ok(wires) = all_wires(alloc, mesh) else {
        return Err(AllocError);
    };
    Ok(Network {
        links,
        wires: Some(wires),
    })
}

/// The node of this place, or node 0 if the place has no node.
fn node_of_place(place: &Place) -> u32
    ensures { result ≡ root_node (Some place.now) }
{
    match *place {
        Place::At(node) => node,
        Place::Same | Place::Spread => 0,
    }
}

/// The node of the root object: the place of the last class, or node 0 if that has no node.
fn root_of(places: &[Place]) -> u32
    ensures { result ≡ root_node (last_place places.now) }
{
    match places.last() {
        Some(place) => node_of_place(place),
        None => 0,
    }
}

impl<'a> Machine<'a> {
    /// Makes a machine with its root object, and allocates all memory of a run. Requires a proper unit that fits the
    /// placement. If `lossy` is true, each link is a wire that may lose, repeat and reorder frames. Returns `Memory` if
    /// memory runs out.
    pub fn make(
        alloc: Global,
        unit: &'a Unit,
        placement: &'a Placement,
        lossy: bool,
    ) -> Result<Machine<'a>, OpenFault>
        requires proper { IsProper unit.now }
        requires suits { Suits placement.now unit.now }
        ensures { IfOk result (λ m. IsStart unit.now placement.now lossy m) }
    {
        match Table::make(alloc, placement) {
            Ok(table) => Machine::on_table(alloc, unit, table, lossy),
            Err(_) => Err(OpenFault::Memory),
        }
    }

    /// Makes a machine as `make` does, for the placement of a routing table and with its routes. Requires a proper unit
    /// that fits the placement. Returns `Memory` if memory runs out.
    pub fn on_table(
        alloc: Global,
        unit: &'a Unit,
        table: Table<'a>,
        lossy: bool,
    ) -> Result<Machine<'a>, OpenFault>
        requires proper { IsProper unit.now }
        requires suits { Suits table unit.now }
        ensures { IfOk result (λ m. IsStart unit.now table.entry lossy m) }
    {
        let placement = table.placement();
        let mesh = Mesh::make(placement.width, placement.height);
        let mut nodes = match all_nodes(alloc, unit, placement) {
            Ok(nodes) => nodes,
            Err(_) => return Err(OpenFault::Memory),
        };
        let network = match empty_network(alloc, &mesh, placement.cells, lossy) {
            Ok(network) => network,
            Err(_) => return Err(OpenFault::Memory),
        };
        let root = root_of(placement.places.items());
        nodes[root as usize].start_root(unit);
        let quiet = is_quiet_now(unit, nodes.as_slice(), &network);
        let plan = Plan {
            unit,
            placement,
            table,
        };
        Ok(Machine {
            plan,
            mesh,
            nodes,
            network,
            quiet,
            done: 0,
            moves: 0,
            transitions: 0,
        })
    }

    /// `event_into` with a buffer of its own.
    pub fn event(&mut self, event: Event, quantum: u32) -> Outcome
        requires mesh { IsOfMesh self.old.placement event }
        requires served { IsServed (is_some self.old.wires) event }
        requires quantum { (1 ≤ quantum) × (quantum ≤ 10000) }
        requires few { self.old.done < 2 ^ 32 - 1 }
        ensures { (c : Config Placed) (d : Delay) → MachineRepresents self.old c d
            → IsOutcome event self.old (answer_seen result) self.new (act (coded self.old.unit) self.old.placement quantum c d event) }
    {
        let mut room = StepOutput::make();
        match self.event_into(event, quantum, &mut room) {
            EventOutcome::Line { number } => {
                let what = room.what;
                Outcome::Line(Line::Event {
                    number,
                    event,
                    what,
                })
            }
            EventOutcome::Full { kind, node } => Outcome::Full { kind, node },
        }
    }

    /// Makes an event: a turn of a node, a move of the head of a link, or another event on a wire. A turn makes up to
    /// `quantum` local transitions. Requires a node or a link of the placement, and a lossy machine for an event on a
    /// wire. Requires a quantum of 1 to 10000, and fewer than 2^32 - 1 events so far. Returns `Full` exactly if the
    /// step would exceed a limit of a node. The machine is then unchanged. The content of the line goes into the buffer
    /// `room`.
    pub fn event_into(&mut self, event: Event, quantum: u32, room: &mut StepOutput) -> EventOutcome
        requires mesh { IsOfMesh self.old.placement event }
        requires served { IsServed (is_some self.old.wires) event }
        requires quantum { (1 ≤ quantum) × (quantum ≤ 10000) }
        requires few { self.old.done < 2 ^ 32 - 1 }
        ensures { (c : Config Placed) (d : Delay) → MachineRepresents self.old c d
            → IsOutcome event self.old (answer_of result event room.new.what) self.new (act (coded self.old.unit) self.old.placement quantum c d event) }
    {
        let did = step(
            &self.plan,
            self.nodes.as_mut_slice(),
            &mut self.network,
            &event,
            quantum,
            room,
        );
        match did {
            Err(limit) => EventOutcome::Full {
                kind: limit.kind,
                node: limit.node,
            },
            Ok(()) => {
                self.done += 1;
                self.moves += moved_by(&event, &room.what);
                self.transitions += shown_by(&room.what);
                self.quiet = quiet_after(
                    self.plan.unit,
                    self.nodes.as_slice(),
                    &self.network,
                    &room.what,
                    self.quiet,
                );
                EventOutcome::Line { number: self.done }
            }
        }
    }

    /// Reports whether the machine is quiet: all links are empty, every packet that a wire handed out is acknowledged,
    /// and no object is ready.
    pub fn is_quiet(&self) -> bool
        ensures { (c : Config Placed) (d : Delay) → MachineRepresents self.now c d → result ≡ is_quiet (coded self.now.unit) c d }
    {
        self.quiet
    }

    /// The number of events so far.
    pub fn done(&self) -> u32
        ensures { result ≡ self.now.done }
    {
        self.done
    }

    /// The number of events that moved a packet off a link.
    pub fn moves(&self) -> u64
        ensures { result ≡ self.now.moves }
    {
        self.moves
    }

    /// The number of transitions that the events made.
    pub fn transitions(&self) -> u64
        ensures { result ≡ self.now.transitions }
    {
        self.transitions
    }

    /// Reports whether an object has met a run-time error.
    pub fn any_faulted(&self) -> bool
        ensures { (c : Config Placed) (d : Delay) → MachineRepresents self.now c d → result ≡ list_any (λ e. is_some e.1.fault) c.objects }
    {
        has_faulted(self.nodes.as_slice())
    }

    /// The number of objects of a node, at most 4096. Requires a node of the mesh.
    pub fn objects_of(&self, node: u32) -> u32
        requires { node < self.now.placement.width * self.now.placement.height }
        ensures count { (c : Config Placed) (d : Delay) → MachineRepresents self.now c d → result ≡ object_count c node }
        ensures few { result ≤ 4096 }
    {
        self.nodes[node as usize].objects()
    }

    /// The status of the object of this name. None exactly if no object has the name.
    pub fn status_of(&self, name: u32) -> Option<Standing>
        ensures { (c : Config Placed) (d : Delay) → MachineRepresents self.now c d → option_map told_standing result ≡ standing_at self.now.unit c d name }
    {
        standing_in(
            self.plan.unit,
            self.plan.placement,
            &self.mesh,
            self.nodes.as_slice(),
            &self.network.links,
            name,
        )
    }

    /// The class of the object of this name. None exactly if no object has the name.
    pub fn class_of(&self, name: u32) -> Option<NameId>
        ensures { (c : Config Placed) (d : Delay) → MachineRepresents self.now c d → option_map (λ k. k.0) result ≡ class_at self.now.unit c name }
    {
        class_in(self.plan.unit, self.nodes.as_slice(), name)
    }
}
