//! The station.
ghost use Rattle.std.specs.Prelude.{◌≡◌, ◌<◌, ◌≤◌, ◌+◌, ◌*◌, Some, IfOk, IsTrue, ◌↔◌, is_some, slice_get};
ghost use Rattle.code_semantics.specs.Proper.{IsProper};
ghost use Rattle.code_semantics.specs.Suits.{Suits};
ghost use Rattle.run_types.specs.Paths.{IsLink};
ghost use Rattle.mesh_semantics.specs.Act.{first_of};
ghost use Rattle.mesh_of_code.specs.Coded.{Placed, coded};
ghost use Rattle.node_semantics.specs.Machine.{Machine, machine_start};
ghost use Rattle.node_semantics.specs.Node.{ready_slots};
ghost use Rattle.station_semantics.specs.AllQuiet.{entered};
ghost use Rattle.station_semantics.specs.Station.{count_at, heard, sent_again};
ghost use Rattle.station_semantics.specs.Whole.{apart};
ghost use Rattle.node_station.specs.Outcomes.{Comes, IsOfSameRun, Turns, frame_with};
ghost use Rattle.node_station.specs.StationOf.{station_of};

use crate::arrival::data_of;
use crate::ends::{hear, packet_in};
use crate::making::parts_of;
use crate::outcome::{StationFault, StationOutcome};
use crate::parts::StationParts;
use crate::turning::turn_of;
use code_semantics::Unit;
use pool_node::StepOutput;
use rendezvous_protocol::Packet;
use std::alloc::{AllocError, Global};
use std::marker::Model;
use table_routing::Table;

/// A station: a node of a placed program by itself, with its own ends of the links. Only `make` allocates.
#[derive(Drop)]
pub struct Station<'a> {
    parts: StationParts<'a>,
}

impl<'a> Model for Station<'a> {
    ghost use Rattle.run_types.specs.contracts.frames.CodeObject as image;
    ghost use Rattle.code_semantics.specs.contracts.unit.Unit as unit_of;
    ghost use Rattle.run_types.specs.contracts.types.Placement as placement_of;
    ghost use Rattle.run_types.specs.contracts.types.Error as error;
    ghost use Rattle.run_types.specs.contracts.types.Value as value;
    ghost use Rattle.rendezvous_protocol.specs.contracts.packet.Packet as packet;
    ghost use Rattle.node_state.specs.contracts.long.LongAnswer as long_answer;
    ghost use Rattle.node_state.specs.NodeOf.{node_code};
    ghost use Rattle.node_station.specs.StationOf.{StationOf, station_code};

    ghost Value = { StationOf };

    ghost coded = { station_code unit_of.the_row.coded placement_of.the_row.coded (node_code image.the_row.coded error.the_row.coded value.the_row.coded long_answer.the_row.coded) packet.the_row.coded };

    ghost use Rattle.node_station.specs.Parts.{IsStation, view_of};

    ghost view = { λ s. view_of s.parts };

    ghost invariant = { λ s. IsStation s.parts };
}

impl<'a> Station<'a> {
    /// Makes the station of a node at the start of a run, with the root object if that is created here, and allocates
    /// all memory of the run. Requires a proper unit that fits the placement, and a node of its mesh. Returns `Err` if
    /// memory runs out.
    pub fn make(
        alloc: Global,
        unit: &'a Unit,
        table: Table<'a>,
        id: u32,
        quantum: u32,
    ) -> Result<Station<'a>, AllocError>
        requires proper { IsProper unit.now }
        requires suits { Suits table unit.now }
        requires id { id < table.width * table.height }
        requires quantum { 1 ≤ quantum }
        ensures unit { IfOk result (λ s. s.unit ≡ unit.now) }
        ensures placement { IfOk result (λ s. s.placement ≡ table.entry) }
        ensures quantum { IfOk result (λ s. s.quantum ≡ quantum) }
        ensures id { IfOk result (λ s. s.node.id ≡ id) }
        ensures first { IfOk result (λ s. (m : Machine Placed) → machine_start (coded unit.now) table.entry ≡ Some m → slice_get (apart m).stations id ≡ Some (station_of s)) }
    {
        match parts_of(alloc, unit, table, id, quantum) {
            Ok(parts) => Ok(Station { parts }),
            Err(error) => Err(error),
        }
    }

    /// Makes a turn of the node. A packet that leaves goes last on its link, and waits there for its acknowledgement.
    /// Returns `Silent` exactly if no object is ready, and `Full` exactly if the step would exceed a limit. Nothing has
    /// then changed. After a fault the station is of no use.
    pub fn turn(&mut self, room: &mut StepOutput) -> Result<StationOutcome, StationFault>
        ensures run { IsOfSameRun self.old self.new }
        ensures turns { Turns result room.new self.old self.new }
    {
        turn_of(&mut self.parts, room)
    }

    /// Takes a packet with its number from a neighbour. Only the packet whose number is the next of the link is handed
    /// out: it is received at its goal, and otherwise goes last on its next link. Another one is dropped. Unless the
    /// outcome is `Full`, the number of packets that have come is to be acknowledged. Requires a link from the neighbour.
    /// After a fault the station is of no use.
    pub fn data_comes(
        &mut self,
        from: u32,
        number: u64,
        packet: Packet,
        room: &mut StepOutput,
    ) -> Result<StationOutcome, StationFault>
        requires link { IsLink self.old.placement (from, self.old.node.id) }
        ensures run { IsOfSameRun self.old self.new }
        ensures comes { Comes result room.new self.old self.new from number packet }
    {
        data_of(&mut self.parts, from, number, packet, room)
    }

    /// Takes an acknowledgement from a neighbour: the packets of the link to it with smaller numbers have come. A number
    /// that is none of this link changes nothing. Requires a link to the neighbour.
    pub fn ack_comes(&mut self, to: u32, number: u64)
        requires link { IsLink self.old.placement (self.old.node.id, to) }
        ensures run { IsOfSameRun self.old self.new }
        ensures heard { station_of self.new ≡ heard self.old.node.id to number (station_of self.old) }
    {
        hear(&mut self.parts, to, number);
    }

    /// The packet with this number on the link to a neighbour, if it is not acknowledged, to be sent or sent again.
    /// Requires a link to the neighbour.
    pub fn packet_at(&self, to: u32, number: u64) -> Option<Packet>
        requires link { IsLink self.now.placement (self.now.node.id, to) }
        ensures { sent_again self.now.node.id (station_of self.now) (to, number) ≡ frame_with to number result }
    {
        packet_in(&self.parts, to, number)
    }

    /// The number of packets of the link to a neighbour that are acknowledged. Requires a node of the mesh.
    pub fn acked(&self, to: u32) -> u64
        requires { to < self.now.placement.width * self.now.placement.height }
        ensures { result ≡ count_at to (station_of self.now).acked }
    {
        self.parts.acked[to as usize]
    }

    /// The number of packets that have entered the link to a neighbour. Requires a link to the neighbour.
    pub fn entered(&self, to: u32) -> u64
        requires { IsLink self.now.placement (self.now.node.id, to) }
        ensures { result ≡ entered (station_of self.now) self.now.node.id to }
    {
        self.parts.acked[to as usize] + u64::from(self.parts.links.length(self.parts.id, to))
    }

    /// The number of packets of the link from a neighbour that have come in order. Requires a node of the mesh.
    pub fn handed(&self, from: u32) -> u64
        requires { from < self.now.placement.width * self.now.placement.height }
        ensures { result ≡ count_at from (station_of self.now).handed }
    {
        self.parts.handed[from as usize]
    }

    /// Reports whether an object of the node is ready.
    pub fn is_ready(&self) -> bool
        ensures { result ≡ is_some (first_of (ready_slots (coded self.now.unit) self.now.node.id self.now.node.state)) }
    {
        self.parts.node.is_ready(self.parts.unit)
    }

    /// Reports whether a link that is not cut leads from the node to this one. Requires a node of the mesh.
    pub fn has_link_to(&self, to: u32) -> bool
        requires { to < self.now.placement.width * self.now.placement.height }
        ensures { IsTrue result ↔ IsLink self.now.placement (self.now.node.id, to) }
    {
        self.parts.table.is_link(self.parts.id, to)
    }

    /// Reports whether a link that is not cut leads from this node to the node. Requires a node of the mesh.
    pub fn has_link_from(&self, from: u32) -> bool
        requires { from < self.now.placement.width * self.now.placement.height }
        ensures { IsTrue result ↔ IsLink self.now.placement (from, self.now.node.id) }
    {
        self.parts.table.is_link(from, self.parts.id)
    }
}
