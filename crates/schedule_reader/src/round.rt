//! The events of a round of the mesh.
ghost use Rattle.std.specs.Prelude.{◌≡◌, ◌+◌, ◌*◌, ◌<◌, ◌≤◌, ◌++◌, length, OnOk, IfOk, vec_len};
ghost use Rattle.schedule_reader.specs.Events.{moves_from, moves_to, round_of, round_on, turns};
ghost use Rattle.std.specs.List.{range_with_len};

use crate::entry::has_link;
use run_types::{Event, LinkId, WireAct};
use std::alloc::{AllocError, Global};

/// Appends a turn of each node.
fn push_turns(events: &mut Vec<Event>, nodes: u32) -> Result<(), AllocError>
    ensures items { OnOk result (events.new.items ≡ events.old.items ++ turns (range_with_len 0 nodes)) }
    ensures few { OnOk result (vec_len events.new ≤ vec_len events.old + nodes) }
{
    for node in 0..nodes {
        events.push(Event::Turn { node })?;
    }
    Ok(())
}

/// Appends the events of a round on a link: a move. On a wire, a frame is sent before the move, and an acknowledgement
/// comes back after it.
fn push_link(events: &mut Vec<Event>, lossy: bool, from: u32, to: u32) -> Result<(), AllocError>
    ensures items { OnOk result (events.new.items ≡ events.old.items ++ round_on lossy from to) }
    ensures few { OnOk result (vec_len events.new ≤ vec_len events.old + 3) }
{
    if !lossy {
        events.push(Event::Link { from, to })?;
        return Ok(());
    }
    events.push(Event::Wire {
        act: WireAct::Send,
        from,
        to,
    })?;
    events.push(Event::Link { from, to })?;
    events.push(Event::Wire {
        act: WireAct::Ack,
        from,
        to,
    })?;
    Ok(())
}

/// Appends the events of a round on each link that leaves a node.
fn push_moves_to(
    events: &mut Vec<Event>,
    width: u32,
    cuts: &[LinkId],
    lossy: bool,
    nodes: u32,
    from: u32,
) -> Result<(), AllocError>
    requires width { 1 ≤ width }
    requires small { nodes ≤ 64 }
    requires within { from < nodes }
    ensures items { OnOk result (events.new.items ≡ events.old.items ++ moves_to width cuts.now lossy from (range_with_len 0 nodes)) }
    ensures few { OnOk result (vec_len events.new ≤ vec_len events.old + 192) }
{
    for to in 0..nodes {
        if has_link(u64::from(width), cuts, u64::from(from), u64::from(to)) {
            push_link(events, lossy, from, to)?;
        }
    }
    Ok(())
}

/// Appends the events of a round on each link.
fn push_moves(
    events: &mut Vec<Event>,
    width: u32,
    cuts: &[LinkId],
    lossy: bool,
    nodes: u32,
) -> Result<(), AllocError>
    requires width { 1 ≤ width }
    requires small { nodes ≤ 64 }
    ensures items { OnOk result (events.new.items ≡ events.old.items ++ moves_from width cuts.now lossy nodes (range_with_len 0 nodes)) }
    ensures few { OnOk result (vec_len events.new ≤ vec_len events.old + 12288) }
{
    for from in 0..nodes {
        push_moves_to(events, width, cuts, lossy, nodes, from)?;
    }
    Ok(())
}

/// The events of a round, in a mesh of 1 to 8 columns and rows. These are at most 64 turns, and for each of at most 224
/// links that are not cut a move, or three events on wires. Returns `Err` if memory runs out.
pub fn round(
    alloc: Global,
    width: u32,
    height: u32,
    cuts: &[LinkId],
    lossy: bool,
) -> Result<Vec<Event>, AllocError>
    requires width { (1 ≤ width) × (width ≤ 8) }
    requires height { (1 ≤ height) × (height ≤ 8) }
    ensures items { IfOk result (λ events. events.items ≡ round_of width height cuts.now lossy) }
    ensures few { IfOk result (λ events. vec_len events ≤ 12352) }
{
    let nodes = width * height;
    let mut events = Vec::new(alloc);
    push_turns(&mut events, nodes)?;
    push_moves(&mut events, width, cuts, lossy, nodes)?;
    Ok(events)
}
