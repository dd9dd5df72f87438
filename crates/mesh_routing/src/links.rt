//! The packets on the links of a mesh.
ghost use Rattle.std.specs.Prelude.{◌≡◌, ◌<◌, ◌≤◌, ◌*◌, ◌↔◌, [], drop, length, slice_get, IsErr, IsTrue, OnOk, IfErr, IfOk};
ghost use Rattle.std.specs.Option.{option_copied};
ghost use Rattle.run_types.specs.Tables.{pair_cmp, list_at, put_list};
ghost use Rattle.run_types.specs.LinkTables.{push_list, leaving};
ghost use Rattle.mesh_routing.specs.Links.{links_of, with_links, IsLinkOf};

use crate::mesh::Mesh;
use cell_pool::CellPool;
use std::alloc::{AllocError, Global};
use std::marker::Model;

/// A queue of packets for each link of a mesh. Each node has the same number of cells, for the packets on the links
/// that leave it. Contracts see a map by the two ends of a link, without entries for empty links. Only `make`
/// allocates.
pub struct Links<T: Copy> {
    mesh: Mesh,
    cells: u32,
    // The cells of each node, with a queue for each link that leaves it, in ascending order of the links' ends.
    nodes: Vec<CellPool<T>>,
}

impl<T: Copy> Model for Links<T> {
    ghost use Rattle.mesh_routing.specs.Links.{LinksOf, links_code};

    ghost Value = { LinksOf T };

    ghost coded = { links_code T.code };

    ghost use Rattle.mesh_routing.specs.Nodes.{AreNodes, view_of};

    ghost view = { λ l. view_of l.mesh.width l.mesh.height l.cells l.nodes.items };

    ghost invariant = { λ l. AreNodes l.mesh.width l.mesh.height l.cells l.nodes.items };
}

impl<T: Copy> Links<T> {
    /// Makes empty links, with `cells` cells at each node. Returns `Err` if memory runs out, or if the cells of a node
    /// would take 2^63 bytes or more. A cell takes the bytes of a packet and of two pointers.
    pub fn make(alloc: Global, mesh: &Mesh, cells: u32) -> Result<Links<T>, AllocError>
        ensures { IfOk result (λ k. k ≡ links_of mesh.now.width mesh.now.height cells []) }
    {
        let mut nodes = Vec::new(alloc);
        for node in 0..mesh.width * mesh.height {
            let pool = CellPool::make(alloc, cells as usize, mesh.ways(node))?;
            match nodes.push(pool) {
                Ok(()) => {}
                Err(_) => return Err(AllocError),
            }
        }
        Ok(Links {
            mesh: *mesh,
            cells,
            nodes,
        })
    }

    /// Appends a packet to a link, in constant time. Requires a link of the mesh. Returns the packet as the error, and
    /// changes nothing, if all cells of the link's first node are in use.
    pub fn put(&mut self, from: u32, to: u32, packet: T) -> Result<(), T>
        requires link { IsLinkOf self.old from to }
        ensures full { IsErr result ↔ (leaving self.old.links from ≡ self.old.cells) }
        ensures within { leaving self.old.links from ≤ self.old.cells }
        ensures ok { OnOk result (self.new ≡ with_links self.old (push_list pair_cmp (from, to) packet self.old.links)) }
        ensures err { IfErr result (λ back. (back ≡ packet) × (self.new ≡ self.old)) }
    {
        let way = self.mesh.way(from, to);
        let pool = &mut self.nodes[from as usize];
        pool.push_back(way, packet)
    }

    /// The first packet of a link, in constant time. None if the link is empty. Requires a link of the mesh.
    pub fn head(&self, from: u32, to: u32) -> Option<&T>
        requires link { IsLinkOf self.now from to }
        ensures { option_copied result ≡ slice_get (list_at pair_cmp (from, to) self.now.links) 0 }
    {
        self.at(from, to, 0)
    }

    /// The packet at index `place` of a link, counted from 0 at its head. None past its end. Requires a link of the
    /// mesh. The time is linear in the index.
    pub fn at(&self, from: u32, to: u32, place: u32) -> Option<&T>
        requires link { IsLinkOf self.now from to }
        ensures { option_copied result ≡ slice_get (list_at pair_cmp (from, to) self.now.links) place }
    {
        let way = self.mesh.way(from, to);
        let pool = &self.nodes[from as usize];
        if pool.len(way) <= place as usize {
            return None;
        }
        Some(pool.get(way, place as usize))
    }

    /// The number of packets on a link, in constant time. Requires a link of the mesh.
    pub fn length(&self, from: u32, to: u32) -> u32
        requires link { IsLinkOf self.now from to }
        ensures { result ≡ length (list_at pair_cmp (from, to) self.now.links) }
    {
        // Called for its contract: a node has at most `cells` packets, so the length fits 32 bits.
        let _most = self.leaving(from);
        let way = self.mesh.way(from, to);
        let pool = &self.nodes[from as usize];
        pool.len(way) as u32
    }

    /// Removes the first packet of a link, in constant time. None if the link is empty. Requires a link of the mesh.
    pub fn move_head(&mut self, from: u32, to: u32) -> Option<T>
        requires link { IsLinkOf self.old from to }
        ensures value { result ≡ slice_get (list_at pair_cmp (from, to) self.old.links) 0 }
        ensures rest { self.new ≡ with_links self.old (put_list pair_cmp (from, to) (drop 1 (list_at pair_cmp (from, to) self.old.links)) self.old.links) }
    {
        let way = self.mesh.way(from, to);
        let pool = &mut self.nodes[from as usize];
        pool.pop_front(way)
    }

    /// The number of packets on the links that leave a node, in constant time. Requires a node of the mesh.
    pub fn leaving(&self, from: u32) -> u32
        requires { from < self.now.width * self.now.height }
        ensures count { result ≡ leaving self.now.links from }
        ensures within { result ≤ self.now.cells }
    {
        let pool = &self.nodes[from as usize];
        self.cells - pool.free() as u32
    }

    /// Reports whether all links are empty, in time linear in the number of nodes.
    pub fn is_empty(&self) -> bool
        ensures { IsTrue result ↔ (self.now.links ≡ []) }
    {
        for node in 0..self.nodes.len() {
            let pool = &self.nodes[node];
            if pool.free() < self.cells as usize {
                return false;
            }
        }
        true
    }
}

impl<T: Copy> Drop for Links<T> {
    fn drop(self) {
        let Links {
            mesh: _,
            cells: _,
            nodes: _,
        } = self;
    }
}
