//! The nodes and links of a mesh.
ghost use Rattle.std.specs.Prelude.{◌≡◌, ◌<◌, ◌≤◌, ◌*◌, ◌↔◌, Some, IsNone, IsTrue, IfSome, length, slice_get};
ghost use Rattle.run_types.specs.Paths.{toward, AreNeighbours};
ghost use Rattle.mesh_routing.specs.Ways.{back, ends};

use crate::beside::are_neighbours;

/// A mesh of 1 to 8 columns and 1 to 8 rows. Node k is in column k mod `width` and row k div `width`. A link leads from
/// each node to each neighbour in its row or its column.
#[derive(Clone, Copy)]
pub struct Mesh {
    pub width: u32,
    pub height: u32,
    pub ghost wide: { (1 ≤ width) × (width ≤ 8) },
    pub ghost high: { (1 ≤ height) × (height ≤ 8) },
}

impl Mesh {
    /// Makes a mesh of 1 to 8 columns and 1 to 8 rows.
    pub fn make(width: u32, height: u32) -> Mesh
        requires wide { (1 ≤ width) × (width ≤ 8) }
        requires high { (1 ≤ height) × (height ≤ 8) }
        ensures width { result.width ≡ width }
        ensures height { result.height ≡ height }
    {
        Mesh { width, height }
    }

    /// The next node on the path from `at` to `to`: first along the row, then along the column. This is dimension-order
    /// routing. None exactly if both are equal. Requires nodes of the mesh.
    pub fn next(&self, at: u32, to: u32) -> Option<u32>
        requires at { at < self.now.width * self.now.height }
        requires to { to < self.now.width * self.now.height }
        ensures none { IsNone result ↔ (at ≡ to) }
        ensures some { IfSome result (λ n. n ≡ toward self.now.width at to) }
        ensures link { IfSome result (λ n. (n < self.now.width * self.now.height) × AreNeighbours self.now.width at n) }
    {
        if at == to {
            return None;
        }
        let column = at % self.width;
        let goal = to % self.width;
        let next = if column == goal {
            if at < to {
                at + self.width
            } else {
                at - self.width
            }
        } else if column < goal {
            at + 1
        } else {
            at - 1
        };
        Some(next)
    }

    /// Reports whether a link leads from the one node to the other. Requires nodes of the mesh.
    pub fn is_link(&self, from: u32, to: u32) -> bool
        requires from { from < self.now.width * self.now.height }
        requires to { to < self.now.width * self.now.height }
        ensures { IsTrue result ↔ AreNeighbours self.now.width from to }
    {
        are_neighbours(u64::from(self.width), u64::from(from), u64::from(to))
    }

    // The number of links that leave the node.
    pub(crate) fn ways(&self, from: u32) -> usize
        requires { from < self.now.width * self.now.height }
        ensures { result ≡ length (ends self.now.width self.now.height from) }
    {
        self.ways_back(from)
            + (from % self.width + 1 < self.width) as usize
            + (from + self.width < self.width * self.height) as usize
    }

    // The number of links that lead from the node to nodes with smaller numbers.
    fn ways_back(&self, from: u32) -> usize
        requires { from < self.now.width * self.now.height }
        ensures { result ≡ back self.now.width from }
    {
        (self.width <= from) as usize + (0 < from % self.width) as usize
    }

    // The index of a link among those that leave its first node, in ascending order of their ends.
    pub(crate) fn way(&self, from: u32, to: u32) -> usize
        requires from { from < self.now.width * self.now.height }
        requires to { to < self.now.width * self.now.height }
        requires beside { AreNeighbours self.now.width from to }
        ensures { slice_get (ends self.now.width self.now.height from) result ≡ Some to }
    {
        if to + self.width == from {
            return 0;
        }
        if to < from {
            return (self.width <= from) as usize;
        }
        if to == from + 1 && from % self.width + 1 < self.width {
            return self.ways_back(from);
        }
        self.ways_back(from) + (from % self.width + 1 < self.width) as usize
    }
}
