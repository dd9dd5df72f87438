//! Neighbours in a mesh.
ghost use Rattle.std.specs.Prelude.{◌≡◌, ◌<◌, ◌≤◌};
ghost use Rattle.run_types.specs.Paths.{are_adjacent, are_neighbours};

/// Reports whether the two numbers differ by 1.
fn are_adjacent(one: u64, other: u64) -> bool
    requires one { one < 64 }
    requires other { other < 64 }
    ensures { result ≡ are_adjacent one other }
{
    one + 1 == other || other + 1 == one
}

/// Reports whether two nodes are neighbours in a mesh of `width` columns: in one row and adjacent columns, or in one
/// column and adjacent rows. Requires a positive width, and nodes below 64.
pub fn are_neighbours(width: u64, one: u64, other: u64) -> bool
    requires width { 1 ≤ width }
    requires one { one < 64 }
    requires other { other < 64 }
    ensures { result ≡ are_neighbours width one other }
{
    let same_row = one / width == other / width;
    let same_column = one % width == other % width;
    let beside = are_adjacent(one % width, other % width);
    let above = are_adjacent(one / width, other / width);
    (same_row && beside) || (same_column && above)
}
