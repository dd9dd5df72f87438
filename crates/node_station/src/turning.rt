//! Turns of a station.
ghost use Rattle.std.specs.Prelude.{◌≡◌, ◌<◌, ◌-◌, ◌^◌, true, false};
ghost use Rattle.run_types.specs.Tables.{Each};
ghost use Rattle.node_station.specs.Outcomes.{IsOfSameRun, IsSpent, Turns};
ghost use Rattle.node_station.specs.Parts.{IsStation, view_of};

use crate::outcome::{StationFault, StationOutcome};
use crate::parts::StationParts;
use crate::posting::settle;
use pool_node::{NodePlan, StepOutput};

/// Reports whether a step can be counted. It brings the bound of the objects that were made up to date if the bound is
/// used up.
pub(crate) fn has_numbers(parts: &mut StationParts<'_>) -> bool
    requires { IsStation parts.old }
    ensures whole { IsStation parts.new }
    ensures rest { parts.new ≡ record parts.old { made = parts.new.made } }
    ensures yes { result ≡ true → (parts.new.made < 2 ^ 32 - 1) × (parts.new.steps < 2 ^ 64 - 1) }
    ensures no { result ≡ false → IsSpent (view_of parts.old) }
{
    if parts.steps == u64::MAX {
        return false;
    }
    if parts.made < u32::MAX {
        return true;
    }
    parts.made = parts.node.most_made();
    parts.made < u32::MAX
}

/// Makes a turn of the node, and puts the packet that leaves on its link.
pub(crate) fn turn_of(
    parts: &mut StationParts<'_>,
    room: &mut StepOutput,
) -> Result<StationOutcome, StationFault>
    requires { IsStation parts.old }
    ensures whole { IsStation parts.new }
    ensures run { IsOfSameRun (view_of parts.old) (view_of parts.new) }
    ensures turns { Turns result room.new (view_of parts.old) (view_of parts.new) }
{
    if !has_numbers(parts) {
        return Err(StationFault::Spent);
    }
    let plan = NodePlan {
        unit: parts.unit,
        placement: parts.table.placement(),
        leaving: parts.links.leaving(parts.id),
    };
    let told = parts.node.turn_into(&plan, parts.quantum, room);
    parts.made += 1;
    settle(parts, told, &room.packet)
}
