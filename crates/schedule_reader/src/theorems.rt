//! Laws of schedules.
ghost use Rattle.std.specs.Prelude.{◌≡◌, ℕ, Bool, List, Ok, length};
ghost use Rattle.text_scan.specs.Text.{Text};
ghost use Rattle.run_types.specs.declared.types.LinkId.{LinkId};
ghost use Rattle.run_types.specs.declared.types.Placement.{Placement};
ghost use Rattle.schedule_reader.specs.Events.{events_of, total};
ghost use Rattle.schedule_reader.specs.Plans.{IsPlanFor};
ghost use Rattle.schedule_reader.specs.Schedules.{Plan, schedule_of};
ghost use Rattle.schedule_reader.specs.declared.entry.Entry.{Entry};

/// `total` is the number of events of any entries, computed without the list of events.
pub fn events_are_counted()
    ensures { (w h : ℕ) (cuts : List LinkId) (lossy : Bool) (es : List Entry) → length (events_of w h cuts lossy es) ≡ total w h cuts lossy es }
{}

/// The schedule that a text represents fits the placement. Its quantum is from 1 to 10,000. Each event is on a node of
/// the mesh or on a link that is not cut. Only a lossy schedule has events on wires.
pub fn events_are_of_the_mesh()
    ensures { (l : Placement) (s : Text) (plan : Plan) → schedule_of l.width l.height l.cuts s ≡ Ok plan → IsPlanFor l plan }
{}
