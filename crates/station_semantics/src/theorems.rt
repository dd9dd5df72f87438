//! The theorems about stations, over the definitions alone. Each is the contract of a function with an empty body. They
//! hold of every language of objects; the type parameter `S` is its states. A property of configurations is given by a
//! function from the type parameter `K`, and holds of the values of that function (`IsGiven`).
ghost use Rattle.std.specs.Prelude.{◌≡◌, ℕ, ◌*◌, ◌≤◌, List, [], Bool, None, Some, true, length};
ghost use Rattle.run_types.specs.declared.types.Placement.{Placement};
ghost use Rattle.run_types.specs.GivenProperties.{IsGiven};
ghost use Rattle.mesh_semantics.specs.Language.{Language};
ghost use Rattle.mesh_semantics.specs.Config.{Config};
ghost use Rattle.mesh_semantics.specs.Delay.{no_delay};
ghost use Rattle.mesh_semantics.specs.FitFor.{FitFor};
ghost use Rattle.mesh_semantics.specs.Lawful.{Lawful};
ghost use Rattle.mesh_semantics.specs.Record.{start};
ghost use Rattle.mesh_semantics.specs.RecordOf.{record_of};
ghost use Rattle.mesh_semantics.specs.Requests.{Requests};
ghost use Rattle.mesh_semantics.specs.Sound.{IsSound};
ghost use Rattle.node_semantics.specs.Machine.{Machine, is_machine_quiet, machine_start};
ghost use Rattle.station_semantics.specs.AllQuiet.{AllQuiet};
ghost use Rattle.station_semantics.specs.AnyOrder.{Agrees, AreRight, with_cells};
ghost use Rattle.station_semantics.specs.Fits.{Fits, Puts};
ghost use Rattle.station_semantics.specs.MergedRecord.{events_of, record_from_lines};
ghost use Rattle.station_semantics.specs.Whole.{Whole, Step, AreCarried, Makes, after_steps, apart, merged};

/// Whatever the carrier does, the machine over links without wires makes the merged lines of all stations. The stations
/// then fit the machine again. If they say that all is quiet, the machine is quiet.
pub fn stations_do_what_the_machine_does<S>()
    ensures start { (l : Placement) (m : Machine S) → length m.nodes ≡ l.width * l.height → m.links ≡ [] → m.wires ≡ None → Fits l (apart m) m [] }
    ensures steps { (g : Language S) (l : Placement) (q : ℕ) (w : Whole S) (m : Machine S) (puts : Puts) (is : List Step) → Fits l w m puts → AreCarried g l q w is
        → (m' : Machine S) × (puts' : Puts) × Makes g l q m (merged g l q w is) m' × Fits l (after_steps g l q w is) m' puts' }
    ensures quiet { (g : Language S) (l : Placement) (w : Whole S) (m : Machine S) (puts : Puts) → Fits l w m puts → AllQuiet g w → is_machine_quiet g m ≡ true }
{}

/// In any order of steps the machine makes the merged lines, if each packet handed out is the one that entered with its
/// number. Any frames may come. The machine has no wires, and its nodes have enough cells.
pub fn stations_do_so_in_any_order<S>()
    ensures { (g : Language S) (l : Placement) (q : ℕ) (w : Whole S) (m : Machine S) (puts : Puts) (is : List Step) → Agrees l w m puts → AreRight g l q w puts is
        → (most : ℕ) × (m' : Machine S) × (puts' : Puts) × ((cells : ℕ) → most ≤ cells → Makes g (with_cells l cells) q m (merged g l q w is) m') × Agrees l (after_steps g l q w is) m' puts' }
{}

/// Whatever the carrier does, the merged lines of all stations, with numbers and an end line, are the record over the
/// events of these lines. If the stations say that all is quiet, the record ends quiet.
pub fn merged_lines_are_a_record<S, K>()
    ensures { (g : Language S) (kept : K → Config S) (l : Placement) (q : ℕ) (m : Machine S) (is : List Step)
        → Lawful g (IsGiven kept) → Requests g (IsGiven kept) → FitFor g l → ((c : Config S) → start g l ≡ Some c → IsSound g (IsGiven kept) l c no_delay)
        → machine_start g l ≡ Some m → AreCarried g l q (apart m) is
        → (b : Bool) × (record_from_lines b 0 (merged g l q (apart m) is) ≡ (record_of g l q (events_of (merged g l q (apart m) is))).lines)
        × (AllQuiet g (after_steps g l q (apart m) is) → b ≡ true) }
{}

/// In any such order the merged lines, with numbers and an end line, are the record over their events, if the nodes have
/// enough cells.
pub fn lines_in_any_order_are_a_record<S, K>()
    ensures { (g : Language S) (kept : K → Config S) (l : Placement) (q : ℕ) (m : Machine S) (is : List Step)
        → Lawful g (IsGiven kept) → Requests g (IsGiven kept) → machine_start g l ≡ Some m → AreRight g l q (apart m) [] is
        → (most : ℕ) × ((cells : ℕ) → most ≤ cells → FitFor g (with_cells l cells) → ((c : Config S) → start g (with_cells l cells) ≡ Some c → IsSound g (IsGiven kept) (with_cells l cells) c no_delay)
        → (b : Bool) × (record_from_lines b 0 (merged g l q (apart m) is) ≡ (record_of g (with_cells l cells) q (events_of (merged g l q (apart m) is))).lines)) }
{}
