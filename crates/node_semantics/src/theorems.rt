//! The theorems about machines of nodes, over the definitions alone. Each is the contract of a function with an empty
//! body. They hold of every language of objects; the type parameter `S` is its states. A property of configurations is
//! given by a function from the type parameter `K`, and holds of the values of that function (`IsGiven`).
ghost use Rattle.std.specs.Prelude.{◌≡◌, ◌≢◌, ◌+◌, ℕ, List, [], ◌∷◌, None, Some, is_some, length, slice_get};
ghost use Rattle.std.specs.List.{list_any};
ghost use Rattle.run_types.specs.declared.types.Event.{Event};
ghost use Rattle.run_types.specs.declared.types.Placement.{Placement};
ghost use Rattle.run_types.specs.Tables.{pair_cmp, list_at, Each};
ghost use Rattle.run_types.specs.LinkTables.{leaving};
ghost use Rattle.mesh_semantics.specs.Language.{Language};
ghost use Rattle.mesh_semantics.specs.Config.{Config, messages_of, object_of};
ghost use Rattle.run_types.specs.PathFacts.{In};
ghost use Rattle.mesh_semantics.specs.Delay.{Delay, cell_count, no_delay, no_delay_on_wires};
ghost use Rattle.mesh_semantics.specs.NumberedPackets.{NumberedPacket};
ghost use Rattle.mesh_semantics.specs.Act.{act, frame_count, goal_node, is_quiet, object_count};
ghost use Rattle.mesh_semantics.specs.Record.{start};
ghost use Rattle.mesh_semantics.specs.RecordOf.{record_of, record_on_wires};
ghost use Rattle.mesh_semantics.specs.Standing.{standing};
ghost use Rattle.mesh_semantics.specs.Sound.{IsSound};
ghost use Rattle.mesh_semantics.specs.FitFor.{FitFor};
ghost use Rattle.mesh_semantics.specs.Lawful.{Lawful};
ghost use Rattle.run_types.specs.GivenProperties.{IsGiven};
ghost use Rattle.node_semantics.specs.Node as N;
ghost use Rattle.node_semantics.specs.Node.{IsStep, NodeState, Slot, frames_in, message_count, ready_slots, receipt_act, turn_act};
ghost use Rattle.node_semantics.specs.Machine.{Machine, any_faulted, is_machine_quiet, machine_act, machine_start, machine_start_on_wires};
ghost use Rattle.mesh_semantics.specs.Requests.{KeepsClassAndFault, Requests, AreServed, KnownNames};
ghost use Rattle.node_semantics.specs.StandsFor.{MachineStandsFor, slot_at};
ghost use Rattle.node_semantics.specs.Outstanding.{Outstanding};
ghost use Rattle.node_semantics.specs.Agrees.{IsFresh, IsOfMesh};
ghost use Rattle.node_semantics.specs.WiresStandFor.{AgreesOn, StandsFor, StartAgrees};
ghost use Rattle.node_semantics.specs.MachineLines.{FreshAlong, FreshAlongWires, machine_lines, machine_lines_on_wires};
ghost use Rattle.node_semantics.specs.Receives.{IsReceivable};
ghost use Rattle.node_semantics.specs.CanTurn.{CanTurn};
ghost use Rattle.node_semantics.specs.Standings.{SaysOf, machine_standing, slot_standing};

/// The start of a machine represents the start of the configuration, with or without wires. Both have a start, or
/// neither has.
pub fn a_machine_starts_as_what_it_stands_for<S, K>()
    ensures start { (g : Language S) (kept : K → Config S) (l : Placement) → FitFor g l → Requests g (IsGiven kept) → StartAgrees g l no_delay (machine_start g l) (start g l) }
    ensures on_wires { (g : Language S) (kept : K → Config S) (l : Placement) → FitFor g l → Requests g (IsGiven kept)
        → StartAgrees g l no_delay_on_wires (machine_start_on_wires g l) (start g l) }
{}

/// A machine answers an event as the sound configuration that it represents does: with the same line or the same
/// limit. After a line it represents the configuration after the event. The event is one of the mesh, and the number
/// for a request is not in use at the node of a turn.
pub fn a_machine_does_what_it_stands_for<S, K>()
    ensures { (g : Language S) (kept : K → Config S) (l : Placement) (q fresh : ℕ) (m : Machine S) (c : Config S) (d : Delay) (e : Event)
        → Lawful g (IsGiven kept) → Requests g (IsGiven kept) → FitFor g l → IsSound g (IsGiven kept) l c d → StandsFor g l m c d
        → IsOfMesh l e → IsFresh m fresh e → AgreesOn g l (machine_act g l q fresh m e) (act g l q c d e) }
{}

/// A machine is quiet exactly if the configuration that it represents is quiet.
pub fn a_machine_is_quiet_as_what_it_stands_for<S, K>()
    ensures { (g : Language S) (kept : K → Config S) (l : Placement) (m : Machine S) (c : Config S) (d : Delay)
        → Lawful g (IsGiven kept) → Requests g (IsGiven kept) → IsSound g (IsGiven kept) l c d → StandsFor g l m c d → is_machine_quiet g m ≡ is_quiet g c d }
{}

/// A machine represents at most one sound configuration: two that it represents have the same objects and the same
/// messages. The two may be sound for different properties.
pub fn a_machine_stands_for_one_configuration<S, K, N>()
    ensures objects { (g : Language S) (kept : K → Config S) (other : N → Config S) (l : Placement) (m : Machine S) (c e : Config S) (d f : Delay) (o : ℕ)
        → IsSound g (IsGiven kept) l c d → IsSound g (IsGiven other) l e f → StandsFor g l m c d → StandsFor g l m e f → object_of c o ≡ object_of e o }
    ensures messages { (g : Language S) (kept : K → Config S) (other : N → Config S) (l : Placement) (m : Machine S) (c e : Config S) (d f : Delay) (s r : ℕ)
        → IsSound g (IsGiven kept) l c d → IsSound g (IsGiven other) l e f → StandsFor g l m c d → StandsFor g l m e f → messages_of c s r ≡ messages_of e s r }
{}

/// Over a schedule a machine writes the lines of the record, for any request numbers that are fresh along its run. The
/// same holds over wires.
pub fn a_machine_writes_the_record<S, K>()
    ensures lines { (g : Language S) (kept : K → Config S) (l : Placement) (q : ℕ) (es : List Event) (numbers : List ℕ)
        → Lawful g (IsGiven kept) → Requests g (IsGiven kept) → FitFor g l → ((c : Config S) → start g l ≡ Some c → IsSound g (IsGiven kept) l c no_delay)
        → Each (IsOfMesh l) es → FreshAlong g l q es numbers → machine_lines g l q es numbers ≡ (record_of g l q es).lines }
    ensures on_wires { (g : Language S) (kept : K → Config S) (l : Placement) (q : ℕ) (es : List Event) (numbers : List ℕ)
        → Lawful g (IsGiven kept) → Requests g (IsGiven kept) → FitFor g l → ((c : Config S) → start g l ≡ Some c → IsSound g (IsGiven kept) l c no_delay)
        → Each (IsOfMesh l) es → FreshAlongWires g l q es numbers → machine_lines_on_wires g l q es numbers ≡ (record_on_wires g l q es).lines }
{}

/// For each schedule there are request numbers that are fresh along the run, with and without wires.
pub fn there_are_fresh_numbers<S>()
    ensures on_wires { (g : Language S) (l : Placement) (q : ℕ) (es : List Event) → (numbers : List ℕ) × FreshAlongWires g l q es numbers }
    ensures numbers { (g : Language S) (l : Placement) (q : ℕ) (es : List Event) → (numbers : List ℕ) × FreshAlong g l q es numbers }
{}

/// The request numbers in use at a node belong to exactly its objects that are posted, at a wait or due, and each
/// number to one of them. The language meets `AreServed`: an object for which another waits serves that one.
pub fn numbers_that_are_out_name_waiting_objects<S, K>()
    ensures { (g : Language S) (kept : K → Config S) (l : Placement) (m : Machine S) (c : Config S) (d : Delay) (n : ℕ)
        → Requests g (IsGiven kept) → AreServed g (IsGiven kept) → IsGiven kept c → MachineStandsFor g l m c d → Outstanding g m c d n }
{}

/// A packet that comes off a link at its goal meets the conditions under which its node can receive it.
pub fn a_packet_off_a_link_is_receivable<S, K>()
    ensures { (g : Language S) (kept : K → Config S) (l : Placement) (m : Machine S) (c : Config S) (d : Delay) (a b : ℕ) (e : NumberedPacket) (rest : List NumberedPacket)
        (x : NodeState S) → Lawful g (IsGiven kept) → Requests g (IsGiven kept) → KnownNames g (IsGiven kept) → FitFor g l → IsSound g (IsGiven kept) l c d
        → MachineStandsFor g l m c d → list_at pair_cmp (a, b) m.links ≡ e ∷ rest → goal_node e.packet ≡ b → slice_get m.nodes b ≡ Some x
        → IsReceivable g b x e.number e.packet }
{}

/// A node answers a packet that it can receive with a line or a limit, if an object of each class can be made.
pub fn a_node_answers_a_receivable_packet<S>()
    ensures { (g : Language S) (l : Placement) (leaving n : ℕ) (x : NodeState S) (e : NumberedPacket) → ((k : ℕ) → In k g.classes → g.made k ≢ None)
        → IsReceivable g n x e.number e.packet → IsStep (receipt_act g l n leaving e x) }
{}

/// A turn of a node is idle if none of its objects is ready, and otherwise answers with a line or a limit. For the
/// answer its objects can do their next actions (`CanTurn`).
pub fn a_node_answers_its_turn<S>()
    ensures idle { (g : Language S) (l : Placement) (q leaving n fresh : ℕ) (x : NodeState S) → ready_slots g n x ≡ [] → turn_act g l q n leaving fresh x ≡ N.Idle }
    ensures step { (g : Language S) (l : Placement) (q leaving n fresh : ℕ) (x : NodeState S) → CanTurn g n x → ready_slots g n x ≢ [] → IsStep (turn_act g l q n leaving fresh x) }
{}

/// The objects, frames and cells of a node are counted as those of the configuration that its machine represents.
pub fn a_node_counts_what_it_stands_for<S, K>()
    ensures objects { (g : Language S) (kept : K → Config S) (l : Placement) (m : Machine S) (c : Config S) (d : Delay) (n : ℕ) (x : NodeState S)
        → Lawful g (IsGiven kept) → Requests g (IsGiven kept) → IsGiven kept c → MachineStandsFor g l m c d → slice_get m.nodes n ≡ Some x → length x.slots ≡ object_count c n }
    ensures frames { (g : Language S) (kept : K → Config S) (l : Placement) (m : Machine S) (c : Config S) (d : Delay) (n : ℕ) (x : NodeState S)
        → Lawful g (IsGiven kept) → Requests g (IsGiven kept) → IsGiven kept c → MachineStandsFor g l m c d → slice_get m.nodes n ≡ Some x → frames_in g x.slots ≡ frame_count g c n }
    ensures cells { (g : Language S) (kept : K → Config S) (l : Placement) (m : Machine S) (c : Config S) (d : Delay) (n : ℕ) (x : NodeState S)
        → Lawful g (IsGiven kept) → Requests g (IsGiven kept) → IsGiven kept c → MachineStandsFor g l m c d → slice_get m.nodes n ≡ Some x
        → message_count x.slots + leaving m.links n ≡ cell_count d n }
{}

/// The status that a node reports of a slot is that of its object. If the object is due a value, the node reports its
/// call or its request for a new object.
pub fn a_node_says_where_an_object_stands<S, K>()
    ensures { (g : Language S) (kept : K → Config S) (l : Placement) (m : Machine S) (c : Config S) (d : Delay) (o : ℕ) (x : S) (s : Slot S)
        → Lawful g (IsGiven kept) → Requests g (IsGiven kept) → IsSound g (IsGiven kept) l c d → MachineStandsFor g l m c d
        → object_of c o ≡ Some x → slot_at m o ≡ Some s → SaysOf (slot_standing g o s) (standing g d o x) }
{}

/// The status that a machine reports of a name is that of its object. It reports none exactly if the name has no
/// object.
pub fn a_machine_says_where_an_object_stands<S, K>()
    ensures there { (g : Language S) (kept : K → Config S) (l : Placement) (m : Machine S) (c : Config S) (d : Delay) (o : ℕ) (x : S)
        → Lawful g (IsGiven kept) → Requests g (IsGiven kept) → IsSound g (IsGiven kept) l c d → MachineStandsFor g l m c d
        → object_of c o ≡ Some x → machine_standing g m o ≡ Some (standing g d o x) }
    ensures absent { (g : Language S) (l : Placement) (m : Machine S) (c : Config S) (d : Delay) (o : ℕ) → MachineStandsFor g l m c d
        → object_of c o ≡ None → machine_standing g m o ≡ None }
{}

/// The slot of an object has the class and the fault of the object. So an object of the machine has a fault exactly if
/// one of the configuration has.
pub fn a_machine_keeps_class_and_fault<S, K>()
    ensures class { (g : Language S) (l : Placement) (m : Machine S) (c : Config S) (d : Delay) (o : ℕ) (x : S) (s : Slot S) → KeepsClassAndFault g → MachineStandsFor g l m c d
        → object_of c o ≡ Some x → slot_at m o ≡ Some s → g.class s.state ≡ g.class x }
    ensures fault { (g : Language S) (l : Placement) (m : Machine S) (c : Config S) (d : Delay) (o : ℕ) (x : S) (s : Slot S) → KeepsClassAndFault g → MachineStandsFor g l m c d
        → object_of c o ≡ Some x → slot_at m o ≡ Some s → g.fault s.state ≡ g.fault x }
    ensures any { (g : Language S) (kept : K → Config S) (l : Placement) (m : Machine S) (c : Config S) (d : Delay) → Lawful g (IsGiven kept) → KeepsClassAndFault g
        → IsGiven kept c → MachineStandsFor g l m c d → any_faulted g m ≡ list_any (λ e. is_some (g.fault e.1)) c.objects }
{}
