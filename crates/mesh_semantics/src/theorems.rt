//! The theorems about placed machines, over the definitions alone. Each is the contract of a function with an empty
//! body. They hold of every language of objects; the type parameters `S` and `T` are its states. A property of
//! configurations is given by a function from the type parameter `K`, and holds of the values of that function
//! (`IsGiven`). A relation of the objects of two languages is given in the same way by a function from `M`
//! (`AreGiven`).
ghost use Rattle.std.specs.Prelude.{◌≡◌, ◌≢◌, ◌<◌, ◌*◌, ℕ, ◌==◌, List, [], ◌++◌, length, drop, Option, Some, None, true, if◌then◌else◌, slice_get};
ghost use Rattle.run_types.specs.declared.types.Label.{Label};
ghost use Rattle.run_types.specs.declared.types.Event.{Event};
ghost use Rattle.run_types.specs.declared.types.Event.TheVariants as Ev;
ghost use Rattle.run_types.specs.declared.types.What.{What};
ghost use Rattle.run_types.specs.declared.types.What.TheVariants as W;
ghost use Rattle.run_types.specs.declared.types.WireAct.{WireAct};
ghost use Rattle.run_types.specs.declared.types.Placement.{Placement};
ghost use Rattle.mesh_semantics.specs.Language.{Language};
ghost use Rattle.mesh_semantics.specs.Config.{Config};
ghost use Rattle.mesh_semantics.specs.Moves.{move};
ghost use Rattle.mesh_semantics.specs.MadeLines.{AreMade, LabelsLead};
ghost use Rattle.run_types.specs.Tables.{Pair};
ghost use Rattle.run_types.specs.PathFacts.{Ways};
ghost use Rattle.run_types.specs.Routes.{without_route};
ghost use Rattle.run_types.specs.RoutedPlacements.{IsRouted};
ghost use Rattle.mesh_semantics.specs.Wire.{WireFacts, coming, empty_wire, send, take, wanted, wire_act, IsPrefix};
ghost use Rattle.mesh_semantics.specs.Happenings.{Happening, entered, happened, AreReached};
ghost use Rattle.mesh_semantics.specs.KeptWire.{Carries, Follows, KeptWire, empty_kept, kept_act, kept_coming, kept_send, kept_take, kept_wanted, whole};
ghost use Rattle.mesh_semantics.specs.Traffic.{Change, Inside, between, traffic, no_traffic, Traffic};
ghost use Rattle.mesh_semantics.specs.Delay.{Delay, Wires, no_delay, no_delay_on_wires, wire_at};
ghost use Rattle.mesh_semantics.specs.Act.{Acts, Nothing, act, is_quiet, ready_at};
ghost use Rattle.mesh_semantics.specs.Record.{record_from, start};
ghost use Rattle.mesh_semantics.specs.RecordOf.{record_of, record_on_wires};
ghost use Rattle.run_types.specs.Asks.{EachAnswersPost};
ghost use Rattle.mesh_semantics.specs.Standing.{standing};
ghost use Rattle.mesh_semantics.specs.Cycles.{IsCycle, Contained, called_by, cycles};
ghost use Rattle.mesh_semantics.specs.Sound.{IsSound};
ghost use Rattle.mesh_semantics.specs.Wired.{KeepsWires, NothingComes, NothingDone};
ghost use Rattle.mesh_semantics.specs.FitFor.{FitFor};
ghost use Rattle.mesh_semantics.specs.Lawful.{Lawful};
ghost use Rattle.mesh_semantics.specs.Waits.{Waits};
ghost use Rattle.mesh_semantics.specs.EventSoundness.{After, ShowsRun};
ghost use Rattle.mesh_semantics.specs.Simulates.{Simulates, Related, Corresponds, SameAct, SameRecord};
ghost use Rattle.run_types.specs.GivenProperties.{IsGiven, AreGiven};

/// In a routed placement `without_route` finds no pair exactly if each path ends at its goal, visits no node twice and
/// uses only links that exist. A placement without cuts and routes has such paths.
pub fn paths_end_without_a_node_twice()
    ensures routed { (l : Placement) → IsRouted l → without_route l ≡ None → Ways l }
    ensures none { (l : Placement) → Ways l → without_route l ≡ None }
    ensures plain { (l : Placement) → 0 < l.width → l.cuts ≡ [] → l.routes ≡ [] → Ways l }
{}

/// For each pair of nodes, the values that have left the links are a prefix of those that entered, in order. This
/// holds for any sequence of entries and moves between nodes of the mesh.
pub fn order_is_kept_between_two_nodes<X>()
    ensures { (l : Placement) (es : List (Change X)) (a b : ℕ) → Ways l → Inside l es → a < l.width * l.height → b < l.width * l.height
        → IsPrefix (between a b (traffic l no_traffic es).left) (between a b (traffic l no_traffic es).entered) }
{}

/// After any sequence of events on a wire, the packets handed out are a prefix of those that entered. So each packet
/// is handed out at most once and in order. Acknowledged packets were handed out, and each frame carries the packet of
/// its number.
pub fn wires_hand_out_what_entered_in_order<X>()
    ensures facts { (hs : List (Happening X)) → WireFacts (happened hs empty_wire) }
    ensures entered { (hs : List (Happening X)) → (happened hs empty_wire).put ≡ entered hs }
{}

/// The stored part of a wire does what its wire does, for every list of packets that it carries. Both have the same
/// line, and the result is the stored part of the wire after the event. If it carries a list, it carries every longer
/// list that begins with it.
pub fn a_kept_wire_does_what_its_wire_does<X>()
    ensures empty { Carries (empty_kept {X = X}) [] }
    ensures longer { (v : KeptWire X) (put more : List X) → Carries v put → Carries v (put ++ more) }
    ensures wanted { (v : KeptWire X) (put : List X) → kept_wanted v (length put) ≡ wanted (whole v put) }
    ensures coming { (v : KeptWire X) (put : List X) → Carries v put → kept_coming v ≡ coming (whole v put) }
    ensures comes { (v : KeptWire X) (put : List X) → Carries v put → Carries (kept_take v) put × (whole (kept_take v) put ≡ take (whole v put)) }
    ensures sends { (v : KeptWire X) (put : List X) (n : ℕ) (fresh : Option X) → Carries v put → kept_wanted v (length put) ≡ Some n
        → fresh ≡ (if n == v.sent then slice_get put n else None) → Follows put (Some (kept_send n fresh v)) (send (whole v put)) }
    ensures acts { (a : WireAct) (v : KeptWire X) (put : List X) → Carries v put → Follows put (kept_act a (drop v.handed put) v) (wire_act a (whole v put)) }
{}

/// The start is sound, with or without wires: one object in which no method is under way, on a node of the mesh, and
/// no message or packet.
pub fn the_start_is_sound<S, K>()
    ensures start { (g : Language S) (kept : K → Config S) (l : Placement) (x : S) (c : Config S) → FitFor g l → g.root ≡ Some x → g.frames x ≡ 0
        → start g l ≡ Some c → IsGiven kept c → IsSound g (IsGiven kept) l c no_delay }
    ensures on_wires { (g : Language S) (kept : K → Config S) (l : Placement) (x : S) (c : Config S) → FitFor g l → g.root ≡ Some x → g.frames x ≡ 0
        → start g l ≡ Some c → IsGiven kept c → IsSound g (IsGiven kept) l c no_delay_on_wires }
{}

/// From a sound configuration the labels of an event's line lead to the configuration after the event, which is sound
/// with its delay. A line without labels leaves the configuration unchanged.
pub fn each_event_keeps_sound<S, K>()
    ensures { (g : Language S) (kept : K → Config S) (l : Placement) (q : ℕ) (c : Config S) (d : Delay) (e : Event) → Lawful g (IsGiven kept) → FitFor g l
        → IsSound g (IsGiven kept) l c d → After g (IsGiven kept) l c (act g l q c d e) }
{}

/// Each event of a sound configuration answers with a line or a limit.
pub fn each_event_answers<S, K>()
    ensures { (g : Language S) (kept : K → Config S) (l : Placement) (q : ℕ) (c : Config S) (d : Delay) (e : Event) → Lawful g (IsGiven kept) → FitFor g l
        → IsSound g (IsGiven kept) l c d → act g l q c d e ≢ Nothing }
{}

/// If links are wires, each event and each record keeps the invariant of wires: the packets on a link are those that
/// entered its wire and were not handed out. Each wire after it is reached by events of a wire.
pub fn wires_are_kept<S>()
    ensures event { (g : Language S) (l : Placement) (q : ℕ) (c e : Config S) (d f : Delay) (ev : Event) (what : What) → KeepsWires d → act g l q c d ev ≡ Acts what e f
        → KeepsWires f × AreReached d.wires f.wires }
    ensures record { (g : Language S) (l : Placement) (q : ℕ) (c : Config S) (d : Delay) (done : ℕ) (es : List Event) → KeepsWires d
        → KeepsWires (record_from g l q c d done es).delay × AreReached d.wires (record_from g l q c d done es).delay.wires }
    ensures start { KeepsWires no_delay_on_wires }
{}

/// If all is quiet, everything that entered a wire is acknowledged.
pub fn quiet_wires_are_acknowledged<S>()
    ensures { (g : Language S) (c : Config S) (d : Delay) (ws : Wires) (k : Pair) → d.wires ≡ Some ws → is_quiet g c d ≡ true
        → (wire_at ws k).acked ≡ length (wire_at ws k).put }
{}

/// A sound configuration in which all is quiet has no transition.
pub fn quiet_has_no_transition<S, K>()
    ensures { (g : Language S) (kept : K → Config S) (l : Placement) (c : Config S) (d : Delay) (lab : Label) → IsSound g (IsGiven kept) l c d
        → is_quiet g c d ≡ true → move g c lab ≡ None }
{}

/// A record from a sound configuration has event lines and then one end line. Its labels lead to its last
/// configuration, which is sound with its delay. If the record ends quiet, no label is possible there.
pub fn records_show_runs<S, K>()
    ensures { (g : Language S) (kept : K → Config S) (l : Placement) (q : ℕ) (c : Config S) (d : Delay) (done : ℕ) (es : List Event) → Lawful g (IsGiven kept) → FitFor g l
        → IsSound g (IsGiven kept) l c d → ShowsRun g (IsGiven kept) l c (record_from g l q c d done es) }
{}

/// Each event line of a record from a sound configuration is that of the act of its event at a sound configuration.
/// The acts and the labels of the lines before it lead to that configuration. If the line is idle, nothing is to be
/// done there: no object of the node is ready, nothing comes off the link, or nothing is to be done on the wire.
pub fn each_line_is_made_where_the_lines_before_lead<S, K>()
    ensures { (g : Language S) (kept : K → Config S) (l : Placement) (q : ℕ) (c : Config S) (d : Delay) (done : ℕ) (es : List Event) → Lawful g (IsGiven kept) → FitFor g l
        → IsSound g (IsGiven kept) l c d → KeepsWires d → AreMade g (IsGiven kept) l q (LabelsLead g c) c d (record_from g l q c d done es).lines }
{}

/// Each line of a record that answers a request has the number of the line that posted this request. That number is
/// above 0, and that line names the same object and the same class or call.
pub fn each_line_answers_its_post<S, K>()
    ensures answers { (g : Language S) (kept : K → Config S) (l : Placement) (q : ℕ) (c : Config S) (es : List Event) → Lawful g (IsGiven kept) → Waits g (IsGiven kept) → FitFor g l
        → start g l ≡ Some c → IsSound g (IsGiven kept) l c no_delay → EachAnswersPost (record_of g l q es).lines }
    ensures on_wires { (g : Language S) (kept : K → Config S) (l : Placement) (q : ℕ) (c : Config S) (es : List Event) → Lawful g (IsGiven kept) → Waits g (IsGiven kept) → FitFor g l
        → start g l ≡ Some c → IsSound g (IsGiven kept) l c no_delay → EachAnswersPost (record_on_wires g l q es).lines }
{}

/// An event has an idle line exactly if it has nothing to do, and then it changes nothing. At a turn no object of the
/// node is ready. At a move nothing comes off the link. At an event of a wire nothing is to be done.
pub fn idle_is_nothing<S>()
    ensures turn { (g : Language S) (l : Placement) (q : ℕ) (c e : Config S) (d f : Delay) (n : ℕ) → act g l q c d (Ev.Turn n) ≡ Acts W.Idle e f
        → (ready_at g c d n ≡ []) × (e ≡ c) × (f ≡ d) }
    ensures link { (g : Language S) (l : Placement) (q : ℕ) (c e : Config S) (d f : Delay) (a b : ℕ) → KeepsWires d → act g l q c d (Ev.Link a b) ≡ Acts W.Idle e f
        → NothingComes d.wires d (a, b) × (e ≡ c) × (f ≡ d) }
    ensures wire { (g : Language S) (l : Placement) (q : ℕ) (c e : Config S) (d f : Delay) (w : WireAct) (a b : ℕ) → act g l q c d (Ev.Wire w a b) ≡ Acts W.Idle e f
        → NothingDone d.wires w (a, b) × (e ≡ c) × (f ≡ d) }
    ensures idle_turn { (g : Language S) (l : Placement) (q : ℕ) (c : Config S) (d : Delay) (n : ℕ) → ready_at g c d n ≡ [] → act g l q c d (Ev.Turn n) ≡ Acts W.Idle c d }
    ensures idle_link { (g : Language S) (l : Placement) (q : ℕ) (c : Config S) (d : Delay) (a b : ℕ) → NothingComes d.wires d (a, b)
        → act g l q c d (Ev.Link a b) ≡ Acts W.Idle c d }
    ensures idle_wire { (g : Language S) (l : Placement) (q : ℕ) (c : Config S) (d : Delay) (w : WireAct) (a b : ℕ) → NothingDone d.wires w (a, b)
        → act g l q c d (Ev.Wire w a b) ≡ Acts W.Idle c d }
{}

/// `cycles` lists every cycle of calls, and nothing else.
pub fn cycles_are_all_and_no_other<S>()
    ensures all { (g : Language S) (c : Config S) (d : Delay) (ns : List ℕ) → IsCycle (called_by g c d) ns → Contained ns (cycles g c d) }
    ensures no_other { (g : Language S) (c : Config S) (d : Delay) (ns : List ℕ) → Contained ns (cycles g c d) → IsCycle (called_by g c d) ns }
{}

/// If the objects of two languages correspond, an event has the same line or the same limit in both, and the
/// configurations after it correspond. Both configurations are quiet, or neither is.
pub fn acts_agree<S, T, K, M>()
    ensures acts { (g : Language S) (h : Language T) (kept : K → Config S) (same : M → ℕ × S × T) (l : Placement) (q : ℕ) (c : Config S) (e : Config T) (d : Delay) (ev : Event)
        → Lawful g (IsGiven kept) → Simulates g h (IsGiven kept) (AreGiven same) → IsGiven kept c → Related (AreGiven same) c e
        → SameAct (AreGiven same) (act g l q c d ev) (act h l q e d ev) }
    ensures quiet { (g : Language S) (h : Language T) (kept : K → Config S) (same : M → ℕ × S × T) (c : Config S) (e : Config T) (d : Delay)
        → Lawful g (IsGiven kept) → Simulates g h (IsGiven kept) (AreGiven same) → Related (AreGiven same) c e → is_quiet g c d ≡ is_quiet h e d }
{}

/// If the objects of two languages correspond, their records have the same lines and the same delay at the end, and
/// their last configurations correspond.
pub fn records_agree<S, T, K, M>()
    ensures { (g : Language S) (h : Language T) (kept : K → Config S) (same : M → ℕ × S × T) (l : Placement) (q : ℕ) (c : Config S) (e : Config T) (d : Delay) (done : ℕ)
        (es : List Event) → Lawful g (IsGiven kept) → Simulates g h (IsGiven kept) (AreGiven same) → FitFor g l → IsSound g (IsGiven kept) l c d
        → Related (AreGiven same) c e → SameRecord (AreGiven same) (record_from g l q c d done es) (record_from h l q e d done es) }
{}

/// A language is lawful if its objects correspond to those of a lawful language. A configuration is sound if it
/// corresponds to a sound one with the same delay.
pub fn laws_go_across<S, T, K, M>()
    ensures lawful { (g : Language S) (h : Language T) (kept : K → Config S) (same : M → ℕ × S × T) → Lawful g (IsGiven kept)
        → Simulates g h (IsGiven kept) (AreGiven same) → Lawful h (Corresponds (IsGiven kept) (AreGiven same)) }
    ensures sound { (g : Language S) (h : Language T) (kept : K → Config S) (same : M → ℕ × S × T) (l : Placement) (c : Config S) (e : Config T) (d : Delay)
        → Lawful g (IsGiven kept) → Simulates g h (IsGiven kept) (AreGiven same) → IsSound g (IsGiven kept) l c d → Related (AreGiven same) c e
        → IsSound h (Corresponds (IsGiven kept) (AreGiven same)) l e d }
{}

/// Objects that correspond have the same class and the same status, and corresponding configurations have the same
/// cycles of calls.
pub fn standings_agree<S, T, K, M>()
    ensures standings { (g : Language S) (h : Language T) (kept : K → Config S) (same : M → ℕ × S × T) (d : Delay) (o : ℕ) (x : S) (y : T)
        → Simulates g h (IsGiven kept) (AreGiven same) → AreGiven same o x y → (g.class x ≡ h.class y) × (standing g d o x ≡ standing h d o y) }
    ensures cycles { (g : Language S) (h : Language T) (kept : K → Config S) (same : M → ℕ × S × T) (c : Config S) (e : Config T) (d : Delay)
        → Simulates g h (IsGiven kept) (AreGiven same) → Related (AreGiven same) c e → cycles g c d ≡ cycles h e d }
{}
