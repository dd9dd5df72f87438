//! Laws of the bytes of frames, and of the list that a wire carries after each call. They speak of the definitions
//! alone: each law is the contract of a function with an empty body.
ghost use Rattle.std.specs.Prelude.{◌≡◌, ℕ, ◌==◌, List, [], length, Option, Some, None, if◌then◌else◌, option_map, slice_get};
ghost use Rattle.run_types.specs.declared.types.What.TheVariants as W;
ghost use Rattle.mesh_semantics.specs.Wire.{hear, send, take, wire_act};
ghost use Rattle.mesh_semantics.specs.KeptWire.{Carries, Follows, KeptWire, kept_act, kept_hear, kept_send, kept_take, kept_wanted, whole};
ghost use Rattle.rendezvous_protocol.specs.declared.packet.Packet.{Packet};
ghost use Rattle.wire_link.specs.Bytes.{AreBytes, FrameFits, decoded, encoding};
ghost use Rattle.wire_link.specs.Wires.{late_of, lose_of, told_of, twice_of};
ghost use Rattle.wire_link.specs.declared.frame.Frame.{Frame};
ghost use Rattle.wire_link.specs.declared.wire.Side.{Side};
ghost use Rattle.wire_link.specs.declared.wire.Sent.{Sent};

/// Bytes decode to a frame if and only if they are its encoding.
pub fn encodings_are_read_back()
    ensures read { (f : Frame) → FrameFits f → decoded (encoding f) ≡ Some f }
    ensures written { (bs : List ℕ) (f : Frame) → AreBytes bs → decoded bs ≡ Some f → (encoding f ≡ bs) × FrameFits f }
{}

/// Each call changes the stored state of a wire as its definition says, for every list that the wire carries. The wire
/// still carries the list, reports the same, and makes the same change as the wire of the definition. Here `v` is the
/// state before the call, and `w` the state after it.
pub fn each_call_carries_what_was_carried()
    ensures arrive { (v w : KeptWire Packet) (put : List Packet) → w ≡ kept_take v → Carries v put → Carries w put × (whole w put ≡ take (whole v put)) }
    ensures send { (v w : KeptWire Packet) (put : List Packet) (number : ℕ) (fresh : Option Packet) (result : Sent) → kept_send number fresh v ≡ (told_of number result, w)
        → Carries v put → kept_wanted v (length put) ≡ Some number → fresh ≡ (if number == v.sent then slice_get put number else None)
        → Follows put (Some (told_of number result, w)) (send (whole v put)) }
    ensures ack { (v w : KeptWire Packet) (put : List Packet) (result : Option ℕ) → option_map (λ n. (W.Acked n, w)) result ≡ kept_hear v → Carries v put
        → Follows put (option_map (λ n. (W.Acked n, w)) result) (hear (whole v put)) }
    ensures lose { (v w : KeptWire Packet) (put : List Packet) (side : Side) (result : Option ℕ) → option_map (λ n. (W.Lost n, w)) result ≡ kept_act (lose_of side) [] v
        → Carries v put → Follows put (option_map (λ n. (W.Lost n, w)) result) (wire_act (lose_of side) (whole v put)) }
    ensures twice { (v w : KeptWire Packet) (put : List Packet) (side : Side) (result : Option ℕ) → option_map (λ n. (W.Frame n, w)) result ≡ kept_act (twice_of side) [] v
        → Carries v put → Follows put (option_map (λ n. (W.Frame n, w)) result) (wire_act (twice_of side) (whole v put)) }
    ensures late { (v w : KeptWire Packet) (put : List Packet) (side : Side) (result : Option ℕ) → option_map (λ n. (W.Late n, w)) result ≡ kept_act (late_of side) [] v
        → Carries v put → Follows put (option_map (λ n. (W.Late n, w)) result) (wire_act (late_of side) (whole v put)) }
{}
