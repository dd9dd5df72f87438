//! Laws of the bytes of frames between stations. They speak of the definitions alone: each law is the contract of a
//! function with an empty body.
ghost use Rattle.std.specs.Prelude.{◌≡◌, ◌<◌, ◌^◌, ℕ, List, Some};
ghost use Rattle.wire_link.specs.Bytes.{AreBytes, IsNumber};
ghost use Rattle.station_frames.specs.Bytes.{FrameFits, decoded, encoding};
ghost use Rattle.station_frames.specs.declared.frame.StationFrame.{StationFrame};

/// Bytes decode to a frame of a run if and only if they are its encoding. So two frames with the same bytes are equal,
/// and of the same run.
pub fn encodings_are_read_back()
    ensures read { (run : ℕ) (f : StationFrame) → IsNumber run → FrameFits f → decoded (encoding run f) ≡ Some (run, f) }
    ensures written { (bs : List ℕ) (run : ℕ) (f : StationFrame) → AreBytes bs → decoded bs ≡ Some (run, f) → (encoding run f ≡ bs) × IsNumber run × FrameFits f }
    ensures same { (run other : ℕ) (f g : StationFrame) → IsNumber run → IsNumber other → FrameFits f → FrameFits g → encoding run f ≡ encoding other g → (run ≡ other) × (f ≡ g) }
{}
