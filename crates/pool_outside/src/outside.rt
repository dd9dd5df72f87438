// The two traits of the outside: files and sinks.
ghost use Rattle.std.specs.Prelude.{◌≡◌, ℕ, ◌+◌, ◌-◌, ◌^◌, ◌<◌, ◌≤◌, ◌++◌, ◌↔◌, List, [], Option, None, Bool, true, false, length, take, drop, min, option_map, IsTrue, IfOk, OnOk, OnErr, IfSome};
ghost use Rattle.pool_outside.specs.Outside.{Rose};

/// A call of the outside failed. The count of faults rose, or is at its last value, 2^64-1.
#[derive(Clone, Copy)]
pub struct Failed;

/// Files by their names, of which one may be open at a time.
pub trait Files {
    /// The text under a name, given by its bytes, if it is known.
    ghost told: { Self → List ℕ → Option (List ℕ) };

    /// The unread rest of the open text, if it is known.
    ghost rest: { Self → Option (List ℕ) };

    /// The number of bytes read since the last `open_file`. It stops at 2^64-1.
    ghost given: { Self → ℕ };

    /// The number of calls that have failed. It never falls, and stops at 2^64-1.
    ghost faults: { Self → ℕ };

    /// The number of calls of `open_file`.
    ghost opens: { Self → ℕ };

    /// Whether the open with the number n, counted from 0, may be of this name.
    ghost may: { Self → ℕ → List ℕ → Bool };

    /// Whether a text is open and has not ended.
    ghost live: { Self → Bool };

    /// Opens the text under a name, at its beginning. Requires that `may` allows the name.
    fn open_file(&mut self, name: &str) -> Result<(), Failed>
        requires allowed { IsTrue (may self.old (opens self.old) name.now) }
        requires countable { opens self.old < 2 ^ 64 - 1 }
        ensures no_fault { OnOk result (faults self.new ≡ faults self.old) }
        ensures opens_rises { opens self.new ≡ opens self.old + 1 }
        ensures none_given { given self.new ≡ 0 }
        ensures entered { OnOk result ((rest self.new ≡ told self.old name.now) × (live self.new ≡ true)) }
        ensures failed { OnErr result (Rose (faults self.old) (faults self.new) × (rest self.new ≡ None) × (live self.new ≡ false)) }
        ensures faults_stay_or_rise { faults self.old ≤ faults self.new }
        ensures same_texts { told self.new ≡ told self.old }
        ensures same_leave { may self.new ≡ may self.old };

    /// Reads the next bytes of the open text into `into`, and reports their number. 0 is the end of the text.
    fn read(&mut self, into: &mut [u8]) -> Result<usize, Failed>
        requires live { live self.old ≡ true }
        requires room { 0 < length into.old }
        ensures no_fault { OnOk result (faults self.new ≡ faults self.old) }
        ensures fits { IfOk result (λ n. n ≤ length into.old) }
        ensures bytes { IfOk result (λ n. IfSome (rest self.old) (λ s. (n ≤ length s) × (take n into.new ≡ take n s))) }
        ensures left { IfOk result (λ n. rest self.new ≡ option_map (drop n) (rest self.old)) }
        ensures counted { IfOk result (λ n. given self.new ≡ min (given self.old + n) (2 ^ 64 - 1)) }
        ensures ended { IfOk result (λ n. n ≡ 0 → IfSome (rest self.old) (λ s. s ≡ []) × (live self.new ≡ false)) }
        ensures goes_on { IfOk result (λ n. 0 < n → live self.new ≡ true) }
        ensures failed { OnErr result (Rose (faults self.old) (faults self.new) × (live self.new ≡ false) × (given self.new ≡ given self.old)) }
        ensures faults_stay_or_rise { faults self.old ≤ faults self.new }
        ensures same_opens { opens self.new ≡ opens self.old }
        ensures same_texts { told self.new ≡ told self.old }
        ensures same_leave { may self.new ≡ may self.old };
}

/// A receiver of bytes, in pieces.
pub trait Sink {
    /// The bytes that were written, if they are known.
    ghost written: { Self → Option (List ℕ) };

    /// The number of writes that have failed. It never falls, and stops at 2^64-1.
    ghost faults: { Self → ℕ };

    /// Takes a prefix of the piece, and reports its length in bytes. A failed write takes nothing.
    fn write(&mut self, piece: &[u8]) -> Result<usize, Failed>
        requires some { 0 < length piece.now }
        ensures takes { IfOk result (λ n. (1 ≤ n) × (n ≤ length piece.now)) }
        ensures appended { IfOk result (λ n. written self.new ≡ option_map (λ w. w ++ take n piece.now) (written self.old)) }
        ensures failed { OnErr result (Rose (faults self.old) (faults self.new) × (written self.new ≡ written self.old)) }
        ensures no_fault { OnOk result (faults self.new ≡ faults self.old) }
        ensures faults_stay_or_rise { faults self.old ≤ faults self.new };
}
