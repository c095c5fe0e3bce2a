// What a program asks of the outside.
ghost use Rattle.std.specs.Prelude.{◌≡◌, ◌⊎◌, ◌≤◌, ◌<◌, ◌-◌, ◌+◌, ◌%◌, ◌^◌, ℕ, Bool, List, [], length, take, min, Option, Some, is_some, option_map, IfOk, OnOk, OnErr};
ghost use Rattle.std.specs.Io.KnownBytes.{prepend_known, append_known, IsAtEnd};
ghost use Rattle.outside_io.specs.Outside.{IsMissing, Opens, Rises, capped_sum, has_bytes};

/// A call on the outside failed.
#[derive(Clone, Copy, Debug, PartialEq, Eq)]
pub struct Failed;

/// The output could not be written whole.
#[derive(Clone, Copy, Debug, PartialEq, Eq)]
pub struct Output;

/// Files that are read by name, one at a time.
///
/// A name is missing where the inputs tell their files and none of these has it. Before the first `begin` and after
/// one that failed no file is begun, and nothing is left to read. No call changes the files, or whether they are told.
///
/// The count of faults is one of 64 bits that begins at 0 and never falls. It is said to rise in a call where it is
/// greater after the call than before, or stands at 2^64 - 1 after it.
pub trait Inputs {
    /// The files by name, where they are told.
    ghost files: { Self → Option (List (List ℕ × List ℕ)) };

    /// What the begun file has left, where the files are told.
    ghost left: { Self → Option (List ℕ) };

    /// How many bytes were given since the last `begin`. This number stops at 2^64 - 1.
    ghost given: { Self → ℕ };

    /// The count of faults.
    ghost faults: { Self → ℕ };

    /// The count of faults just before the last `begin`.
    ghost faults_before: { Self → ℕ };

    /// How many calls of `begin` there were, modulo 2^64.
    ghost begun: { Self → ℕ };

    /// Whether something was left just before the last `begin`, where the files are told.
    ghost had_left: { Self → Option Bool };

    /// Opens the file with this name at its first byte, and leaves the file before it.
    ///
    /// It fails where the name is missing, and otherwise only where the count of faults rose.
    fn begin(&mut self, name: &str) -> Result<(), Failed>
        ensures opened { OnOk result (Opens (files self.old) name.now (left self.new)) }
        ensures closed { OnErr result (left self.new ≡ option_map (λ _. []) (files self.old)) }
        ensures cause { OnErr result (Rises (faults self.old) (faults self.new) ⊎ IsMissing (files self.old) name.now) }

        ensures files { files self.new ≡ files self.old }
        ensures given { given self.new ≡ 0 }
        ensures faults { faults self.old ≤ faults self.new }
        ensures faults_before { faults_before self.new ≡ faults self.old }
        ensures begun { begun self.new ≡ (begun self.old + 1) % 2 ^ 64 }
        ensures had_left { had_left self.new ≡ option_map has_bytes (left self.old) };

    /// Puts the next bytes of the begun file at the front of the buffer, and says how many.
    ///
    /// No byte for a buffer with room says that the file has ended. It fails only where the count of faults rose, and
    /// then gives no byte.
    fn read(&mut self, buf: &mut [u8]) -> Result<usize, Failed>
        ensures within { IfOk result (λ n. n ≤ length buf.new) }
        ensures gives { IfOk result (λ n. left self.old ≡ prepend_known (take n buf.new) (left self.new)) }
        ensures end { IfOk result (λ n. n ≡ 0 → 0 < length buf.new → IsAtEnd (left self.new)) }
        ensures given { IfOk result (λ n. given self.new ≡ capped_sum (given self.old) n) }
        ensures nothing { OnErr result (left self.new ≡ left self.old) }
        ensures none_given { OnErr result (given self.new ≡ given self.old) }
        ensures cause { OnErr result (Rises (faults self.old) (faults self.new)) }

        ensures files { files self.new ≡ files self.old }
        ensures faults { faults self.old ≤ faults self.new }
        ensures faults_before { faults_before self.new ≡ faults_before self.old }
        ensures begun { begun self.new ≡ begun self.old }
        ensures had_left { had_left self.new ≡ had_left self.old };

    /// What is left is told exactly where the files are told.
    ghost tells_left: { (inputs : Self) → is_some (left inputs) ≡ is_some (files inputs) };

    /// Whether something was left is told there too.
    ghost tells_had_left: { (inputs : Self) → is_some (had_left inputs) ≡ is_some (files inputs) };
}

/// A place to write to. No call changes whether it tells what was written.
pub trait Sink {
    /// What was written, where that is told.
    ghost written: { Self → Option (List ℕ) };

    /// The count of faults, which begins at 0, never falls and stops at 2^64 - 1.
    ghost faults: { Self → ℕ };

    /// Takes some bytes of the front of a piece, at least one if there is one, and says how many.
    ///
    /// It fails only where the count of faults rose, and then takes no byte.
    fn write(&mut self, piece: &[u8]) -> Result<usize, Failed>
        ensures within { IfOk result (λ n. n ≤ length piece.now) }
        ensures takes { IfOk result (λ n. written self.new ≡ append_known (written self.old) (take n piece.now)) }
        ensures some { IfOk result (λ n. 0 < length piece.now → 0 < n) }
        ensures nothing { OnErr result (written self.new ≡ written self.old) }
        ensures cause { OnErr result (Rises (faults self.old) (faults self.new)) }
        ensures faults { faults self.old ≤ faults self.new };
}
