// Files and a sink in memory, which fail at the calls that they are told to fail at.
ghost use Rattle.std.specs.Prelude.{◌≡◌, ◌⊎◌, ◌↔◌, ◌<◌, ◌≤◌, ◌+◌, ◌%◌, ◌^◌, [], ℕ, length, take, min, refl, true, false, is_err, Some, None, IfOk, OnOk, OnErr, IsErr, Contains, option_map};
ghost use Rattle.std.specs.Io.KnownBytes.{append_known, prepend_known, IsAtEnd};
ghost use Rattle.outside_io.specs.Outside.{IsMissing, Opens, Rises, capped_sum, has_bytes};
ghost use Rattle.outside_io.specs.MemoryFiles.{rest_of};

use crate::call_list::{CallCount, Calls};
use crate::file_list::Files;
use crate::traits::{Failed, Inputs, Sink};
use std::alloc::Global;

/// Files in memory, which tell what they hold.
///
/// Calls of `begin` and `read` are numbered together from 1, and those whose numbers are among the failing ones fail.
/// The count of faults rises at these calls alone, so a missing name does not raise it.
#[derive(Drop)]
pub struct MemoryInputs {
    files: Files,
    count: CallCount,
    most: usize,
    current: Option<usize>,
    at: usize,
    given: u64,
    faults_before: u64,
    begun: u64,
    had_left: bool,
    ghost gives_some: { 0 < most },
}

impl MemoryInputs {
    ghost use Rattle.outside_io.specs.InMemory.{input_calls, most_given};

    /// Inputs that have begun none of these files. They fail at these calls, and a read gives at most `most` bytes.
    pub fn new(files: Files, failing: Calls, most: usize) -> MemoryInputs
        requires { 0 < most }
        ensures files { ⟦<MemoryInputs as Inputs>⟧.files result ≡ Some files }
        ensures left { ⟦<MemoryInputs as Inputs>⟧.left result ≡ Some [] }
        ensures given { ⟦<MemoryInputs as Inputs>⟧.given result ≡ 0 }
        ensures faults { ⟦<MemoryInputs as Inputs>⟧.faults result ≡ 0 }
        ensures faults_before { ⟦<MemoryInputs as Inputs>⟧.faults_before result ≡ 0 }
        ensures begun { ⟦<MemoryInputs as Inputs>⟧.begun result ≡ 0 }
        ensures had_left { ⟦<MemoryInputs as Inputs>⟧.had_left result ≡ Some false }
        ensures calls { input_calls result ≡ record { failing = failing; calls = 0; faults = 0 } }
        ensures most { most_given result ≡ most }
    {
        MemoryInputs {
            files,
            count: CallCount::new(failing),
            most,
            current: None,
            at: 0,
            given: 0,
            faults_before: 0,
            begun: 0,
            had_left: false,
        }
    }
}

impl Inputs for MemoryInputs {
    ghost use Rattle.outside_io.specs.CallCount.{FailsNext, count_after};
    ghost use Rattle.outside_io.specs.InMemory.{input_calls, most_given};

    ghost files = { λ m. Some m.files };

    ghost left = { λ m. Some (rest_of m.files m.current m.at) };

    ghost given = { λ m. m.given };

    ghost faults = { λ m. m.count.faults };

    ghost faults_before = { λ m. m.faults_before };

    ghost begun = { λ m. m.begun };

    ghost had_left = { λ m. Some m.had_left };

    ghost tells_left = { λ m. refl };

    ghost tells_had_left = { λ m. refl };

    fn begin(&mut self, name: &str) -> Result<(), Failed>
        ensures opened { OnOk result (Opens (⟦<Self as Inputs>⟧.files self.old) name.now (⟦<Self as Inputs>⟧.left self.new)) }
        ensures closed { OnErr result (⟦<Self as Inputs>⟧.left self.new ≡ option_map (λ _. []) (⟦<Self as Inputs>⟧.files self.old)) }
        ensures cause { OnErr result (Rises (⟦<Self as Inputs>⟧.faults self.old) (⟦<Self as Inputs>⟧.faults self.new) ⊎ IsMissing (⟦<Self as Inputs>⟧.files self.old) name.now) }

        ensures files { ⟦<Self as Inputs>⟧.files self.new ≡ ⟦<Self as Inputs>⟧.files self.old }
        ensures given { ⟦<Self as Inputs>⟧.given self.new ≡ 0 }
        ensures faults { ⟦<Self as Inputs>⟧.faults self.old ≤ ⟦<Self as Inputs>⟧.faults self.new }
        ensures faults_before { ⟦<Self as Inputs>⟧.faults_before self.new ≡ ⟦<Self as Inputs>⟧.faults self.old }
        ensures begun { ⟦<Self as Inputs>⟧.begun self.new ≡ (⟦<Self as Inputs>⟧.begun self.old + 1) % 2 ^ 64 }
        ensures had_left { ⟦<Self as Inputs>⟧.had_left self.new ≡ option_map has_bytes (⟦<Self as Inputs>⟧.left self.old) }

        // It fails exactly where the call's number is among the failing ones or the name is missing.
        ensures fails { IsErr result ↔ (FailsNext (input_calls self.old) ⊎ IsMissing (⟦<Self as Inputs>⟧.files self.old) name.now) }
        // The count of faults rises at these numbers alone.
        ensures fault { FailsNext (input_calls self.old) → input_calls self.new ≡ count_after (input_calls self.old) true }
        ensures no_fault { ¬ FailsNext (input_calls self.old) → input_calls self.new ≡ count_after (input_calls self.old) false }
        ensures most { most_given self.new ≡ most_given self.old }
    {
        self.had_left = !self.files.rest(self.current, self.at).is_empty();
        self.current = None;
        self.at = 0;
        self.given = 0;
        self.faults_before = self.count.faults;
        self.begun = self.begun.wrapping_add(1);
        if self.count.next_fails() {
            return Err(Failed);
        }
        self.current = self.files.find(name);
        if self.current.is_some() {
            Ok(())
        } else {
            Err(Failed)
        }
    }

    fn read(&mut self, buf: &mut [u8]) -> Result<usize, Failed>
        ensures within { IfOk result (λ n. n ≤ length buf.new) }
        ensures gives { IfOk result (λ n. ⟦<Self as Inputs>⟧.left self.old ≡ prepend_known (take n buf.new) (⟦<Self as Inputs>⟧.left self.new)) }
        ensures end { IfOk result (λ n. n ≡ 0 → 0 < length buf.new → IsAtEnd (⟦<Self as Inputs>⟧.left self.new)) }
        ensures given { IfOk result (λ n. ⟦<Self as Inputs>⟧.given self.new ≡ capped_sum (⟦<Self as Inputs>⟧.given self.old) n) }
        ensures nothing { OnErr result (⟦<Self as Inputs>⟧.left self.new ≡ ⟦<Self as Inputs>⟧.left self.old) }
        ensures none_given { OnErr result (⟦<Self as Inputs>⟧.given self.new ≡ ⟦<Self as Inputs>⟧.given self.old) }
        ensures cause { OnErr result (Rises (⟦<Self as Inputs>⟧.faults self.old) (⟦<Self as Inputs>⟧.faults self.new)) }

        ensures files { ⟦<Self as Inputs>⟧.files self.new ≡ ⟦<Self as Inputs>⟧.files self.old }
        ensures faults { ⟦<Self as Inputs>⟧.faults self.old ≤ ⟦<Self as Inputs>⟧.faults self.new }
        ensures faults_before { ⟦<Self as Inputs>⟧.faults_before self.new ≡ ⟦<Self as Inputs>⟧.faults_before self.old }
        ensures begun { ⟦<Self as Inputs>⟧.begun self.new ≡ ⟦<Self as Inputs>⟧.begun self.old }
        ensures had_left { ⟦<Self as Inputs>⟧.had_left self.new ≡ ⟦<Self as Inputs>⟧.had_left self.old }

        // It fails exactly where the call's number is among the failing ones, and gives no more than it may.
        ensures fails { IsErr result ↔ FailsNext (input_calls self.old) }
        ensures counts { input_calls self.new ≡ count_after (input_calls self.old) (is_err result) }
        ensures amount { IfOk result (λ n. n ≤ most_given self.old) }
        ensures most { most_given self.new ≡ most_given self.old }
    {
        if self.count.next_fails() {
            return Err(Failed);
        }
        let rest = self.files.rest(self.current, self.at);
        let n = rest.len().min(buf.len()).min(self.most);
        buf[..n].copy_from_slice(&rest[..n]);
        self.at += n;
        self.given = self.given.saturating_add(n as u64);
        Ok(n)
    }
}

/// A sink in memory, which tells what was written.
///
/// Calls of `write` are numbered from 1, and those whose numbers are among the failing ones fail. A `write` that finds
/// no memory for its bytes fails too. The count of faults rises at each.
#[derive(Drop)]
pub struct MemorySink {
    bytes: Vec<u8>,
    count: CallCount,
    most: usize,
    ghost takes_some: { 0 < most },
}

impl MemorySink {
    ghost use Rattle.outside_io.specs.InMemory.{sink_calls, most_taken};

    /// An empty sink. It fails at these calls, and a write takes at most `most` bytes.
    pub fn new(alloc: Global, failing: Calls, most: usize) -> MemorySink
        requires { 0 < most }
        ensures written { ⟦<MemorySink as Sink>⟧.written result ≡ Some [] }
        ensures faults { ⟦<MemorySink as Sink>⟧.faults result ≡ 0 }
        ensures calls { sink_calls result ≡ record { failing = failing; calls = 0; faults = 0 } }
        ensures most { most_taken result ≡ most }
    {
        MemorySink {
            bytes: Vec::new(alloc),
            count: CallCount::new(failing),
            most,
        }
    }

    /// What was written.
    pub fn written(&self) -> &[u8]
        ensures { ⟦<MemorySink as Sink>⟧.written self.now ≡ Some result.now }
    {
        self.bytes.as_slice()
    }
}

impl Sink for MemorySink {
    ghost use Rattle.outside_io.specs.CallCount.{FailsNext, count_after};
    ghost use Rattle.outside_io.specs.InMemory.{sink_calls, most_taken};

    ghost written = { λ m. Some m.bytes.items };

    ghost faults = { λ m. m.count.faults };

    fn write(&mut self, piece: &[u8]) -> Result<usize, Failed>
        ensures within { IfOk result (λ n. n ≤ length piece.now) }
        ensures takes { IfOk result (λ n. ⟦<Self as Sink>⟧.written self.new ≡ append_known (⟦<Self as Sink>⟧.written self.old) (take n piece.now)) }
        ensures some { IfOk result (λ n. 0 < length piece.now → 0 < n) }
        ensures nothing { OnErr result (⟦<Self as Sink>⟧.written self.new ≡ ⟦<Self as Sink>⟧.written self.old) }
        ensures cause { OnErr result (Rises (⟦<Self as Sink>⟧.faults self.old) (⟦<Self as Sink>⟧.faults self.new)) }
        ensures faults { ⟦<Self as Sink>⟧.faults self.old ≤ ⟦<Self as Sink>⟧.faults self.new }

        // It fails where the call's number is among the failing ones, and takes no more than it may. Each failing counts.
        ensures fails { FailsNext (sink_calls self.old) → IsErr result }
        ensures counts { sink_calls self.new ≡ count_after (sink_calls self.old) (is_err result) }
        ensures amount { IfOk result (λ n. n ≤ most_taken self.old) }
        ensures most { most_taken self.new ≡ most_taken self.old }
    {
        let n = piece.len().min(self.most);
        if self.count.next_fails() {
            return Err(Failed);
        }
        if self.bytes.extend_from_slice(&piece[..n]).is_err() {
            self.count.raise();
            return Err(Failed);
        }
        Ok(n)
    }
}
