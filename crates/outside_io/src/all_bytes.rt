// Files and texts as a whole.
ghost use Rattle.std.specs.Prelude.{◌≡◌, ◌⊎◌, ◌↔◌, ◌≤◌, ◌<◌, ◌+◌, ◌%◌, ◌^◌, length, IfOk, OnOk, OnErr, IsErrOf, option_map};
ghost use Rattle.std.specs.Io.KnownBytes.{append_known, IsAtEnd};
ghost use Rattle.outside_io.specs.Outside.{HasBytes, IsLonger, IsMissing, Rises, StandsBehind, WritesFront, has_bytes};

use crate::traits::{Failed, Inputs, Output, Sink};
use std::alloc::Global;

/// Why a file could not be read whole.
#[derive(Clone, Copy, Debug, PartialEq, Eq)]
pub enum ReadFault {
    /// A call on the inputs failed.
    Input,
    /// The file is longer than it may be.
    TooLong,
    /// Memory was wanting for its bytes.
    Memory,
}

const CHUNK: usize = 65_536;

/// Reads the named file to its end, by one `begin` and then reads. At any fault the inputs stand where the last call
/// left them.
///
/// `Input` comes only where the count of faults rose in this call or the name is missing, and always for a missing
/// name. `TooLong` comes exactly where more than `max` bytes were given since the `begin`.
pub fn read_all<I: Inputs>(
    alloc: Global,
    inputs: &mut I,
    name: &str,
    max: usize,
) -> Result<Vec<u8>, ReadFault>
    ensures bytes { IfOk result (λ bytes. HasBytes (I.files inputs.old) name.now bytes.items) }
    ensures given { IfOk result (λ bytes. I.given inputs.new ≡ length bytes.items) }
    ensures end { OnOk result (IsAtEnd (I.left inputs.new)) }
    ensures within { IfOk result (λ bytes. length bytes.items ≤ max) }

    ensures input { IsErrOf result ReadFault.Input → Rises (I.faults inputs.old) (I.faults inputs.new) ⊎ IsMissing (I.files inputs.old) name.now }
    ensures missing { IsMissing (I.files inputs.old) name.now → IsErrOf result ReadFault.Input }
    ensures too_long { IsErrOf result ReadFault.TooLong ↔ (max < I.given inputs.new) }
    ensures longer { IsErrOf result ReadFault.TooLong → IsLonger (I.files inputs.old) name.now max }

    // No byte is given and then lost from sight.
    ensures stands { StandsBehind (I.files inputs.old) name.now (I.given inputs.new) (I.left inputs.new) }

    ensures files { I.files inputs.new ≡ I.files inputs.old }
    ensures faults { I.faults inputs.old ≤ I.faults inputs.new }
    ensures faults_before { I.faults_before inputs.new ≡ I.faults inputs.old }
    ensures begun { I.begun inputs.new ≡ (I.begun inputs.old + 1) % 2 ^ 64 }
    ensures had_left { I.had_left inputs.new ≡ option_map has_bytes (I.left inputs.old) }
{
    let mut bytes = Vec::new(alloc);
    let Ok(()) = inputs.begin(name) else {
        return Err(ReadFault::Input);
    };
    let mut chunk = [0u8; CHUNK];
    loop {
        let Ok(n) = inputs.read(&mut chunk) else {
            return Err(ReadFault::Input);
        };
        if n == 0 {
            return Ok(bytes);
        }
        if n > max - bytes.len() {
            return Err(ReadFault::TooLong);
        }
        if bytes.extend_from_slice(&chunk[..n]).is_err() {
            return Err(ReadFault::Memory);
        }
    }
}

/// Writes all the bytes, or at a fault some front of them. It takes no memory of its own.
///
/// `Output` comes only where the sink's count of faults rose in this call.
pub fn write_all<O: Sink>(sink: &mut O, bytes: &[u8]) -> Result<(), Output>
    ensures ok { OnOk result (O.written sink.new ≡ append_known (O.written sink.old) bytes.now) }
    ensures err { OnErr result (WritesFront (O.written sink.old) (O.written sink.new) bytes.now) }
    ensures cause { OnErr result (Rises (O.faults sink.old) (O.faults sink.new)) }
    ensures faults { O.faults sink.old ≤ O.faults sink.new }
{
    let mut rest = bytes;
    while !rest.is_empty() {
        match sink.write(rest) {
            Ok(n) => rest = rest.split_at(n).1,
            Err(Failed) => return Err(Output),
        }
    }
    Ok(())
}
