// Real files and real writers. No clause says what they hold.
ghost use Rattle.std.specs.Prelude.{◌≡◌, None, refl};

use crate::traits::{Failed, Inputs, Sink};
use std::fs;
use std::io::{Read, Write};
use std::rt::Files;

/// Files of the system by their paths. They tell nothing of what they hold.
///
/// A file that is not there is a fault, as is every other error of the system.
#[derive(Drop)]
pub struct FileInputs<'r, R: Files> {
    rt: &'r R,
    file: Option<R::File>,
    given: u64,
    faults: u64,
    faults_before: u64,
    begun: u64,
}

impl<'r, R: Files> FileInputs<'r, R> {
    /// Inputs that have begun no file.
    pub fn new(rt: &'r R) -> FileInputs<'r, R>
        ensures given { ⟦<FileInputs<'r, R> as Inputs>⟧.given result ≡ 0 }
        ensures faults { ⟦<FileInputs<'r, R> as Inputs>⟧.faults result ≡ 0 }
        ensures faults_before { ⟦<FileInputs<'r, R> as Inputs>⟧.faults_before result ≡ 0 }
        ensures begun { ⟦<FileInputs<'r, R> as Inputs>⟧.begun result ≡ 0 }
    {
        FileInputs {
            rt,
            file: None,
            given: 0,
            faults: 0,
            faults_before: 0,
            begun: 0,
        }
    }
}

impl<'r, R: Files> Inputs for FileInputs<'r, R> {
    ghost files = { λ m. None };

    ghost left = { λ m. None };

    ghost given = { λ m. m.given };

    ghost faults = { λ m. m.faults };

    ghost faults_before = { λ m. m.faults_before };

    ghost begun = { λ m. m.begun };

    ghost had_left = { λ m. None };

    ghost tells_left = { λ m. refl };

    ghost tells_had_left = { λ m. refl };

    fn begin(&mut self, name: &str) -> Result<(), Failed> {
        self.given = 0;
        self.faults_before = self.faults;
        self.begun = self.begun.wrapping_add(1);
        self.file = None;
        match fs::open(self.rt, name) {
            Ok(file) => {
                self.file = Some(file);
                Ok(())
            }
            Err(_) => {
                self.faults = self.faults.saturating_add(1);
                Err(Failed)
            }
        }
    }

    fn read(&mut self, buf: &mut [u8]) -> Result<usize, Failed> {
        let read = match &mut self.file {
            Some(file) => file.read(buf),
            None => Ok(0),
        };
        match read {
            Ok(n) => {
                self.given = self.given.saturating_add(n as u64);
                Ok(n)
            }
            Err(_) => {
                self.faults = self.faults.saturating_add(1);
                Err(Failed)
            }
        }
    }
}

/// A writer of std as a sink. It tells nothing of what was written.
///
/// An error of the writer is a fault, and so is a write that takes no byte of a piece that has
/// some. A writer that holds bytes back is its owner's to flush.
#[derive(Drop)]
pub struct StreamSink<W: Write> {
    writer: W,
    faults: u64,
}

impl<W: Write> StreamSink<W> {
    /// A sink that writes to this writer.
    pub fn new(writer: W) -> StreamSink<W>
        ensures { ⟦<StreamSink<W> as Sink>⟧.faults result ≡ 0 }
    {
        StreamSink { writer, faults: 0 }
    }
}

impl<W: Write> Sink for StreamSink<W> {
    ghost written = { λ m. None };

    ghost faults = { λ m. m.faults };

    fn write(&mut self, piece: &[u8]) -> Result<usize, Failed> {
        if piece.is_empty() {
            return Ok(0);
        }
        match self.writer.write(piece) {
            Ok(0) | Err(_) => {
                self.faults = self.faults.saturating_add(1);
                Err(Failed)
            }
            Ok(n) => Ok(n),
        }
    }
}
