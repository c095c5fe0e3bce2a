// Files in memory, by name.
ghost use Rattle.std.specs.Prelude.{◌≡◌, ◌↔◌, ◌<◌, ◌+◌, ◌^◌, ◌++◌, ◌∷◌, [], length, Some, None, IfOk, OnOk, OnErr, IsTrue, MatchOption, slice_get, slice_index_or};
ghost use Rattle.outside_io.specs.Outside.{bytes_of};
ghost use Rattle.outside_io.specs.MemoryFiles.{rest_of};

use crate::Memory;
use std::alloc::Global;
use std::marker::Model;

/// A file in memory. A contract sees the pair of its name and its bytes.
#[derive(Drop)]
pub struct FileItem {
    name: String,
    bytes: Vec<u8>,
}

impl Model for FileItem {
    ghost use Rattle.std.specs.Prelude.{List, ℕ};
    ghost use Rattle.std.specs.String.{string_bytes};

    ghost Value = { List ℕ × List ℕ };

    ghost view = { λ file. (string_bytes file.name, file.bytes.items) };
}

impl FileItem {
    /// A file with copies of this name and these bytes.
    pub fn new(alloc: Global, name: &str, bytes: &[u8]) -> Result<FileItem, Memory>
        ensures { IfOk result (λ file. file ≡ (name.now, bytes.now)) }
    {
        let name = String::from_str(alloc, name)?;
        let bytes = Vec::from_slice(alloc, bytes)?;
        Ok(FileItem { name, bytes })
    }

    fn is_named(&self, name: &str) -> bool
        ensures { IsTrue result ↔ (self.now.0 ≡ name.now) }
    {
        self.name.as_str() == name
    }

    fn bytes(&self) -> &[u8]
        ensures { result.now ≡ self.now.1 }
    {
        self.bytes.as_slice()
    }
}

/// A list of files. Where a name is repeated, the first file that has it is the one of that name.
#[derive(Drop)]
pub struct Files {
    items: Vec<FileItem>,
}

impl Model for Files {
    ghost use Rattle.std.specs.Prelude.{List, ℕ};

    ghost Value = { List (List ℕ × List ℕ) };

    ghost view = { λ files. files.items.items };
}

impl Files {
    pub fn new(alloc: Global) -> Files
        ensures { result ≡ [] }
    {
        Files {
            items: Vec::new(alloc),
        }
    }

    pub fn len(&self) -> usize
        ensures { result ≡ length self.now }
    {
        self.items.len()
    }

    pub fn item(&self, i: usize) -> &FileItem
        requires { i < length self.now }
        ensures { slice_get self.now i ≡ Some result.now }
    {
        &self.items[i]
    }

    /// Adds a file at the end.
    pub fn push(&mut self, x: FileItem) -> Result<(), Memory>
        ensures ok { OnOk result (self.new ≡ self.old ++ x ∷ []) }
        ensures err { OnErr result (self.new ≡ self.old) }
    {
        self.items.push(x)?;
        Ok(())
    }

    /// The place of the first file that has the name.
    pub(crate) fn find(&self, name: &str) -> Option<usize>
        ensures { MatchOption result (bytes_of self.now name.now ≡ None)
            (λ i. bytes_of self.now name.now ≡ Some (slice_index_or self.now i ([], [])).1) }
    {
        for (i, file) in self.items.iter().enumerate() {
            if file.is_named(name) {
                return Some(i);
            }
        }
        None
    }

    /// What the file at this place has behind its first bytes. Where no file is begun, there is nothing.
    pub(crate) fn rest(&self, current: Option<usize>, at: usize) -> &[u8]
        ensures rest { result.now ≡ rest_of self.now current at }
        ensures fits { at + length result.now < 2 ^ 64 }
    {
        let Some(i) = current else {
            return &[];
        };
        match self.items.get(i) {
            Some(file) => file.bytes().get(at..).unwrap_or(&[]),
            None => &[],
        }
    }
}
