ghost use Rattle.std.specs.Prelude.{◌≡◌, ◌+◌, ◌-◌, ◌^◌, ◌≤◌, min, None, IfOk, IfSome, OnOk, IsErrOf, vec_len};
ghost use Rattle.edge.specs.Causes.{HasShelfCause};

use crate::{Shelf, ShelfError};
use std::alloc::Global;
use std::fs;
use std::io::{ErrorKind, Read};
use std::marker::Model;
use std::rt::Files;

/// The most bytes that are read of a file.
const MAX_SHEET: usize = 67_108_864;

/// Files as a shelf: a fetch reads the file of that name. A file that isn't there is no pair; one of more than
/// 67,108,864 bytes counts as a fault.
#[derive(Drop)]
pub struct FileShelf<R: Files + Drop> {
    files: R,
    faults: u64,
}

impl<R: Files + Drop> Model for FileShelf<R> {
    ghost use Rattle.edge.specs.Adapters.{Adapter};

    ghost Value = { Adapter R };

    ghost view = { λ s. record { inner = s.files; faults = s.faults } };
}

impl<R: Files + Drop> FileShelf<R> {
    /// A shelf that has not failed yet. `files` is the runtime, or a `&` to it.
    pub fn new(files: R) -> FileShelf<R>
        ensures { result ≡ record { inner = files; faults = 0 } }
    {
        FileShelf { files, faults: 0 }
    }
}

impl<R: Files + Drop> Shelf for FileShelf<R> {
    ghost pairs = { λ _. None };

    ghost faults = { λ s. s.faults };

    fn fetch(&mut self, alloc: Global, name: &str) -> Result<Option<Vec<u8>>, ShelfError>
        ensures cause { HasShelfCause self.old.faults self.new.faults result }
        ensures ok { OnOk result (self.new ≡ self.old) }
        ensures failed { IsErrOf result ShelfError.Failed → self.new ≡ record self.old { faults = min (self.old.faults + 1) (2 ^ 64 - 1) } }
        ensures memory { IsErrOf result ShelfError.Memory → self.new ≡ self.old }
    {
        let result = read_file(&self.files, alloc, name);
        if let Err(ShelfError::Failed) = result {
            self.faults = self.faults.saturating_add(1);
        }
        result
    }
}

// The bytes of the file of this name, or None where there is no such file.
fn read_file<R: Files>(
    files: &R,
    alloc: Global,
    name: &str,
) -> Result<Option<Vec<u8>>, ShelfError> {
    match fs::open(files, name) {
        Ok(file) => Ok(Some(read_sheet(alloc, file)?)),
        Err(error) if error.kind() == ErrorKind::NotFound => Ok(None),
        Err(_) => Err(ShelfError::Failed),
    }
}

// All bytes that a reader gives, if they are few enough.
fn read_sheet<R: Read + Drop>(alloc: Global, file: R) -> Result<Vec<u8>, ShelfError>
    ensures whole { IfOk result (λ bytes. IfSome (R.remaining file) (λ all. bytes.items ≡ all)) }
    ensures bound { IfOk result (λ bytes. vec_len bytes ≤ MAX_SHEET) }
{
    let mut bytes = Vec::new(alloc);
    match file.take(MAX_SHEET as u64 + 1).read_to_end(&mut bytes) {
        Ok(_) if bytes.len() <= MAX_SHEET => Ok(bytes),
        Ok(_) => Err(ShelfError::Failed),
        Err(error) if error.kind() == ErrorKind::OutOfMemory => Err(ShelfError::Memory),
        Err(_) => Err(ShelfError::Failed),
    }
}
