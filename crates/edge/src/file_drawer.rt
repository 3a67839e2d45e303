ghost use Rattle.std.specs.Prelude.{◌≡◌, None};
ghost use Rattle.edge.specs.Causes.{HasCause};
ghost use Rattle.edge.specs.Adapters.{CountsErrors};

use crate::{Drawer, Failed};
use std::fs::{OpenOptions, Permissions};
use std::io::{ErrorKind, Write};
use std::marker::Model;
use std::rt::Files;
use std::{fs, io};

/// The most bytes of a path, and so of the name of the file beside. A longer name is no file's.
const MAX_PATH: usize = 4_096;

/// What the name of the file beside ends with.
const ENDING: &str = ".part";

/// Files as a drawer: a put makes the file of that name, or puts a new one in its place, so that a put that fails
/// leaves what was there. The text is written to a file `NAME.part`, which is then renamed, with the permissions of
/// the file that was there. Where the name is no ordinary file (a link, a device, a pipe), or where no file can be
/// made beside it, the text is written straight, and a put that fails then may leave a front of it.
#[derive(Drop)]
pub struct FileDrawer<R: Files + Drop> {
    files: R,
    faults: u64,
}

impl<R: Files + Drop> Model for FileDrawer<R> {
    ghost use Rattle.edge.specs.Adapters.{Adapter};

    ghost Value = { Adapter R };

    ghost view = { λ s. record { inner = s.files; faults = s.faults } };
}

impl<R: Files + Drop> FileDrawer<R> {
    /// A drawer that has not failed yet. `files` is the runtime, or a `&` to it.
    pub fn new(files: R) -> FileDrawer<R>
        ensures { result ≡ record { inner = files; faults = 0 } }
    {
        FileDrawer { files, faults: 0 }
    }
}

impl<R: Files + Drop> Drawer for FileDrawer<R> {
    ghost puts = { λ _. None };

    ghost faults = { λ s. s.faults };

    fn put(&mut self, name: &str, bytes: &[u8]) -> Result<(), Failed>
        ensures cause { HasCause self.old.faults self.new.faults result }
        ensures faults { CountsErrors self.old.faults self.new.faults result }
    {
        match put_file(&self.files, name, bytes) {
            Ok(()) => Ok(()),
            Err(_) => {
                self.faults = self.faults.saturating_add(1);
                Err(Failed)
            }
        }
    }
}

fn put_file<R: Files>(files: &R, name: &str, bytes: &[u8]) -> io::Result<()> {
    let kept = match fs::symlink_metadata(files, name) {
        Ok(found) if found.is_file() => Some(found.permissions()),
        Err(error) if error.kind() == ErrorKind::NotFound => None,
        // It's no ordinary file, or nothing is known of it.
        _ => return fs::write(files, name, bytes),
    };
    let mut path = [0; MAX_PATH];
    let Some(beside) = name_beside(name, &mut path) else {
        return fs::write(files, name, bytes);
    };
    let Ok(file) = OpenOptions::new()
        .write(true)
        .create_new(true)
        .open(files, beside)
    else {
        return fs::write(files, name, bytes);
    };
    let replaced = replace(files, file, beside, name, kept, bytes);
    if replaced.is_err() {
        // Nothing stands there any more where this fails too.
        let _left = fs::remove_file(files, beside);
    }
    replaced
}

// The name with the ending, in the front of `path`, where it fits there.
fn name_beside<'a>(name: &str, path: &'a mut [u8; MAX_PATH]) -> Option<&'a str> {
    let length = name.len();
    let end = length.checked_add(ENDING.len())?;
    if end > MAX_PATH {
        return None;
    }
    path[..length].copy_from_slice(name.as_bytes());
    path[length..end].copy_from_slice(ENDING.as_bytes());
    str::from_utf8(&path[..end]).ok()
}

// Writes the new file whole, closes it, and renames it.
fn replace<R: Files>(
    files: &R,
    file: R::File,
    beside: &str,
    name: &str,
    kept: Option<Permissions>,
    bytes: &[u8],
) -> io::Result<()> {
    let mut file = file;
    file.write_all(bytes)?;
    drop(file);
    if let Some(permissions) = kept {
        fs::set_permissions(files, beside, permissions)?;
    }
    fs::rename(files, beside, name)
}
