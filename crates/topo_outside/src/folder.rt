ghost use Rattle.std.specs.Prelude.{◌≡◌, ◌≤◌, None, IsOk, IfOk, OnOk, IsErrOf, option_map};
ghost use Rattle.outside_terms.specs.Shelves.{Gives, KeepsHeld, KeepsOthers, SetsHeld};
ghost use Rattle.topo_outside.specs.Shelves.{ShelfCause};
ghost use Rattle.topo_outside.specs.Memory.{counted};

use crate::counts::counted;
use crate::{Shelf, ShelfFault};
use std::alloc::Global;
use std::fs::{File, Files, OpenFile, Permissions};
use std::io::{ErrorKind, Read, Write};
use std::{fs, io};

// The greatest number of bytes of a file that is read.
const FILE_LIMIT: u64 = 1_073_741_824;

// All bytes of an open file; an error where there are more than the limit.
fn read_whole<F: Read + Drop>(alloc: Global, file: F) -> io::Result<Vec<u8>> {
    let mut bytes = Vec::new(alloc);
    file.take(FILE_LIMIT + 1).read_to_end(&mut bytes)?;
    if bytes.len() as u64 > FILE_LIMIT {
        return Err(io::Error::from(ErrorKind::FileTooLarge));
    }
    Ok(bytes)
}

// The bytes of the file of this path, where there is one.
fn read_file<R: Files>(files: &R, alloc: Global, path: &str) -> io::Result<Option<Vec<u8>>> {
    match File::open(files, path) {
        Ok(file) => Ok(Some(read_whole(alloc, file)?)),
        Err(error) if error.kind() == ErrorKind::NotFound => Ok(None),
        Err(error) => Err(error),
    }
}

// Gives a new file these permissions, where they are given, and these bytes.
fn fill<F: Write + OpenFile + Drop>(
    mut file: F,
    permissions: Option<Permissions>,
    bytes: &[u8],
) -> io::Result<()> {
    if let Some(permissions) = permissions {
        file.set_permissions(permissions)?;
    }
    file.write_all(bytes)?;
    file.sync_all()
}

// Writes the bytes beside the path and moves them there. Where this fails, what was begun beside it is taken away again.
fn replace_file<R: Files>(
    files: &R,
    alloc: Global,
    path: &str,
    permissions: Option<Permissions>,
    bytes: &[u8],
) -> io::Result<()> {
    let beside = format!(in alloc; "{path}.new")?;
    let file = File::create_new(files, beside.as_str())?;
    let moved = match fill(file, permissions, bytes) {
        Ok(()) => fs::rename(files, beside.as_str(), path),
        Err(error) => Err(error),
    };
    if moved.is_err() {
        let _ = fs::remove_file(files, beside.as_str());
    }
    moved
}

// Puts the bytes into the file of this path. A link, a pipe or a device is written to where it stands.
fn write_file<R: Files>(files: &R, alloc: Global, path: &str, bytes: &[u8]) -> io::Result<()> {
    match fs::symlink_metadata(files, path) {
        Ok(found) if found.is_file() => {
            replace_file(files, alloc, path, Some(found.permissions()), bytes)
        }
        Ok(_) => fs::write(files, path, bytes),
        Err(error) if error.kind() == ErrorKind::NotFound => {
            replace_file(files, alloc, path, None, bytes)
        }
        Err(error) => Err(error),
    }
}

/// The files of the system as a shelf: a name is a path, as it was given. Its count of faults rises at each error, except where
/// memory runs out.
///
/// A path at which nothing stands holds nothing; a file of more than 1,073,741,824 bytes, a folder, and a path through a file are
/// errors. `put` writes a file of the name with `.new` behind it and moves it to its place, so that where it fails the old file
/// stands as it was. It fails where that file beside is there already.
#[derive(Drop)]
pub struct FolderShelf<R: Files + Drop> {
    files: R,
    faults: u64,
}

impl<R: Files + Drop> FolderShelf<R> {
    /// The shelf over these files, which have not failed so far.
    pub fn new(files: R) -> Self
        ensures files { result.files ≡ files }
        ensures faults { result.faults ≡ 0 }
    {
        FolderShelf { files, faults: 0 }
    }

    /// How often a call has failed.
    pub fn faults(&self) -> u64
        ensures { result ≡ self.now.faults }
    {
        self.faults
    }

    // The fault for an error, which is counted unless memory ran out.
    fn fault_for(&mut self, error: &io::Error) -> ShelfFault
        ensures later { self.old.faults ≤ self.new.faults }
        ensures failed { result ≡ ShelfFault.Failed → self.new.faults ≡ counted self.old.faults }
    {
        if error.kind() == ErrorKind::OutOfMemory {
            return ShelfFault::NoMemory;
        }
        self.faults = counted(self.faults);
        ShelfFault::Failed
    }
}

impl<R: Files + Drop> Shelf for FolderShelf<R> {
    ghost held = { λ s. None };

    ghost faults = { λ s. s.faults };

    fn get(&mut self, alloc: Global, name: &str) -> Result<Option<Vec<u8>>, ShelfFault>
        ensures value { IfOk result (λ found. Gives None name.now (option_map (λ v. v.items) found)) }
        ensures kept { KeepsHeld None None }
        ensures cause { ShelfCause self.old.faults self.new.faults result }
        ensures quiet { IsOk result → self.new.faults ≡ self.old.faults }
    {
        match read_file(&self.files, alloc, name) {
            Ok(found) => Ok(found),
            Err(error) => Err(self.fault_for(&error)),
        }
    }

    fn put(&mut self, alloc: Global, name: &str, bytes: &[u8]) -> Result<(), ShelfFault>
        ensures stored { OnOk result (SetsHeld None None name.now bytes.now) }
        ensures others { KeepsOthers None None name.now }
        ensures no_memory { IsErrOf result ShelfFault.NoMemory → KeepsHeld None None }
        ensures cause { ShelfCause self.old.faults self.new.faults result }
        ensures quiet { IsOk result → self.new.faults ≡ self.old.faults }
    {
        match write_file(&self.files, alloc, name, bytes) {
            Ok(()) => Ok(()),
            Err(error) => Err(self.fault_for(&error)),
        }
    }
}
