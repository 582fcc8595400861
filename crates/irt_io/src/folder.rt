//! The working folder as a shelf.

ghost use Rattle.std.specs.Prelude.{◌≡◌, ◌≢◌, ◌≤◌, length, None, IfOk};
ghost use Rattle.irt_base.specs.Valid.{AreBytes};
ghost use Rattle.irt_io.specs.Fault.{IsLater, HasRisen};
ghost use Rattle.irt_io.specs.Files.{Files, IsLoad, IsLoadCause, IsStore, IsStoreCause};

use crate::bytes::are_bytes;
use crate::shelf::{Shelf, ShelfError};
use std::alloc::Global;
use std::fs;
use std::fs::{File, OpenFile};
use std::io::{ErrorKind, Read, Write};
use std::rt::Files;

/// The bytes that one system call reads.
const CHUNK: usize = 4096;

/// How many names beside a file are tried until one is free.
const BESIDE_NAMES: u32 = 1000;

/// The files of the working folder. It tells contracts no file, and counts its faults.
///
/// A file is stored beside its name and then renamed into place, so that a fault or the program's end
/// at any moment leaves what the name held or the new bytes, whole. What was written beside is removed
/// after a fault. No file that is there is written over in between.
#[derive(Drop)]
pub struct FolderShelf<R> {
    rt: R,
    alloc: Global,
    faults: u64,
}

impl<R> FolderShelf<R> {
    ghost use Rattle.irt_io.specs.Edge.{folder_faults};

    /// The working folder of this runtime.
    pub fn new(rt: R, alloc: Global) -> FolderShelf<R>
        ensures { folder_faults result ≡ 0 }
    {
        FolderShelf {
            rt,
            alloc,
            faults: 0,
        }
    }
}

impl<R: Files> Shelf for FolderShelf<R> {
    ghost use Rattle.irt_io.specs.Edge.{folder_faults};

    ghost files = { λ _. None };

    ghost faults = { λ s. folder_faults s };

    fn load(&mut self, alloc: Global, name: &str, limit: usize) -> Result<Vec<u8>, ShelfError> {
        let mut file = match fs::open(&self.rt, name) {
            Ok(file) => file,
            Err(e) => return Err(counted(&mut self.faults, cause_of(e.kind()))),
        };
        match read_up_to(alloc, &mut file, limit) {
            Ok(bytes) => Ok(bytes),
            Err(e) => Err(counted(&mut self.faults, e)),
        }
    }

    fn store(&mut self, name: &str, bytes: &[u8]) -> Result<(), ShelfError> {
        match store_beside(&self.rt, self.alloc, name, bytes) {
            Ok(()) => Ok(()),
            Err(e) => Err(counted(&mut self.faults, e)),
        }
    }
}

/// Counts a failure, where it is one.
fn counted(faults: &mut u64, error: ShelfError) -> ShelfError
    ensures same { result ≡ error }
    ensures later { IsLater faults.old faults.new }
    ensures cause { error ≡ ShelfError.Failed → HasRisen faults.old faults.new }
    ensures kept { error ≢ ShelfError.Failed → faults.new ≡ faults.old }
{
    if error == ShelfError::Failed {
        *faults = faults.saturating_add(1);
    }
    error
}

/// What an error of the system means when a file is opened.
fn cause_of(kind: ErrorKind) -> ShelfError {
    match kind {
        ErrorKind::NotFound => ShelfError::Absent,
        ErrorKind::OutOfMemory => ShelfError::NoMemory,
        _ => ShelfError::Failed,
    }
}

/// All that a file has, if that is at most `limit` bytes.
fn read_up_to<F: Read>(alloc: Global, file: &mut F, limit: usize) -> Result<Vec<u8>, ShelfError>
    ensures bound { IfOk result (λ v. length v.items ≤ limit) }
    ensures bytes { IfOk result (λ v. AreBytes v.items) }
{
    let mut bytes = Vec::new(alloc);
    let mut chunk = [0; CHUNK];
    for _ in 0..u64::MAX {
        let count = match file.read(&mut chunk) {
            Ok(0) => {
                are_bytes(bytes.as_slice());
                return Ok(bytes);
            }
            Ok(count) => count,
            Err(_) => return Err(ShelfError::Failed),
        };
        if count > limit - bytes.len() {
            return Err(ShelfError::TooLong);
        }
        if bytes.extend_from_slice(&chunk[..count]).is_err() {
            return Err(ShelfError::NoMemory);
        }
    }
    Err(ShelfError::Failed)
}

/// Stores bytes under the first free name beside this one, and renames them into place.
fn store_beside<R: Files>(rt: &R, alloc: Global, name: &str, bytes: &[u8]) -> Result<(), ShelfError>
    ensures absent { result ≢ Err ShelfError.Absent }
    ensures long { result ≢ Err ShelfError.TooLong }
{
    for number in 0..BESIDE_NAMES {
        let Ok(beside) = format!(in alloc; "{name}.{number}.new") else {
            return Err(ShelfError::NoMemory);
        };
        match File::create_new(rt, beside.as_str()) {
            Ok(file) => return store_through(rt, file, beside.as_str(), name, bytes),
            Err(e) if e.kind() == ErrorKind::AlreadyExists => {}
            Err(_) => return Err(ShelfError::Failed),
        }
    }
    Err(ShelfError::Failed)
}

/// Writes bytes to a new file of the name `beside`, and renames it. Removes it after a fault.
fn store_through<R: Files>(
    rt: &R,
    file: R::File,
    beside: &str,
    name: &str,
    bytes: &[u8],
) -> Result<(), ShelfError>
    ensures absent { result ≢ Err ShelfError.Absent }
    ensures long { result ≢ Err ShelfError.TooLong }
{
    if is_written(file, bytes) && fs::rename(rt, beside, name).is_ok() {
        return Ok(());
    }
    let _ = fs::remove_file(rt, beside);
    Err(ShelfError::Failed)
}

/// Whether a new file took all bytes, and the system has them on its disk.
fn is_written<F: Write + OpenFile + Drop>(mut file: F, bytes: &[u8]) -> bool {
    file.write_all(bytes).is_ok() && file.sync_all().is_ok()
}
