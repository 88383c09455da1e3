use crate::disk::FileDisk;
use carol_disk::Failed;
use std::alloc::Global;
use std::fs::File;
use std::io::{self, Read, Seek, SeekFrom, Write};

/// What a disk asks of a file.
pub trait DiskFile: Drop {
    /// Writes the bytes from this place on.
    fn put(&mut self, at: u64, bytes: &[u8]) -> Result<(), Failed>;

    /// Ends the file after so many bytes.
    fn shorten(&mut self, end: u64) -> Result<(), Failed>;

    /// Brings all that was written to the disk.
    fn flush_all(&mut self) -> Result<(), Failed>;
}

impl DiskFile for File {
    fn put(&mut self, at: u64, bytes: &[u8]) -> Result<(), Failed> {
        match put_bytes(self, at, bytes) {
            Ok(()) => Ok(()),
            Err(_) => Err(Failed),
        }
    }

    fn shorten(&mut self, end: u64) -> Result<(), Failed> {
        match self.set_len(end) {
            Ok(()) => Ok(()),
            Err(_) => Err(Failed),
        }
    }

    fn flush_all(&mut self) -> Result<(), Failed> {
        match self.sync_all() {
            Ok(()) => Ok(()),
            Err(_) => Err(Failed),
        }
    }
}

// Writes the bytes of a file from this place on.
fn put_bytes(file: &mut File, at: u64, bytes: &[u8]) -> io::Result<()> {
    file.seek(SeekFrom::Start(at))?;
    file.write_all(bytes)
}

/// A disk over an opened file, which is read whole.
pub fn open_file(alloc: Global, mut file: File) -> io::Result<FileDisk<File>> {
    let mut bytes = Vec::new(alloc);
    file.read_to_end(&mut bytes)?;
    Ok(FileDisk::new(file, bytes))
}
