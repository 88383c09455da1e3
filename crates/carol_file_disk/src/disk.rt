ghost use Rattle.std.specs.Prelude.{◌≡◌, ◌≤◌, length, None, IsErr};
ghost use Rattle.carol_outer.specs.Faults.{one_more};
ghost use Rattle.carol_disk.specs.Disk.{Only};
ghost use Rattle.carol_disk.specs.Tapes.{LeftSince, MayLeave, kept_after, seen_after};

use crate::file::DiskFile;
use carol_disk::{Disk, Failed, MemoryDisk};

/// A disk over a file. Each write, cut and sync is made on the file first, and noted in memory once
/// it succeeded; reads are answered from the notes.
#[derive(Drop)]
pub struct FileDisk<F: DiskFile> {
    file: F,
    notes: MemoryDisk,
    faults: u64,
}

impl<F: DiskFile> FileDisk<F> {
    /// A disk over a file that has these bytes.
    pub fn new(file: F, bytes: Vec<u8>) -> FileDisk<F>
        ensures seen { ⟦<FileDisk<F> as Disk>⟧.seen result ≡ bytes.items }
        ensures kept { ⟦<FileDisk<F> as Disk>⟧.kept result ≡ bytes.items }
        ensures durable { Only bytes.items (⟦<FileDisk<F> as Disk>⟧.may_leave result) }
        ensures moment { ⟦<FileDisk<F> as Disk>⟧.moment result ≡ 0 }
        ensures faults { ⟦<FileDisk<F> as Disk>⟧.faults result ≡ 0 }
        ensures limit { ⟦<FileDisk<F> as Disk>⟧.limit result ≡ None }
    {
        FileDisk {
            file,
            notes: MemoryDisk::new(bytes, None),
            faults: 0,
        }
    }

    /// The file.
    pub fn into_file(self) -> F {
        self.file
    }

    // Counts a call that failed.
    fn fail(&mut self) -> Result<(), Failed>
        ensures failed { IsErr result }
        ensures notes { self.new.notes ≡ self.old.notes }
        ensures counted { self.new.faults ≡ one_more self.old.faults }
        ensures risen { self.old.faults ≤ self.new.faults }
    {
        self.faults = self.faults.saturating_add(1);
        Err(Failed)
    }
}

impl<F: DiskFile> Disk for FileDisk<F> {
    ghost use Rattle.carol_disk.specs.Laws.{counts_now, only_now, seen_may_stay};

    ghost seen = { λ d. seen_after d.notes.first d.notes.past };

    ghost kept = { λ d. kept_after d.notes.first d.notes.past };

    ghost may_leave = { λ d c. MayLeave d.notes.first d.notes.past c };

    ghost moment = { λ d. length d.notes.past };

    ghost left_since = { λ d t c. LeftSince d.notes.first t d.notes.past c };

    ghost faults = { λ d. d.faults };

    ghost limit = { λ d. d.notes.stop };

    ghost seen_may_stay = { λ d. seen_may_stay d.notes.first d.notes.past };

    ghost counts_now = { λ d t c le now. counts_now d.notes.first d.notes.past t c le now };

    ghost only_now = { λ d c left. only_now d.notes.first d.notes.past c left };

    fn read(&mut self, at: u64, into: &mut [u8]) -> Result<usize, Failed> {
        match self.notes.read(at, into) {
            Ok(count) => Ok(count),
            Err(Failed) => {
                self.faults = self.faults.saturating_add(1);
                Err(Failed)
            }
        }
    }

    fn write_at(&mut self, at: u64, bytes: &[u8]) -> Result<(), Failed> {
        if self.file.put(at, bytes).is_err() {
            return self.fail();
        }
        match self.notes.write_at(at, bytes) {
            Ok(()) => Ok(()),
            Err(Failed) => self.fail(),
        }
    }

    fn cut(&mut self, end: u64) -> Result<(), Failed> {
        if self.file.shorten(end).is_err() {
            return self.fail();
        }
        match self.notes.cut(end) {
            Ok(()) => Ok(()),
            Err(Failed) => self.fail(),
        }
    }

    fn sync(&mut self) -> Result<(), Failed> {
        if self.file.flush_all().is_err() {
            return self.fail();
        }
        match self.notes.sync() {
            Ok(()) => Ok(()),
            Err(Failed) => self.fail(),
        }
    }
}
