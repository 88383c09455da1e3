//! The program that keeps a history in a file: standard input says by what program, in what scene
//! and by what script it goes on.
#![tactic(auto)]

ghost use Rattle.carol_program.specs.Rules.{rules_in};
ghost use Rattle.carol_program.specs.Scenes.{IsValidScene};

use carol_file_disk::{FileDisk, open_file};
use carol_kept_run::{Broken, Ready, keep_on, prepare};
use carol_outer::{Sink, StdinSource, StdoutSink, read_all, write_all};
use carol_reply::{Halt, Reply, Status, Stop, number};
use carol_syntax::MOST_TEXT_BYTES;
use std::alloc::Global;
use std::fs::{File, OpenOptions};
use std::process::ExitCode;
use std::rt::{Env, Files};
use std::thread::Threads;
use std::{env, io};

// The answer to words that are no name of a file.
const USAGE: &[u8] = b"usage: carol_kept FILE\n";

// The file can't be opened, made or read.
const FILE_READ_FAULT: &[u8] = b"file read fault\n";

// Writing to the file failed, or bringing what was written to the disk.
const FILE_WRITE_FAULT: &[u8] = b"file write fault\n";

fn main(rt: HostRuntime) -> ExitCode {
    let mut sink = StdoutSink::new(io::writer(&rt));
    let status = match path(&rt) {
        Some(path) => kept(&rt, &path, &mut sink),
        None => say(&mut sink, Status::Usage, USAGE),
    };
    ExitCode::from(number(status))
}

// The single word behind the program's name.
fn path<R: Env + AllocGlobal>(rt: &R) -> Option<String> {
    let mut words = env::args(rt).ok()?.skip(1);
    let path = words.next()?;
    match words.next() {
        Some(_) => None,
        None => Some(path),
    }
}

// Goes on with the history in the file by what standard input says.
fn kept<R: Files<File = File> + Threads + Sync + Input + AllocGlobal, K: Sink>(
    rt: &R,
    path: &str,
    sink: &mut K,
) -> Status {
    let mut source = StdinSource::new(rt.reader());
    let bytes = match read_all(rt.alloc(), &mut source, MOST_TEXT_BYTES) {
        Ok(bytes) => bytes,
        Err(error) => return stopped(sink, Stop::from(error)),
    };
    let ready = match prepare(rt, rt.alloc(), &bytes) {
        Ok(ready) => ready,
        Err(Halt::Told(reply)) => return answered(sink, &reply),
        Err(Halt::NoMemory) => return stopped(sink, Stop::NoMemory),
    };
    match disk(rt, path) {
        Ok(disk) => told(rt.alloc(), disk, ready, sink),
        Err(_) => say(sink, Status::ReadFault, FILE_READ_FAULT),
    }
}

// The file of this path as a disk. It is made where there is none.
fn disk<R: Files<File = File> + AllocGlobal>(rt: &R, path: &str) -> io::Result<FileDisk<File>> {
    let file = OpenOptions::new()
        .read(true)
        .write(true)
        .create(true)
        .open(rt, path)?;
    open_file(rt.alloc(), file)
}

// Goes on with the history on the disk, and tells what that comes to.
fn told<K: Sink>(alloc: Global, disk: FileDisk<File>, ready: Ready, sink: &mut K) -> Status
    requires { IsValidScene (rules_in ready.accepted.program) ready.scene }
{
    match keep_on(alloc, disk, ready, sink) {
        Ok(reply) => answered(sink, &reply),
        Err(Broken::Disk) => say(sink, Status::WriteFault, FILE_WRITE_FAULT),
        Err(Broken::NoMemory) => stopped(sink, Stop::NoMemory),
        Err(Broken::Sink) => Status::WriteFault,
    }
}

// Writes a reply.
fn answered<K: Sink>(sink: &mut K, reply: &Reply) -> Status {
    say(sink, reply.status, &reply.text)
}

// Writes what kept it from being done.
fn stopped<K: Sink>(sink: &mut K, stop: Stop) -> Status {
    say(sink, stop.status(), stop.text())
}

// Writes the text of a status, and answers that status unless writing failed.
fn say<K: Sink>(sink: &mut K, status: Status, text: &[u8]) -> Status {
    match write_all(sink, text) {
        Ok(()) => status,
        Err(_) => Status::WriteFault,
    }
}
