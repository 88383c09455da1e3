//! The program: the words of its command line, standard input and standard output, and the exit
//! status.
#![tactic(auto)]

use carol_outer::{OpenGate, StdinSource, StdoutSink};
use carol_tool::{Status, carol, number};
use std::alloc::AllocError;
use std::env;
use std::io::{self, ErrorKind};
use std::process::ExitCode;
use std::rt::Env;

fn main(rt: HostRuntime) -> ExitCode {
    let status = match words(&rt) {
        Ok(words) => {
            let mut source = StdinSource::new(rt.reader());
            let mut sink = StdoutSink::new(io::writer(&rt));
            carol(&rt, rt.alloc(), &words, &mut source, &mut sink, &OpenGate)
        }
        Err(_) => Status::NoMemory,
    };
    ExitCode::from(number(status))
}

// The words after the program's name. Where the runtime refuses them for another cause than want of
// memory, there are none.
fn words<R: Env + AllocGlobal>(rt: &R) -> Result<Vec<Vec<u8>>, AllocError> {
    let mut words = Vec::new(rt.alloc());
    match env::args(rt) {
        Ok(args) => {
            for word in args.skip(1) {
                words.push(word.into_bytes())?;
            }
        }
        Err(e) => {
            if e.kind() == ErrorKind::OutOfMemory {
                return Err(AllocError);
            }
        }
    }
    Ok(words)
}
