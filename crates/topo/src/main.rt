// The program: the real source, sink and shelf, and the words after the program's name.
#![tactic(auto)]

use std::io::ErrorKind;
use std::process::ExitCode;
use std::{env, io};
use topo_outside::{FolderShelf, StdSink, StdSource};
use topo_run::run;

// The status where not even the words can be held.
const NO_MEMORY: u8 = 5;

fn words(rt: &HostRuntime) -> io::Result<Vec<String>> {
    let mut words = Vec::new(rt.alloc());
    for word in env::args(rt)?.skip(1) {
        words.push(word)?;
    }
    Ok(words)
}

fn main(rt: HostRuntime) -> ExitCode {
    let words = match words(&rt) {
        Ok(words) => words,
        Err(error) if error.kind() == ErrorKind::OutOfMemory => return ExitCode::from(NO_MEMORY),
        // A word that is no text is none that the program knows.
        Err(_) => Vec::new(rt.alloc()),
    };
    let mut source = StdSource::new(rt.stdin());
    let mut sink = StdSink::new(rt.stdout());
    let mut shelf = FolderShelf::new(&rt);
    ExitCode::from(run(rt.alloc(), &words, &mut source, &mut sink, &mut shelf))
}
