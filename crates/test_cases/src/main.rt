// Replays the worked cases: scripts whose expected replies stand in remarks. The words are the files' names.
//
// A line `# case NAME` begins a case, `#> REPLY` is a reply to the line above it, and `# status N` ends the case.
#![tactic(auto)]

use std::alloc::{AllocError, Global};
use std::collections::BTreeMap;
use std::{env, fs, io};
use topo_outside::{SureShelf, SureSink, SureSource};
use topo_run::run;

/// A script, and what it is to be answered.
#[derive(Drop)]
struct Case {
    name: Vec<u8>,
    script: Vec<u8>,
    expected: Vec<u8>,
}

impl Case {
    fn new(alloc: Global) -> Case {
        Case {
            name: Vec::new(alloc),
            script: Vec::new(alloc),
            expected: Vec::new(alloc),
        }
    }

    // Takes a line that is no end of a case.
    fn take(&mut self, line: &[u8]) -> Result<(), AllocError> {
        if let Some(name) = line.strip_prefix(b"# case ") {
            self.name.clear();
            return self.name.extend_from_slice(name);
        }
        if let Some(reply) = line.strip_prefix(b"#> ") {
            self.expected.extend_from_slice(reply)?;
            return self.expected.extend_from_slice(b"\n");
        }
        self.script.extend_from_slice(line)?;
        self.script.extend_from_slice(b"\n")
    }

    // Whether the case is answered as it is to be, with this status.
    fn holds(self, alloc: Global, status: &[u8]) -> Result<bool, AllocError> {
        let words = vec![in alloc; String::from_str(alloc, "replay")?]?;
        let mut source = SureSource::new(self.script);
        let mut sink = SureSink::new(alloc);
        let mut shelf = SureShelf::new(BTreeMap::new(alloc));
        let code = run(alloc, &words, &mut source, &mut sink, &mut shelf);
        let code = format!(in alloc; "{code}")?;
        Ok(code.as_bytes() == status && sink.bytes().as_slice() == self.expected.as_slice())
    }
}

/// How many cases were replayed, and how many differ.
#[derive(Drop)]
struct Tally {
    cases: u64,
    differ: u64,
}

fn say_difference(rt: &HostRuntime, file: &str, name: &[u8]) -> io::Result<()> {
    match str::from_utf8(name) {
        Ok(name) => println!(rt; "{file}: {name} differs"),
        Err(_) => println!(rt; "{file}: a case differs"),
    }
}

fn replay_file(rt: &HostRuntime, file: &str, tally: &mut Tally) -> io::Result<()> {
    let alloc = rt.alloc();
    let text = fs::read(rt, file)?;
    let mut case = Case::new(alloc);
    for line in text.split(|b| *b == b'\n') {
        let Some(status) = line.strip_prefix(b"# status ") else {
            case.take(line)?;
            continue;
        };
        let ended = case;
        case = Case::new(alloc);
        let name = ended.name.clone()?;
        tally.cases = tally.cases.saturating_add(1);
        if !ended.holds(alloc, status)? {
            tally.differ = tally.differ.saturating_add(1);
            say_difference(rt, file, &name)?;
        }
    }
    Ok(())
}

fn main(rt: HostRuntime) -> io::Result<()> {
    let mut tally = Tally {
        cases: 0,
        differ: 0,
    };
    for file in env::args(&rt)?.skip(1) {
        replay_file(&rt, file.as_str(), &mut tally)?;
    }
    let cases = tally.cases;
    let differ = tally.differ;
    println!(rt; "{cases} cases, {differ} differ")
}
