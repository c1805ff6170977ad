// Reads each line of standard input as well-known text, and writes the shape in its one written form, or the first fault.
#![tactic(auto)]

use shape::ShapeFault;
use std::alloc::{AllocError, Global};
use std::io::{self, Read};
use wkt_text::{WktFault, read_wkt, write_wkt};

// The most bytes of a text that is read.
const LONGEST: usize = 1_048_576;

fn shape_fault_text(alloc: Global, fault: ShapeFault) -> Result<String, AllocError> {
    match fault {
        ShapeFault::TooFew { part } => format!(in alloc; "few {part}"),
        ShapeFault::TooMany { count } => format!(in alloc; "many {count}"),
        ShapeFault::Cross { i, j } => format!(in alloc; "cross {i} {j}"),
        ShapeFault::Along { i, j } => format!(in alloc; "along {i} {j}"),
        ShapeFault::NoMemory => format!(in alloc; "no memory"),
    }
}

fn fault_text(alloc: Global, fault: WktFault) -> Result<String, AllocError> {
    match fault {
        WktFault::Syntax { at } => format!(in alloc; "syntax {at}"),
        WktFault::OffGrid { at } => format!(in alloc; "off the grid {at}"),
        WktFault::OutOfReach { at } => format!(in alloc; "out of reach {at}"),
        WktFault::Unsupported { at } => format!(in alloc; "unsupported {at}"),
        WktFault::NotClosed { ring } => format!(in alloc; "not closed {ring}"),
        WktFault::Invalid(fault) => shape_fault_text(alloc, fault),
        WktFault::NoMemory => format!(in alloc; "no memory"),
    }
}

// What is told of a text, as a line.
fn push_told(alloc: Global, text: &[u8], out: &mut Vec<u8>) -> Result<(), AllocError> {
    if text.len() > LONGEST {
        return out.extend_from_slice(b"too long\n");
    }
    match read_wkt(alloc, text) {
        Ok(shape) => {
            if write_wkt(&shape, out).is_err() {
                out.extend_from_slice(b"no memory")?;
            }
        }
        Err(fault) => out.extend_from_slice(fault_text(alloc, fault)?.as_bytes())?,
    }
    out.extend_from_slice(b"\n")
}

fn main(rt: HostRuntime) -> io::Result<()> {
    let alloc = rt.alloc();
    let mut input = Vec::new(alloc);
    rt.stdin().read_to_end(&mut input)?;
    let lines = input.strip_suffix(b"\n").unwrap_or(&input);
    for text in lines.split(|b| *b == b'\n') {
        let mut told = Vec::new(alloc);
        push_told(alloc, text, &mut told)?;
        if let Ok(line) = str::from_utf8(&told) {
            print!(rt; "{line}")?;
        }
    }
    Ok(())
}
