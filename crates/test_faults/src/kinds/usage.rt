use super::{Kind, calls_for, failing_sink, status_with};
use crate::statuses::{USAGE, WRITE_FAULT};
use crate::streams::EndlessSource;
use crate::tally::Tally;
use std::alloc::{AllocError, Global};
use topo_outside::SureSink;

// What is written where the words are none that the program knows.
const TEXT: &str =
    "usage: topo replay [PROJECT [TARGET]] | check PROJECT | report PROJECT | town SEED N\n";

// Words that the program does not know.
const OTHERS: [&[&str]; 16] = [
    &[],
    &[""],
    &["Replay"],
    &["replay "],
    &["repla"],
    &["replays"],
    &["replay", ""],
    &["replay", "", "wells"],
    &["replay", "wells", ""],
    &["replay", "wells", "wells", "wells"],
    &["check"],
    &["check", ""],
    &["report", ""],
    &["report", "wells", "wells"],
    &["town", "1", "61"],
    &["--help"],
];

/// Words that are none that the program knows: the usage line is written, and nothing is read.
pub struct OtherWords;

impl Kind for OtherWords {
    fn name(&self) -> &str {
        "words of no form"
    }

    fn runs(&self, alloc: Global) -> Result<Tally, AllocError> {
        let mut tally = Tally::new();
        for words in OTHERS {
            let mut source = EndlessSource::new(b"dirty\n".to_vec(alloc)?);
            let mut sink = SureSink::new(alloc);
            let status = status_with(alloc, words, &mut source, &mut sink)?;
            let is_written = sink.bytes().as_slice() == TEXT.as_bytes();
            tally.note(status == USAGE && source.given() == 0 && is_written);
        }
        Ok(tally)
    }
}

/// The usage line in pieces of 7 bytes; each write fails in turn.
pub struct FailingUsage;

impl Kind for FailingUsage {
    fn name(&self) -> &str {
        "usage lines that cannot be written"
    }

    fn runs(&self, alloc: Global) -> Result<Tally, AllocError> {
        let mut tally = Tally::new();
        let text = TEXT.as_bytes();
        for before in 0..calls_for(text.len(), 7) {
            let taken = before.saturating_mul(7).min(text.len());
            let mut source = EndlessSource::new(b"dirty\n".to_vec(alloc)?);
            let mut sink = failing_sink(alloc, 7, before as u64 + 1)?;
            let status = status_with(alloc, &[], &mut source, &mut sink)?;
            let is_front = sink.bytes().as_slice() == &text[..taken];
            tally.note(status == WRITE_FAULT && source.given() == 0 && is_front);
        }
        Ok(tally)
    }
}
