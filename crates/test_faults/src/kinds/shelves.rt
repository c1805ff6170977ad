use super::{
    AT_ONCE, Kind, failing_sink, failing_source, first_lines, first_replies, holds, status_on,
};
use crate::script::{LEN, SAVED};
use crate::statuses::{
    NO_PROJECT, OPEN_FAULT, READ_FAULT, REFUSED, SAVE_FAULT, WRITE_FAULT, WRONG_TEXT,
};
use crate::streams::EndlessSource;
use crate::tally::Tally;
use std::alloc::{AllocError, Global};
use std::collections::BTreeMap;
use topo_outside::{MemShelf, SureSink, SureSource};

// Words that name a project.
const NAMING: [&[&str]; 4] = [
    &["replay", "town"],
    &["replay", "town", "other"],
    &["check", "town"],
    &["report", "town"],
];

// A shelf that holds this text under `town`; the call of this number fails, none where it is 0.
fn shelf_with(alloc: Global, text: &[u8], call: u64) -> Result<MemShelf, AllocError> {
    let mut held = BTreeMap::new(alloc);
    held.insert(String::from_str(alloc, "town")?, text.to_vec(alloc)?)?;
    Ok(MemShelf::new(held, vec![in alloc; call]?))
}

fn empty_shelf(alloc: Global, call: u64) -> Result<MemShelf, AllocError> {
    Ok(MemShelf::new(BTreeMap::new(alloc), vec![in alloc; call]?))
}

// The words that name a project over this shelf: the status and what is written; nothing is read.
fn end_as(
    alloc: Global,
    shelf: &mut MemShelf,
    words: &[&str],
    status: u8,
    text: &[u8],
    tally: &mut Tally,
) -> Result<(), AllocError> {
    let mut source = EndlessSource::new(b"dirty\n".to_vec(alloc)?);
    let mut sink = SureSink::new(alloc);
    let is_status = status_on(alloc, words, &mut source, &mut sink, shelf)? == status;
    tally.note(is_status && source.given() == 0 && sink.bytes().as_slice() == text);
    Ok(())
}

/// Nothing stands under the name: nothing is read or written.
pub struct AbsentProjects;

impl Kind for AbsentProjects {
    fn name(&self) -> &str {
        "projects that are not there"
    }

    fn runs(&self, alloc: Global) -> Result<Tally, AllocError> {
        let mut tally = Tally::new();
        for words in NAMING {
            let mut shelf = empty_shelf(alloc, 0)?;
            end_as(alloc, &mut shelf, words, NO_PROJECT, b"", &mut tally)?;
        }
        Ok(tally)
    }
}

/// The shelf fails to give the project: nothing is read or written.
pub struct FailingShelves;

impl Kind for FailingShelves {
    fn name(&self) -> &str {
        "shelves that fail to give a project"
    }

    fn runs(&self, alloc: Global) -> Result<Tally, AllocError> {
        let mut tally = Tally::new();
        for words in NAMING {
            let mut shelf = shelf_with(alloc, SAVED.as_bytes(), 1)?;
            end_as(alloc, &mut shelf, words, OPEN_FAULT, b"", &mut tally)?;
        }
        Ok(tally)
    }
}

/// The text of another format: its first line is wrong, and this is written.
pub struct WrongTexts;

impl Kind for WrongTexts {
    fn name(&self) -> &str {
        "texts of another format"
    }

    fn runs(&self, alloc: Global) -> Result<Tally, AllocError> {
        let mut tally = Tally::new();
        let line = b"project refused line 1 form\n";
        for words in NAMING {
            let mut shelf = shelf_with(alloc, b"topology 9\n", 0)?;
            end_as(alloc, &mut shelf, words, WRONG_TEXT, line, &mut tally)?;
        }
        Ok(tally)
    }
}

/// The script is replayed and saved: the shelf holds its text, which is then checked.
pub struct SavedProjects;

impl Kind for SavedProjects {
    fn name(&self) -> &str {
        "a project that is saved, and checked"
    }

    fn runs(&self, alloc: Global) -> Result<Tally, AllocError> {
        let mut tally = Tally::new();
        let mut shelf = empty_shelf(alloc, 0)?;
        let mut source = SureSource::new(first_lines(alloc, LEN)?);
        let mut sink = SureSink::new(alloc);
        let words = &["replay", "-", "town"];
        let status = status_on(alloc, words, &mut source, &mut sink, &mut shelf)?;
        tally.note(status == REFUSED && holds(&shelf, "town", SAVED.as_bytes()));
        end_as(
            alloc,
            &mut shelf,
            &["check", "town"],
            0,
            b"sound\n",
            &mut tally,
        )?;
        Ok(tally)
    }
}

/// A read, a write or the shelf fails: the shelf holds what it held.
pub struct UnsavedProjects;

impl Kind for UnsavedProjects {
    fn name(&self) -> &str {
        "projects that are not saved"
    }

    fn runs(&self, alloc: Global) -> Result<Tally, AllocError> {
        let mut tally = Tally::new();
        let script = first_lines(alloc, LEN)?;
        let replies = first_replies(alloc, LEN)?;
        let words = &["replay", "-", "town"];
        for (read, write, put, expected) in [
            (1, 0, 0, READ_FAULT),
            (0, 1, 0, WRITE_FAULT),
            (0, 0, 1, SAVE_FAULT),
        ] {
            let mut shelf = shelf_with(alloc, b"old", put)?;
            let mut source = failing_source(alloc, &script, AT_ONCE, read)?;
            let mut sink = failing_sink(alloc, AT_ONCE, write)?;
            let status = status_on(alloc, words, &mut source, &mut sink, &mut shelf)?;
            let is_written = put == 0 || sink.bytes().as_slice() == replies.as_slice();
            tally.note(status == expected && is_written && holds(&shelf, "town", b"old"));
        }
        Ok(tally)
    }
}
