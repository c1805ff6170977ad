use crate::call::{Call, Made};
use convex_cell::Cells;
use dirty_area::Dirt;
use error_store::{Entry, Errors, Key};
use grid_plane::{Handles, NoMemory, Rect};
use std::alloc::Global;
use topology_terms::Extent;

/// A call of a list of errors.
pub enum ErrorsCall {
    /// The errors of this subject give way to one of the whole feature.
    Replace(u32),
    /// That error of this subject is marked.
    SetMark(u32),
}

/// Calls of an empty list of errors.
pub const ERRORS: [ErrorsCall; 4] = [
    ErrorsCall::Replace(1),
    ErrorsCall::SetMark(1),
    ErrorsCall::Replace(2),
    ErrorsCall::Replace(1),
];

fn replace(alloc: Global, errors: &mut Errors, subject: u32) -> Result<Made, NoMemory> {
    let mut selected = Handles::new(alloc);
    selected.push(subject)?;
    let key = Key::of_numbers(1, subject, 0);
    let cells = Cells::new(alloc);
    let entry = Entry::new(alloc, key, Extent::Whole, false, Rect::whole(), cells)?;
    let mut fresh = Vec::new(alloc);
    fresh.push(entry)?;
    match errors.replace(alloc, &selected, fresh) {
        Ok(()) => Ok(Made::Done),
        Err(_) => Ok(Made::NoMemory),
    }
}

impl Call<Errors> for ErrorsCall {
    fn name(&self) -> &str {
        match self {
            ErrorsCall::Replace(_) => "replace",
            ErrorsCall::SetMark(_) => "set_mark",
        }
    }

    fn make(&self, alloc: Global, errors: &mut Errors) -> Result<Made, NoMemory> {
        match self {
            ErrorsCall::Replace(subject) => replace(alloc, errors, *subject),
            ErrorsCall::SetMark(subject) => {
                let _ = errors.set_mark(Key::of_numbers(1, *subject, 0), true);
                Ok(Made::Done)
            }
        }
    }
}

/// A call of dirt.
pub enum DirtCall {
    /// A square that begins at this coordinate is made dirty.
    Add(i16),
    /// A square that begins at this coordinate is cut out.
    Cut(i16),
}

/// Calls of dirt that is empty.
pub const DIRT: [DirtCall; 6] = [
    DirtCall::Add(0),
    DirtCall::Add(20),
    DirtCall::Add(40),
    DirtCall::Cut(5),
    DirtCall::Add(60),
    DirtCall::Cut(22),
];

// The square of side 10 that begins there.
fn square(start: i16) -> Result<Rect, NoMemory> {
    let low = i64::from(start);
    Rect::of(low, low, low + 10, low + 10).map_err(|_| NoMemory)
}

impl Call<Dirt> for DirtCall {
    fn name(&self) -> &str {
        match self {
            DirtCall::Add(_) => "add",
            DirtCall::Cut(_) => "cut",
        }
    }

    fn make(&self, alloc: Global, dirt: &mut Dirt) -> Result<Made, NoMemory> {
        match self {
            DirtCall::Add(start) => match dirt.add(square(*start)?) {
                Ok(()) => Ok(Made::Done),
                Err(_) => Ok(Made::NoMemory),
            },
            DirtCall::Cut(start) => match dirt.cut(alloc, &square(*start)?) {
                Ok(cut) => {
                    *dirt = cut.into_left();
                    Ok(Made::Done)
                }
                Err(_) => Ok(Made::NoMemory),
            },
        }
    }
}
