ghost use Rattle.std.specs.Prelude.{◌≡◌, ◌++◌, codes, sum, OnOk};
ghost use Rattle.town_terms.specs.Summary.{count_line, summary_text};
ghost use Rattle.town_maker.specs.Counted.{counts_of};

use grid_plane::NoMemory;
use text_out::{push_end, push_number, push_text};

/// What is counted at the end of a town's run.
#[derive(Clone, Copy)]
pub struct TownCounts {
    /// Live features.
    pub features: u64,
    /// Pairs of a rule and a subject, over both validations.
    pub judged: u64,
    pub errors: u64,
    /// Dirty rectangles.
    pub dirty: u64,
    /// The sum of all bytes of the listings of cells and of features.
    pub text: u128,
}

/// The sum of these bytes, each a number from 0 to 255.
pub fn byte_sum(text: &[u8]) -> u128
    ensures { result ≡ sum text.now }
{
    let mut total: u128 = 0;
    for b in text {
        total += u128::from(*b);
    }
    total
}

// A line of a word and a number.
fn push_count(out: &mut Vec<u8>, word: &[u8], count: u64) -> Result<(), NoMemory>
    ensures { OnOk result (out.new.items ≡ out.old.items ++ count_line word.now count) }
{
    push_text(out, word)?;
    push_number(out, count)?;
    push_end(out)
}

// The line of the sum of texts.
fn push_byte_sum(out: &mut Vec<u8>, total: u128) -> Result<(), NoMemory>
    ensures { OnOk result (out.new.items ≡ out.old.items ++ count_line (codes "text") total) }
{
    push_text(out, b"text")?;
    push_number(out, total)?;
    push_end(out)
}

// The lines on errors, dirt and texts.
fn push_state(out: &mut Vec<u8>, counts: &TownCounts) -> Result<(), NoMemory>
    ensures { OnOk result (out.new.items ≡ out.old.items ++ (count_line (codes "errors") counts.now.errors ++ (count_line (codes "dirty") counts.now.dirty ++ count_line (codes "text") counts.now.text))) }
{
    push_count(out, b"errors", counts.errors)?;
    push_count(out, b"dirty", counts.dirty)?;
    push_byte_sum(out, counts.text)
}

/// Appends the five lines of a town's summary.
pub fn push_summary(out: &mut Vec<u8>, counts: &TownCounts) -> Result<(), NoMemory>
    ensures { OnOk result (out.new.items ≡ out.old.items ++ summary_text (counts_of counts.now)) }
{
    push_count(out, b"features", counts.features)?;
    push_count(out, b"judged", counts.judged)?;
    push_state(out, counts)
}
