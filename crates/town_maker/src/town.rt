ghost use Rattle.std.specs.Prelude.{◌≡◌, ◌≤◌, ◌<◌, ◌+◌, ◌*◌, IfOk, vec_len};
ghost use Rattle.town_terms.specs.Town.{row_word, late_column};
ghost use Rattle.town_maker.specs.Drawn.{AreWords};

use crate::words::draw_words;
use grid_plane::NoMemory;
use std::alloc::Global;

/// A town of so many rows, with the words that place its addresses and roads.
#[derive(Drop)]
pub struct Town {
    pub seed: u64,
    pub rows: u64,
    words: Vec<u64>,
    ghost some: { 1 ≤ rows },
    ghost few: { rows ≤ 60 },
    ghost many: { vec_len words ≡ 2 * rows * (rows + 1) },
    ghost drawn: { AreWords seed words.items },
}

impl Town {
    /// Draws the words of a town of 1 to 60 rows.
    pub fn new(alloc: Global, seed: u64, rows: u32) -> Result<Town, NoMemory>
        requires some { 1 ≤ rows }
        requires few { rows ≤ 60 }
        ensures seed { IfOk result (λ town. town.seed ≡ seed) }
        ensures rows { IfOk result (λ town. town.rows ≡ rows) }
    {
        let rows = u64::from(rows);
        let words = draw_words(alloc, seed, (2 * rows * (rows + 1)) as usize)?;
        Ok(Town { seed, rows, words })
    }

    /// A word of a row, counted from 0; the row behind the last has words too.
    pub fn word(&self, row: u64, at: u64) -> u64
        requires row { row ≤ self.now.rows }
        requires at { at < 2 * self.now.rows }
        ensures { result ≡ row_word self.now.seed self.now.rows row at }
    {
        self.words[(2 * self.rows * row + at) as usize]
    }

    /// The column of a row whose address comes late.
    pub fn late_column(&self, row: u64) -> u64
        requires { row < self.now.rows }
        ensures value { result ≡ late_column self.now.seed self.now.rows row }
        ensures within { result < self.now.rows }
    {
        self.word(row, 0) % self.rows
    }
}
