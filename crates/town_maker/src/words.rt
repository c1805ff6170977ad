ghost use Rattle.std.specs.Prelude.{◌≡◌, IfOk, vec_len};
ghost use Rattle.town_maker.specs.Drawn.{AreWords};

use grid_plane::NoMemory;
use rand_core::SeedableRng;
use rand_core::utils::NextWord;
use rand_xoshiro::SplitMix64;
use std::alloc::Global;

/// The first words that SplitMix64 gives from this seed.
pub fn draw_words(alloc: Global, seed: u64, count: usize) -> Result<Vec<u64>, NoMemory>
    ensures drawn { IfOk result (λ words. AreWords seed words.items) }
    ensures many { IfOk result (λ words. vec_len words ≡ count) }
{
    let mut rng = SplitMix64::seed_from_u64(seed);
    let mut words = Vec::with_capacity(alloc, count)?;
    'draws: for _ in 0..count {
        words.push(rng.next_word())?;
    }
    Ok(words)
}
