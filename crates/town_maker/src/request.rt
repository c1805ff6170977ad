ghost use Rattle.std.specs.Prelude.{◌≡◌, ◌↔◌, ◌≤◌, ◌<◌, ℕ, map, length, IsTrue, MatchOption, string_bytes};
ghost use Rattle.town_terms.specs.Request.{IsTownRequest};

use crate::number::number_within;

/// What the words `town SEED N` ask for.
#[derive(Clone, Copy)]
pub struct TownRequest {
    pub seed: u64,
    pub rows: u32,
}

fn is_word(word: &String, text: &str) -> bool
    ensures { IsTrue result ↔ (string_bytes word.now ≡ text.now) }
{
    word.as_str() == text
}

/// The town that the words after the program's name ask for, if they ask for one.
pub fn town_request(words: &Vec<String>) -> Option<TownRequest>
    ensures { MatchOption result ((seed n : ℕ) → IsTownRequest (map (λ w. string_bytes w) words.now.items) seed n → ⊥)
        (λ request. IsTownRequest (map (λ w. string_bytes w) words.now.items) request.seed request.rows) }
{
    if words.len() != 3 || !is_word(&words[0], "town") {
        return None;
    }
    let seed = number_within(words[1].as_bytes(), 0, u64::MAX)?;
    let rows = number_within(words[2].as_bytes(), 1, 60)?;
    Some(TownRequest {
        seed,
        rows: rows as u32,
    })
}
