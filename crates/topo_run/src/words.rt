ghost use Rattle.std.specs.Prelude.{◌≡◌, ◌≢◌, ◌↔◌, ℕ, List, [], ◌∷◌, IsTrue, MatchOption, string_bytes, codes};
ghost use Rattle.script_terms.specs.Ends.{IsReplay};
ghost use Rattle.topo_run.specs.Asked.{IsAskedBy};
ghost use Rattle.opening_terms.specs.Passed.{bytes_of};

use town_maker::{TownRequest, town_request};

/// What the words of the command line ask for.
#[derive(Clone, Copy)]
pub enum Words<'a> {
    /// `replay`
    Replay,
    /// `replay PROJECT`
    ReplayOf(&'a str),
    /// `replay PROJECT TARGET`
    ReplayTo(&'a str, &'a str),
    /// `check PROJECT`
    Check(&'a str),
    /// `report PROJECT`
    Report(&'a str),
    /// `town SEED N`
    Town(TownRequest),
    /// None of these.
    Unknown,
}

fn is_word(word: &String, text: &str) -> bool
    ensures { IsTrue result ↔ (string_bytes word.now ≡ text.now) }
{
    word.as_str() == text
}

#[tactic(auto, using(crate::proofs::Spelling::words_tests))]
fn is_replay(words: &Vec<String>) -> bool
    ensures { IsTrue result ↔ IsReplay words.now.items }
{
    words.len() == 1 && is_word(&words[0], "replay")
}

// The second of two words of which the first is this one, where it is not empty.
fn named_by<'a>(words: &'a Vec<String>, form: &str) -> Option<&'a str>
    ensures { MatchOption result
        ((name : List ℕ) → bytes_of words.now.items ≡ form.now ∷ name ∷ [] → name ≢ [] → ⊥)
        (λ name. (bytes_of words.now.items ≡ form.now ∷ name.now ∷ []) × (name.now ≢ [])) }
{
    if words.len() != 2 || !is_word(&words[0], form) || words[1].is_empty() {
        return None;
    }
    Some(words[1].as_str())
}

// The second and third of three words of which the first is `replay`, where they are not empty.
fn saved_by(words: &Vec<String>) -> Option<(&str, &str)>
    ensures { MatchOption result
        ((name target : List ℕ) → bytes_of words.now.items ≡ codes "replay" ∷ name ∷ target ∷ [] → name ≢ [] → target ≢ [] → ⊥)
        (λ both. (bytes_of words.now.items ≡ codes "replay" ∷ both.0.now ∷ both.1.now ∷ []) × (both.0.now ≢ []) × (both.1.now ≢ [])) }
{
    if words.len() != 3 || !is_word(&words[0], "replay") {
        return None;
    }
    if words[1].is_empty() || words[2].is_empty() {
        return None;
    }
    Some((words[1].as_str(), words[2].as_str()))
}

/// What these words, those after the program's name, ask for.
pub fn words_of(words: &Vec<String>) -> Words<'_>
    ensures { IsAskedBy (bytes_of words.now.items) result }
{
    if is_replay(words) {
        return Words::Replay;
    }
    if let Some(project) = named_by(words, "replay") {
        return Words::ReplayOf(project);
    }
    if let Some((project, target)) = saved_by(words) {
        return Words::ReplayTo(project, target);
    }
    if let Some(project) = named_by(words, "check") {
        return Words::Check(project);
    }
    if let Some(project) = named_by(words, "report") {
        return Words::Report(project);
    }
    match town_request(words) {
        Some(request) => Words::Town(request),
        None => Words::Unknown,
    }
}
