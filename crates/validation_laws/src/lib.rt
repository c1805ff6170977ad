// A validation: parts put together, a replacement and a cut make it one, over any rules. Lemmas alone.
#![tactic(auto)]
