// Lemmas alone: what each line of versions makes of them is one thing.
#![tactic(auto)]
