// The laws of the rules that are built: lemmas alone.
#![tactic(auto)]
