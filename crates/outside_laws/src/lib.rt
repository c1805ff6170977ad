// With rules from outside a meaning keeps its laws: lemmas alone.
#![tactic(auto)]
