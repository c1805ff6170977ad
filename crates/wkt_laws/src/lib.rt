// Reading well-known text a token at a time: the table of states, and that it reads just the grammar. Lemmas alone.
#![tactic(auto)]
