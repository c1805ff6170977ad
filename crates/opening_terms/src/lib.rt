// The words of projects on a shelf: opening one, saving one, and how the words that name one end.
#![tactic(auto)]
