// The words of rules from outside: what one is seen as, what a meaning is with such rules beside it, and how often each is asked.
#![tactic(auto)]
