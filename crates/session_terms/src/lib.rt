// The words of editing sessions: steps that are kept, what each call leaves of them, and which sessions hold what.
#![tactic(auto)]
