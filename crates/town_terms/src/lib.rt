// The words of the made town: its script, and the lines of its summary.
#![tactic(auto)]
