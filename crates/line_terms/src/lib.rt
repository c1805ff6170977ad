// The words of a script's lines: their forms, the commands that they spell, and why a line is refused.
#![tactic(auto)]

mod line_refusal;

pub use line_refusal::LineRefusal;
