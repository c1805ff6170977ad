// Tests of the texts: which lines are refused, how a refusal is printed, and the report.
#![tactic(auto)]

#[cfg(test)]
mod lines;
#[cfg(test)]
mod refusals;
#[cfg(test)]
mod report;
