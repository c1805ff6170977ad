// Tests of the topology, its stores, the outside, and the definitions as plain programs.
#![tactic(auto)]

#[cfg(test)]
mod counted;
#[cfg(test)]
mod definitions;
#[cfg(test)]
mod kept;
#[cfg(test)]
mod outside;
#[cfg(test)]
mod town;
