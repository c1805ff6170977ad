// Tests of the plane's crates, by what they hand out: cells, columns, dirt, the index, shapes.
#![tactic(auto)]

#[cfg(test)]
mod cells;
#[cfg(test)]
mod columns;
#[cfg(test)]
mod corners;
#[cfg(test)]
mod dirt;
#[cfg(test)]
mod given;
#[cfg(test)]
mod index;
#[cfg(test)]
mod shapes;
