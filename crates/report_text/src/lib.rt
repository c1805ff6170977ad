// The report of errors as a table with commas, written through the crate `csv`.
#![tactic(auto)]

mod fields;
mod report;
mod rows;

pub use report::push_report;
