// The words of well-known text: runs of bytes, numerals, tokens, the grammar, the first fault, the written form, its shapes.
#![tactic(auto)]

mod wkt_fault;

pub use wkt_fault::WktFault;
