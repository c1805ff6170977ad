// Parts of texts: runs of bytes, fields between blanks, numbers of any length.
#![tactic(auto)]

mod bytes;
mod coordinate;
mod fields;
mod number;
mod numeral;
mod runs;

pub use bytes::{is_blank, is_digit, is_letter, is_number_byte};
pub use coordinate::Coordinate;
pub use fields::{
    behind_word, is_only, is_over, next_field, skip_blanks, skip_end_blanks, split_colon,
    split_field,
};
pub use number::{Number, are_digits, read_number, value_up_to};
pub use numeral::next_number;
pub use runs::{Class, spells, split_run};
