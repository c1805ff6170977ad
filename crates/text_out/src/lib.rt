// What all written texts share: bytes, numbers, names, rectangles, half-planes, keys and the words of an error, each appended to a text.
#![tactic(auto)]

mod bytes;
mod numbers;
mod plane;
mod words;

pub use bytes::{push_byte, push_comma, push_end, push_field, push_text};
pub use numbers::{push_digits, push_key, push_number, push_pair, push_sided};
pub use plane::{push_half, push_rect};
pub use words::{extent_word, mark_word};
