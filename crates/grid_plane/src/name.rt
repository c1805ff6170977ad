ghost use Rattle.std.specs.Prelude.{◌≡◌, MatchOption, IsTrue, false};
ghost use Rattle.std.specs.List.{list_all};
ghost use Rattle.text_terms.specs.Fields.{is_letter, is_name_byte, is_name};

use std::marker::Model;

/// 1 to 32 ASCII letters, digits or `_`, of which the first is a letter.
#[derive(Drop)]
pub struct Name {
    bytes: [u8; 32],
    len: usize,
}

impl Model for Name {
    ghost use Rattle.std.specs.Prelude.{List, ℕ, take};
    ghost use Rattle.grid_plane.specs.Names.{IsNameIn};

    ghost Value = { List ℕ };

    ghost view = { λ n. take n.len n.bytes };

    ghost invariant = { λ n. IsNameIn n.bytes n.len };
}

fn is_letter(b: u8) -> bool
    ensures { result ≡ is_letter b }
{
    (b'A'..=b'Z').contains(&b) || (b'a'..=b'z').contains(&b)
}

fn is_name_byte(b: u8) -> bool
    ensures { result ≡ is_name_byte b }
{
    is_letter(b) || (b'0'..=b'9').contains(&b) || b == b'_'
}

fn are_name_bytes(bytes: &[u8]) -> bool
    ensures { result ≡ list_all is_name_byte bytes.now }
{
    bytes.iter().all(|b| is_name_byte(*b))
}

fn is_name(bytes: &[u8]) -> bool
    ensures { result ≡ is_name bytes.now }
{
    match bytes {
        [] => false,
        [first, rest @ ..] => { is_letter(*first) && rest.len() <= 31 && are_name_bytes(rest) }
    }
}

impl Name {
    /// The name with these bytes, if they are one.
    pub fn of(bytes: &[u8]) -> Option<Name>
        ensures { MatchOption result (is_name bytes.now ≡ false) (λ n. (n ≡ bytes.now) × IsTrue (is_name bytes.now)) }
    {
        if !is_name(bytes) {
            return None;
        }
        let mut buffer = [0; 32];
        buffer[..bytes.len()].copy_from_slice(bytes);
        Some(Name {
            bytes: buffer,
            len: bytes.len(),
        })
    }

    pub fn bytes(&self) -> &[u8]
        ensures value { result.now ≡ self.now }
        ensures named { IsTrue (is_name self.now) }
    {
        &self.bytes[..self.len]
    }
}
