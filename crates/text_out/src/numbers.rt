ghost use Rattle.std.specs.Prelude.{◌≡◌, ◌∷◌, ◌++◌, OnOk};
ghost use Rattle.project_terms.specs.Written.{sided};
ghost use Rattle.text_out.specs.Fields.{key_text};

use crate::bytes::{push_byte, push_field, push_text};
use grid_plane::NoMemory;
use itoa::{Buffer, Integer};

/// Appends the number as a plain decimal, behind `-` where it is negative.
pub fn push_digits<N: Integer>(out: &mut Vec<u8>, number: N) -> Result<(), NoMemory>
    ensures { OnOk result (out.new.items ≡ out.old.items ++ N.text number) }
{
    let mut buffer = Buffer::new();
    push_text(out, buffer.format(number).as_bytes())
}

/// Appends a space and the number.
pub fn push_number<N: Integer>(out: &mut Vec<u8>, number: N) -> Result<(), NoMemory>
    ensures { OnOk result (out.new.items ≡ out.old.items ++ 32 ∷ N.text number) }
{
    let mut buffer = Buffer::new();
    push_field(out, buffer.format(number).as_bytes())
}

/// Appends two numbers with a space between them.
pub fn push_pair<N: Integer>(out: &mut Vec<u8>, x: N, y: N) -> Result<(), NoMemory>
    ensures { OnOk result (out.new.items ≡ out.old.items ++ (N.text x ++ 32 ∷ N.text y)) }
{
    push_digits(out, x)?;
    push_number(out, y)
}

/// Appends the key of an error: the numbers of its rule, its subject and its partner, each behind a space.
pub fn push_key(out: &mut Vec<u8>, rule: u16, subject: u32, partner: u32) -> Result<(), NoMemory>
    ensures { OnOk result (out.new.items ≡ out.old.items ++ key_text rule subject partner) }
{
    push_number(out, rule)?;
    push_number(out, subject)?;
    push_number(out, partner)
}

/// Appends a space and the name of a class, and behind a colon the subtype, where there is one.
pub fn push_sided(out: &mut Vec<u8>, name: &[u8], subtype: Option<u8>) -> Result<(), NoMemory>
    ensures { OnOk result (out.new.items ≡ out.old.items ++ 32 ∷ sided name.now subtype) }
{
    push_field(out, name)?;
    match subtype {
        Some(subtype) => {
            push_byte(out, b':')?;
            push_digits(out, subtype)
        }
        None => Ok(()),
    }
}
