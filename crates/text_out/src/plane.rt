ghost use Rattle.std.specs.Prelude.{◌≡◌, ◌++◌, OnOk};
ghost use Rattle.project_terms.specs.Written.{op_word};
ghost use Rattle.text_out.specs.Fields.{rect_text, half_text};

use crate::bytes::push_field;
use crate::numbers::push_number;
use grid_plane::{Half, NoMemory, Op, Rect};

fn op_word(op: Op) -> &'static [u8]
    ensures { result.now ≡ op_word op }
{
    match op {
        Op::Over => b">",
        Op::AtLeast => b">=",
        Op::Zero => b"=",
    }
}

/// Appends the rectangle, least corner first, in grid units, each number behind a space.
pub fn push_rect(out: &mut Vec<u8>, r: &Rect) -> Result<(), NoMemory>
    ensures { OnOk result (out.new.items ≡ out.old.items ++ rect_text r.now) }
{
    push_number(out, r.x0())?;
    push_number(out, r.y0())?;
    push_number(out, r.x1())?;
    push_number(out, r.y1())
}

/// Appends the half-plane: its three numbers and its sign, each behind a space.
pub fn push_half(out: &mut Vec<u8>, half: &Half) -> Result<(), NoMemory>
    ensures { OnOk result (out.new.items ≡ out.old.items ++ half_text half.now) }
{
    push_number(out, half.a())?;
    push_number(out, half.b())?;
    push_number(out, half.c())?;
    push_field(out, op_word(half.op()))
}
