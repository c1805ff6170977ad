ghost use Rattle.std.specs.Prelude.{◌≡◌};
ghost use Rattle.topology_terms.specs.Extents.{is_whole};
ghost use Rattle.project_terms.specs.Written.{mark_word, extent_word};

use topology_terms::Extent;

/// The word of an error, and that of one which is marked as an exception.
pub fn mark_word(marked: bool) -> &'static [u8]
    ensures { result.now ≡ mark_word marked }
{
    if marked { b"exception" } else { b"error" }
}

/// The word of an error that is of cells, and that of one of a feature as a whole.
pub fn extent_word(extent: Extent) -> &'static [u8]
    ensures { result.now ≡ extent_word (is_whole extent) }
{
    match extent {
        Extent::Whole => b"whole",
        Extent::Cells => b"cells",
    }
}
