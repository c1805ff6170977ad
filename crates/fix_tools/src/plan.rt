ghost use Rattle.std.specs.Prelude.{◌≡◌, ◌++◌, [], ◌∷◌, length, None};
ghost use Rattle.std.specs.Option.{option_to_list};

use fix_terms::Edit;
use shape::Shape;
use std::collections::VecDeque;
use std::marker::Model;

/// A plan: edits, in the order in which they are to be done.
#[derive(Drop)]
pub struct Plan {
    pub(crate) edits: VecDeque<Edit<Shape>>,
}

impl Model for Plan {
    ghost use Rattle.std.specs.Prelude.{List};
    ghost use Rattle.fix_terms.specs.Plans.{Edit};

    ghost Value = { List Edit };

    ghost view = { λ p. p.edits.items };
}

impl Plan {
    /// How many edits are left.
    pub fn len(&self) -> usize
        ensures { result ≡ length self.now }
    {
        self.edits.len()
    }

    /// Takes the first edit out; `None` where there is none. Takes no memory.
    pub fn take_first(&mut self) -> Option<Edit<Shape>>
        ensures first { self.old ≡ option_to_list result ++ self.new }
        ensures empty { result ≡ None → self.old ≡ [] }
    {
        self.edits.pop_front()
    }
}
