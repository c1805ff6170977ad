ghost use Rattle.std.specs.Prelude.{◌≡◌};
ghost use Rattle.column_cut.specs.Parity.{is_even};

/// Which slots of a column are meant, counted from 0 below: the odd ones lie inside, the even ones outside.
#[derive(Clone, Copy)]
pub(crate) enum Parity {
    Odd,
    Even,
}

impl Parity {
    pub(crate) fn is_even(self) -> bool
        ensures { result ≡ is_even self }
    {
        match self {
            Parity::Odd => false,
            Parity::Even => true,
        }
    }
}
