ghost use Rattle.std.specs.Prelude.{◌≡◌};
ghost use Rattle.topology_terms.specs.Poster.{poster};
ghost use Rattle.rule_laws.proofs.Posters.{poster_laws, poster_cuts, poster_views};

use crate::rule_body::RuleBody;
use grid_plane::NoMemory;
use rule_core::{Findings, Rule, RuleRow, View, Work};
use std::alloc::Global;
use std::marker::{Model, PhantomData};

/// A rule for a row of its kind.
#[derive(Drop)]
pub struct RuleFor<R: RuleBody> {
    row: RuleRow,
    body: PhantomData<R>,
    ghost of_kind: { row.kind ≡ R.kind },
}

impl<R: RuleBody> Model for RuleFor<R> {
    ghost use Rattle.topology_terms.specs.Broken.{Row};

    ghost Value = { Row };

    ghost view = { λ r. r.row };
}

impl<R: RuleBody> RuleFor<R> {
    /// The rule for this row, which is of its kind.
    pub fn new(row: RuleRow) -> RuleFor<R>
        requires { row.kind ≡ R.kind }
        ensures { result ≡ row }
    {
        RuleFor {
            row,
            body: PhantomData,
        }
    }
}

impl<R: RuleBody> Rule for RuleFor<R> {
    ghost meaning = { poster };

    ghost row_of = { λ r. r };

    fn row(&self) -> RuleRow {
        self.row
    }

    fn seek(
        &self,
        alloc: Global,
        view: &View<'_>,
        subject: u32,
        work: &mut Work,
    ) -> Result<Findings, NoMemory> {
        R::cut(alloc, &self.row, view.subject(subject), view, work)
    }

    ghost laws = { poster_laws };

    ghost right = { poster_cuts };

    ghost views = { poster_views };
}
