ghost use Rattle.topology_terms.specs.Poster.{poster};
ghost use Rattle.rule_laws.proofs.Posters.{poster_laws, poster_cuts, poster_views};
ghost use Rattle.rules.specs.Partners.{poster_partners};

use crate::case::Case;
use grid_plane::NoMemory;
use rule_core::{Findings, KindRules, RuleRow, RuleSet, View, Work};
use std::alloc::Global;

/// The rules of the topology rules poster, each by the rule of its row's kind.
#[derive(Clone, Copy)]
pub struct PosterRules;

impl RuleSet for PosterRules {
    ghost meaning = { poster };

    fn judge_row(
        &self,
        alloc: Global,
        row: &RuleRow,
        view: &View<'_>,
        subject: u32,
        work: &mut Work,
    ) -> Result<Findings, NoMemory> {
        let case = Case {
            alloc,
            row,
            view,
            subject,
        };
        case.judged(work)
    }

    ghost laws = { poster_laws };

    ghost right = { poster_cuts };

    ghost views = { poster_views };
}

impl KindRules for PosterRules {
    ghost kinds = { record { fits = λ row F fits. fits } };

    ghost partners = { poster_partners };
}
