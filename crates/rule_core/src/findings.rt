ghost use Rattle.std.specs.Prelude.{◌≡◌, ◌<◌, [], ◌∷◌, ◌++◌, length, slice_get, Some, OnOk, OnErr};
ghost use Rattle.plane_terms.specs.Lists.{Every};
ghost use Rattle.topology_terms.specs.Meaning as terms;
ghost use Rattle.validation_laws.specs.Parts.{AreInOrder};

use crate::finding::Finding;
use grid_plane::NoMemory;
use std::alloc::Global;
use std::marker::Model;

/// Findings for one subject, ascending by partner.
#[derive(Drop)]
pub struct Findings {
    findings: Vec<Finding>,
}

impl Model for Findings {
    ghost use Rattle.std.specs.Prelude.{List};
    ghost use Rattle.topology_terms.specs.Meaning as terms;
    ghost use Rattle.validation_laws.specs.Parts.{AreInOrder};

    ghost Value = { List terms.Finding };

    ghost view = { λ x. x.findings.items };

    ghost invariant = { λ x. AreInOrder x.findings.items };
}

impl Findings {
    /// Nothing is broken.
    pub fn new(alloc: Global) -> Findings
        ensures { result ≡ [] }
    {
        Findings {
            findings: Vec::new(alloc),
        }
    }

    /// How many findings there are.
    pub fn len(&self) -> usize
        ensures { result ≡ length self.now }
    {
        self.findings.len()
    }

    /// The finding at this place of the list, from 0.
    pub fn finding(&self, i: usize) -> &Finding
        requires { i < length self.now }
        ensures { slice_get self.now i ≡ Some result.now }
    {
        &self.findings[i]
    }

    /// Puts a finding last, whose partner is above all others; where memory runs out the list stays as it was.
    pub fn push(&mut self, finding: Finding) -> Result<(), NoMemory>
        requires { Every (λ (x : terms.Finding). x.other < finding.other) self.old }
        ensures ok { OnOk result (self.new ≡ self.old ++ finding ∷ []) }
        ensures err { OnErr result (self.new ≡ self.old) }
    {
        self.findings.push(finding)?;
        Ok(())
    }

    /// The findings as a list of their own, which ascends by partner.
    pub fn into_list(self) -> Vec<Finding>
        ensures list { result.items ≡ self }
        ensures order { AreInOrder self }
    {
        let Findings { findings } = self;
        findings
    }
}
