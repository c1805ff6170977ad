ghost use Rattle.std.specs.Prelude.{◌≡◌};
ghost use Rattle.error_store.specs.Pairs.{pair};

use crate::pair::Pair;
use std::marker::Model;
use std::num::NonZeroU32;

/// By what an error is known. Keys stand by rule, then by subject, then by partner; none stands before every partner.
#[derive(Clone, Copy)]
pub struct Key {
    /// The number of the rule.
    pub rule: u16,
    /// The handle of the subject.
    pub subject: u32,
    /// The handle of the partner, where there is one. Handles are numbered from 1.
    pub other: Option<NonZeroU32>,
}

impl Model for Key {
    ghost use Rattle.std.specs.Option.{option_map_or};
    ghost use Rattle.std.specs.NonZero.{non_zero_u32_get};
    ghost use Rattle.error_store.specs.Keys as terms;
    ghost use Rattle.error_store.specs.Partners.{given, given_back};

    ghost Value = { terms.Key };

    ghost view = { λ k. record { rule = k.rule; subject = k.subject; other = option_map_or non_zero_u32_get k.other 0 } };

    ghost inverse = { λ v. record { rule = v.rule; subject = v.subject; other = given v.other } };

    ghost inverse_ok = { λ k _ i. record { rule = k.rule; subject = k.subject; other = given_back k.other i } };
}

impl Key {
    /// The key of these numbers, as texts have them: the partner 0, which no feature has, stands for none.
    pub fn of_numbers(rule: u16, subject: u32, partner: u32) -> Key
        ensures { result ≡ record { rule = rule; subject = subject; other = partner } }
    {
        Key {
            rule,
            subject,
            other: NonZeroU32::new(partner),
        }
    }

    /// The rule and the subject.
    pub(crate) fn pair(&self) -> Pair
        ensures { result ≡ pair self.now.rule self.now.subject }
    {
        Pair {
            rule: self.rule,
            subject: self.subject,
        }
    }

    /// The handle of the partner as texts have it; 0, which no feature has, where there is none.
    pub fn partner_number(&self) -> u32
        ensures { result ≡ self.now.other }
    {
        match self.other {
            Some(handle) => handle.get(),
            None => 0,
        }
    }
}
