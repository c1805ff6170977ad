ghost use Rattle.std.specs.Prelude.{◌≡◌, ◌≢◌, ◌≤◌, ◌<◌, ◌==◌, ℕ, not, true, false, length, None, Some, is_some, MatchOption, vec_len, vec_capacity};
ghost use Rattle.topology_terms.specs.Project.{AreAscending, rule_at};
ghost use Rattle.topology_terms.specs.Causes.{is_row, is_there};
ghost use Rattle.topo_core.specs.RuleLists.{lower_from, with_rule, without_rule};

use rule_core::{InForce, RuleRow};

fn is_row(a: &RuleRow, b: &RuleRow) -> bool
    ensures test { result ≡ is_row a.now b.now }
    ensures same { result ≡ true → a.now ≡ b.now }
{
    a.kind == b.kind && a.origin.same(&b.origin) && a.dest_side().same(&b.dest_side())
}

/// The number of the rule in force that has this row.
pub fn number_of_row(rules: &[InForce], row: &RuleRow) -> Option<u16>
    requires { AreAscending rules.now }
    ensures { MatchOption result (is_there rules.now row.now ≡ false) (λ n. (rule_at rules.now n ≡ Some row.now) × (is_there rules.now row.now ≡ true)) }
{
    for rule in rules {
        if is_row(&rule.row, row) {
            return Some(rule.number);
        }
    }
    None
}

/// The least number from 1 that no rule has.
pub fn free_number(rules: &[InForce]) -> u16
    requires few { length rules.now < 256 }
    requires ascending { AreAscending rules.now }
    ensures from_1 { 1 ≤ result }
    ensures most { result ≤ 256 }
    ensures free { rule_at rules.now result ≡ None }
    ensures least { (k : ℕ) → 1 ≤ k → k < result → rule_at rules.now k ≢ None }
{
    let mut number = 1;
    for rule in rules {
        if rule.number == number {
            number += 1;
        }
    }
    number
}

// How many of the rules have numbers below this one.
fn place_of(rules: &[InForce], number: u16) -> usize
    ensures within { result ≤ length rules.now }
    ensures place { result ≡ lower_from 0 number rules.now }
{
    let mut place = 0;
    for rule in rules {
        if rule.number < number {
            place += 1;
        }
    }
    place
}

/// Puts the rule into the list at its place. There is room.
pub fn put_rule(rules: &mut Vec<InForce>, rule: InForce)
    requires ascending { AreAscending rules.old.items }
    requires room { vec_len rules.old < vec_capacity rules.old }
    ensures { rules.new.items ≡ with_rule rules.old.items rule }
{
    let place = place_of(rules, rule.number);
    rules.insert(place, rule).unwrap();
}

/// Whether a rule in force has this number.
#[tactic(auto, unfolding(topology_terms::specs::Project::rule_at))]
pub fn has_number(rules: &[InForce], number: u16) -> bool
    ensures { result ≡ is_some (rule_at rules.now number) }
{
    for rule in rules {
        if rule.number == number {
            return true;
        }
    }
    false
}

fn has_other_number(rule: &InForce, number: u16) -> bool
    ensures { result ≡ not (rule.now.number == number) }
{
    rule.number != number
}

/// Takes the rule of this number out of the list.
pub fn drop_from(rules: &mut Vec<InForce>, number: u16)
    ensures { rules.new.items ≡ without_rule rules.old.items number }
{
    rules.retain(|rule| has_other_number(rule, number));
}
