// The windows of a profile's rules.
ghost use Rattle.std.specs.Prelude.{◌≡◌, ◌≤◌, length, get_or};
ghost use Rattle.tables.specs.Inner.Tables.{places};
ghost use Rattle.packing.specs.RulePlace.{rule_at};
ghost use Rattle.machine.specs.Offers.{window_of, longest};
ghost use Rattle.given.specs.Parts.{rules_of};

use rules::{Kind, Rule};

// A rate rule's window, 0 for an absolute rule.
fn window(rule: Rule) -> u64
    ensures { result ≡ window_of rule.kind }
{
    let kind = rule.kind;
    match kind {
        Kind::Rate(window) => window,
        Kind::Absolute => 0,
    }
}

// The longest window of the rules in the first k places, 0 if none is a rate rule.
fn longest_of(rules: &[u64], k: usize) -> u64
    requires { (length rules.now ≡ 512) × (k ≤ 256) }
    ensures { result ≡ longest (places 2 rule_at k rules.now) }
{
    let mut most: u64 = 0;
    for i in 0..k {
        most = window(crate::rule_at(rules, i)).max(most);
    }
    most
}

// The longest window of a table's rules, 0 if none is a rate rule.
pub fn longest_window(rules: &[u64]) -> u64
    requires { (length rules.now ≡ 513) × (get_or rules.now 0 0 ≤ 256) }
    ensures { result ≡ longest (rules_of rules.now) }
{
    let k = rules[0] as usize;
    longest_of(&rules[1..crate::RULES_SIZE], k)
}
