// The tests of a state's roots, rules and totals: whether they are such as some accepted profile gives.
#![tactic(auto)]

ghost use Rattle.std.specs.Prelude.{◌≡◌, ◌&&◌, ◌*◌, ◌≤◌, ◌<◌, length, drop};
ghost use Rattle.tables.specs.Inner.Tables.{places};
ghost use Rattle.packing.specs.RulePlace.{rule_at};
ghost use Rattle.machine.specs.State.{cells_of};
ghost use Rattle.machine.specs.Offers.{longest};
ghost use Rattle.given.specs.Parts.{places_hold, rules_of, rules_hold, totals_hold, totals_size};
ghost use Rattle.given.specs.Inner.Tested.{tested_of};

pub mod roots;
mod totals;
pub mod windows;

use admission::Tally;
use rules::Rule;

// How many numbers the tables of the roots and of the rules take: a count, then 64 names, or 256 places of two numbers.
pub const ROOTS_SIZE: usize = 1 + 64;

pub const RULES_SIZE: usize = 1 + 2 * 256;

// How many the totals take: one for each of four units of 256 rules.
pub const TOTALS_SIZE: usize = 4 * 256;

// The rule at place i of the rules.
pub fn rule_at(rules: &[u64], i: usize) -> Rule
    requires { (length rules.now ≡ 512) × (i < 256) }
    ensures { result ≡ rule_at (drop (i * 2) rules.now) }
{
    let at = i * 2;
    let first = rules[at];
    let second = rules[at + 1];
    packing::rule_of(first, second)
}

// Tests in one pass that the first k places hold rules of n roots, in order, none too many, and that their accounts have totals; the other places of both
// hold 0. That a root is one of the n follows where all have appeared. The answer is the rules' longest window, 0 if none is a rate rule.
fn test_places(rules: &[u64], totals: &[u64], k: usize, n: u64) -> Option<u64>
    requires { (length rules.now ≡ 512) × (length totals.now ≡ totals_size) × (k ≤ 256) × (n ≤ 64) }
    ensures { result ≡ tested_of (places_hold n k rules.now && totals_hold (cells_of (places 2 rule_at k rules.now)) totals.now) (longest (places 2 rule_at k rules.now)) }
{
    let mut counts = [0u64; 64];
    let mut tally = Tally {
        rules: 0,
        seen: 0,
        firms: 0,
    };
    let mut gaps: u64 = 0;
    let mut most: u64 = 0;
    let mut place: usize = 0;
    for i in 0..k {
        let at = i * 2;
        let first = rules[at];
        let second = rules[at + 1];
        if !packing::is_rule(first, second, 64) {
            return None;
        }
        let rule = packing::rule_of(first, second);
        tally = admission::admit_next(rule, tally, &mut counts)?;
        gaps |= totals::own_gaps(rule, totals, place);
        place += rule.accounts();
        most = packing::window_of(first).max(most);
    }
    if (tally.seen == n)
        & tables::is_zero(&rules[k * 2..])
        & (gaps < packing::CLEAR)
        & tables::is_zero(&totals[place..])
    {
        return Some(most);
    }
    None
}

// Tests that the rules' table holds as many rules of n roots as it says, at least one, in order, none too many, and that their accounts have totals. The
// answer is their longest window, 0 if none is a rate rule.
pub fn test_rules(rules: &[u64], totals: &[u64], n: u64) -> Option<u64>
    requires { (length rules.now ≡ 513) × (length totals.now ≡ totals_size) × (n ≤ 64) }
    ensures { result ≡ tested_of (rules_hold n rules.now && totals_hold (cells_of (rules_of rules.now)) totals.now) (longest (rules_of rules.now)) }
{
    let k = rules[0];
    if !measures::is_in(k, 1, 256) {
        return None;
    }
    test_places(&rules[1..RULES_SIZE], totals, k as usize, n)
}
