// One rule more in a profile: whether it may join those before it, and how many there are with it.
#![tactic(auto)]

ghost use Rattle.std.specs.Prelude.{◌≡◌, List, ℕ, ◌+◌, ◌≤◌, ◌<◌, max};
ghost use Rattle.rules.specs.declared.Rule.{Rule};
ghost use Rattle.admission.specs.Inner.Counting.{SoFar, CountsSome, Follows, Numbered, RootIs, FewIn, over_in, covered_in};

use rules::{Rule, Scope};

// How many rules there are, how many roots have appeared in them, and how many are firm rules.
#[derive(Clone, Copy)]
pub struct Tally {
    pub rules: u64,
    pub seen: u64,
    pub firms: u64,
}

// How many roots have appeared with this one, which has appeared or is the next.
fn seen_with(seen: u64, root: u64) -> u64
    requires { (root ≤ seen) × (root < 64) }
    ensures { result ≡ max seen (root + 1) }
{
    if root == seen { seen + 1 } else { seen }
}

// Whether one of the four counts in a number, each at most 7, is above 6: with 0x79 more its byte has the highest bit.
fn is_over(w: u64) -> bool
    requires { FewIn w }
    ensures { result ≡ over_in w }
{
    (w + 0x7979_7979) & 0x8080_8080 != 0
}

// Counts a rule of a root, which adds so much to the counts of its four units, unless that root is neither one that has appeared nor the next, or the 65th,
// or a unit then has 7 rules. The four counts stand in one number, a byte each.
fn admit_root(rule: Rule, root: u64, more: u64, tally: Tally, counts: &mut [u64]) -> Option<Tally>
    requires { CountsSome tally counts.old × (tally.rules < 256) × Numbered rule.scope × RootIs root rule.scope × (more ≡ covered_in rule.scope root) }
    ensures { (before : List Rule) → SoFar before tally counts.old → Follows before tally rule result counts.old counts.new }
{
    let seen = tally.seen;
    if seen < root {
        return None;
    }
    if 64 <= root {
        return None;
    }
    let at = root as usize;
    let all = counts[at] + more;
    if is_over(all) {
        return None;
    }
    counts[at] = all;
    let rules = tally.rules + 1;
    Some(Tally {
        rules,
        seen: seen_with(seen, root),
        firms: tally.firms,
    })
}

// Counts one of at most 256 rules, unless it is one too many at its level or its root is neither one that has appeared nor the next.
pub fn admit_next(rule: Rule, tally: Tally, counts: &mut [u64]) -> Option<Tally>
    requires { CountsSome tally counts.old × (tally.rules < 256) × Numbered rule.scope }
    ensures { (before : List Rule) → SoFar before tally counts.old → Follows before tally rule result counts.old counts.new }
{
    let scope = rule.scope;
    match scope {
        Scope::EveryFill => {
            if 10 <= tally.firms {
                return None;
            }
            let rules = tally.rules + 1;
            let firms = tally.firms + 1;
            Some(Tally {
                rules,
                seen: tally.seen,
                firms,
            })
        }
        // It adds 1 in every byte, or in that of its unit.
        Scope::WholeRoot(root) => admit_root(rule, root, 0x0101_0101, tally, counts),
        Scope::OneUnit(root, unit) => admit_root(rule, root, 1u64 << (unit * 8), tally, counts),
    }
}

// Counts a rule, unless it is one too many or its root is neither one that has appeared nor the next.
pub fn admit(rule: Rule, tally: Tally, counts: &mut [u64]) -> Option<Tally>
    requires { CountsSome tally counts.old × Numbered rule.scope }
    ensures { (before : List Rule) → SoFar before tally counts.old → Follows before tally rule result counts.old counts.new }
{
    if 256 <= tally.rules {
        return None;
    }
    admit_next(rule, tally, counts)
}
