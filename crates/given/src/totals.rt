// The totals of a rule's accounts, tested by differences.
ghost use Rattle.std.specs.Prelude.{◌≡◌, cond, ◌+◌, ◌≤◌, length, drop};
ghost use Rattle.rules.specs.Rules.{is_rate};
ghost use Rattle.rules.specs.Valid.{is_total_number};
ghost use Rattle.rules.specs.declared.Rule.{Rule};
ghost use Rattle.machine.specs.State.{cells_by};
ghost use Rattle.packing.specs.Gaps.{is_clear};
ghost use Rattle.given.specs.Parts.{own_hold};

use rules::{Kind, Rule, Scope};

// The most that a rule of this kind may have counted in a total: nothing for a rate rule.
fn total_most(kind: Kind) -> u64
    ensures { result ≡ cond (is_rate kind) 0 1_000_000_000_000_000_000 }
{
    match kind {
        Kind::Rate(_) => 0,
        Kind::Absolute => measures::TOTAL_MOST,
    }
}

// Gaps that are clear just if a rule may have this total.
fn total_gaps(rule: Rule, total: u64) -> u64
    ensures { is_clear result ≡ is_total_number rule total }
{
    let kind = rule.kind;
    packing::gap(total_most(kind), total) | total
}

// Gaps that are clear just if the accounts of a rule, which begin at a place, have totals that it may have.
pub(crate) fn own_gaps(rule: Rule, totals: &[u64], place: usize) -> u64
    requires { place + 4 ≤ length totals.now }
    ensures { is_clear result ≡ own_hold (cells_by rule) (drop place totals.now) }
{
    let scope = rule.scope;
    match scope {
        Scope::EveryFill => total_gaps(rule, totals[place]),
        Scope::WholeRoot(_) => total_gaps(rule, totals[place])
            | total_gaps(rule, totals[place + 1])
            | total_gaps(rule, totals[place + 2])
            | total_gaps(rule, totals[place + 3]),
        Scope::OneUnit(_, _) => total_gaps(rule, totals[place]),
    }
}
