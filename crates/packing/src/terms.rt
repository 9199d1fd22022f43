// A rule's limit, kind and scope as numbers: the fields of each, what fields stand for, and which may stand there.
ghost use Rattle.std.specs.Prelude.{◌≡◌, ◌≤◌};
ghost use Rattle.measures.specs.Ranges.{◌to◌, is_in};
ghost use Rattle.packing.specs.RulePlace.{limit_number, measure_number, window_number, kind_number, scope_number, root_number, unit_number, limit_from, kind_from, scope_from, is_limit_place, is_kind_place, is_scope_place};

use measures::{Contracts, Dollars, Executions, Time};
use rules::{Kind, Limit, Scope};

// The fields of a limit: the number of its measure, and its own.
pub(crate) fn limit_fields(limit: Limit) -> (u64, u64)
    ensures { (result.0 ≡ measure_number limit) × (result.1 ≡ limit_number limit) }
{
    match limit {
        Limit::Notional(dollars) => (0, dollars.0),
        Limit::Volume(contracts) => (1, contracts.0),
        Limit::Count(executions) => (2, executions.0),
    }
}

// The fields of a kind: its number and its window, 0 for none.
pub(crate) fn kind_fields(kind: Kind) -> (u64, u64)
    ensures { (result.0 ≡ kind_number kind) × (result.1 ≡ window_number kind) }
{
    match kind {
        Kind::Rate(window) => (0, window),
        Kind::Absolute => (1, 0),
    }
}

// The fields of a scope: its number, its root and its unit, 0 for none.
pub(crate) fn scope_fields(scope: Scope) -> (u64, u64, u64)
    ensures { (result.0 ≡ scope_number scope) × (result.1 ≡ root_number scope) × (result.2 ≡ unit_number scope) }
{
    match scope {
        Scope::EveryFill => (0, 0, 0),
        Scope::WholeRoot(root) => (1, root, 0),
        Scope::OneUnit(root, unit) => (2, root, unit),
    }
}

// The limit of a measure, by the measure's number.
#[tactic(auto, unfolding(crate::specs::RulePlace::limit_from))]
pub(crate) fn limit_of(measure: u64, n: u64) -> Limit
    ensures { result ≡ limit_from measure n }
{
    match measure {
        0 => Limit::Notional(Dollars(n)),
        1 => Limit::Volume(Contracts(n)),
        _ => Limit::Count(Executions(n)),
    }
}

// The kind with a window, by the kind's number.
#[tactic(auto, unfolding(crate::specs::RulePlace::kind_from))]
pub(crate) fn kind_of(n: u64, window: u64) -> Kind
    ensures { result ≡ kind_from n window }
{
    match n {
        0 => Kind::Rate(window),
        _ => Kind::Absolute,
    }
}

// The scope of a root and a unit, by the scope's number.
#[tactic(auto, unfolding(crate::specs::RulePlace::scope_from))]
pub(crate) fn scope_of(n: u64, root: u64, unit: u64) -> Scope
    ensures { result ≡ scope_from n root unit }
{
    match n {
        0 => Scope::EveryFill,
        1 => Scope::WholeRoot(root),
        _ => Scope::OneUnit(root, unit),
    }
}

// Whether a number lies in a range, by one comparison: its distance from the least wraps where it is below it.
#[tactic(auto, using(crate::proofs::RuleTests::within_test))]
fn is_within(n: u64, least: u64, most: u64) -> bool
    requires { least ≤ most }
    ensures { result ≡ is_in (least to most) n }
{
    crate::gap(n, least) <= most - least
}

// Whether a number is what a limit of this measure, by the measure's number, may be.
pub(crate) fn is_limit(measure: u64, n: u64) -> bool
    ensures { result ≡ is_limit_place measure n }
{
    let most = if measure == 0 {
        Dollars::LIMIT_MOST
    } else {
        Contracts::LIMIT_MOST
    };
    (measure <= 2) & is_within(n, Dollars::LIMIT_LEAST, most)
}

// Whether a window is what a kind, by its number, may have.
pub(crate) fn is_kind(n: u64, window: u64) -> bool
    ensures { result ≡ is_kind_place n window }
{
    let (least, most) = if n == 0 {
        (Time::WINDOW_LEAST, Time::WINDOW_MOST)
    } else {
        (0, 0)
    };
    (n <= 1) & is_within(window, least, most)
}

// Whether a root and a unit are what a scope, by its number, may have with so many roots.
#[tactic(auto, using(crate::proofs::RuleTests::scope_every, crate::proofs::RuleTests::scope_whole, crate::proofs::RuleTests::scope_unit))]
pub(crate) fn is_scope(roots: u64, n: u64, root: u64, unit: u64) -> bool
    ensures { result ≡ is_scope_place roots n root unit }
{
    match n {
        0 => (root == 0) & (unit == 0),
        1 => (root < roots) & (unit == 0),
        _ => (n == 2) & (root < roots) & (unit <= 3),
    }
}
