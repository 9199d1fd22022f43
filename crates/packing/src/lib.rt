// How a rule and a log entry stand in two numbers each.
#![tactic(auto)]

ghost use Rattle.std.specs.Prelude.{◌≡◌, ◌%◌, ◌&&◌, [], ◌∷◌, nat_lt};
ghost use Rattle.measures.specs.Ranges.{is_in, premiums, offers};
ghost use Rattle.packing.specs.RulePlace.{limit_number, root_number, rule_at, is_rule_place, rule_place};
ghost use Rattle.rules.specs.Valid.{is_rule};
ghost use Rattle.packing.specs.EntryPlace.{entry_at, entry_place};
ghost use Rattle.packing.specs.Gaps.{gap_of, entry_gaps};

mod terms;
mod words;

use machine::Entry;
use measures::{Contracts, TenThousandths, Time};
use rules::{Limit, Rule, Scope};
use tables::Place;

// Two to the 20th and to the 27th: what the longer fields stay below.
const TWO_20: u64 = 1_048_576;

const TWO_27: u64 = 134_217_728;

// Two to the 63rd: what joined gaps stay below where each is clear.
pub const CLEAR: u64 = 9_223_372_036_854_775_808;

// The place of what may not stand in one.
const NOTHING: Place = Place {
    first: 0,
    second: 0,
};

// The root that a scope gives, by its number or its name; 0 where there is none.
pub fn root_number(scope: Scope) -> u64
    ensures { result ≡ root_number scope }
{
    terms::scope_fields(scope).1
}

// A limit's number.
pub fn limit_number(limit: Limit) -> u64
    ensures { result ≡ limit_number limit }
{
    terms::limit_fields(limit).1
}

// The rule that two numbers stand for.
pub fn rule_of(first: u64, second: u64) -> Rule
    ensures { result ≡ rule_at (first ∷ second ∷ []) }
{
    let scope = terms::scope_of(second / 256 % 4, second / 4 % 64, second % 4);
    let kind = terms::kind_of(second / 1024 % 2, first % TWO_27);
    let limit = terms::limit_of(second / 2048 % 4, first / TWO_27);
    Rule { scope, kind, limit }
}

// The window in a rule's first number, 0 for an absolute rule.
pub fn window_of(first: u64) -> u64
    ensures { result ≡ first % 134_217_728 }
{
    first % TWO_27
}

// Whether two numbers are those of a rule that a profile with so many roots may hold, and nothing else.
pub fn is_rule(first: u64, second: u64, roots: u64) -> bool
    ensures { result ≡ is_rule_place roots (first ∷ second ∷ []) }
{
    // A measure that is known has nothing above it.
    if !(terms::is_limit(second / 2048, first / TWO_27)
        & terms::is_kind(second / 1024 % 2, first % TWO_27))
    {
        return false;
    }
    terms::is_scope(roots, second / 256 % 4, second / 4 % 64, second % 4)
}

// Whether a profile with 64 roots may hold a rule.
#[tactic(auto, using(crate::proofs::RuleTests::rule_valid))]
fn may_hold(rule: Rule) -> bool
    ensures { result ≡ is_rule 64 rule }
{
    let (measure, n) = terms::limit_fields(rule.limit);
    let (kind, window) = terms::kind_fields(rule.kind);
    let (scope, root, unit) = terms::scope_fields(rule.scope);
    terms::is_limit(measure, n)
        & terms::is_kind(kind, window)
        & terms::is_scope(64, scope, root, unit)
}

// The two numbers of a rule, 0 and 0 for one that no profile may hold.
pub fn rule_place(rule: Rule) -> Place
    ensures { result ≡ rule_place rule }
{
    if !may_hold(rule) {
        return NOTHING;
    }
    Place {
        first: words::limit_word(rule),
        second: words::scope_word(rule),
    }
}

// The entry that two numbers stand for.
pub fn entry_of(first: u64, second: u64) -> Entry
    ensures { result ≡ entry_at (first ∷ second ∷ []) }
{
    Entry {
        time: first / 1024 % TWO_27,
        root: first / 16 % 64,
        unit: first / 4 % 4,
        premium: TenThousandths(second / TWO_20 % TWO_27),
        contracts: Contracts(second % TWO_20),
        forroot: first / 2 % 2 == 1,
        forfirm: first % 2 == 1,
    }
}

// Whether the numbers of an entry other than its time and its unit are in their ranges, with so many roots.
fn are_ranged(roots: u64, root: u64, premium: u64, contracts: u64) -> bool
    ensures { result ≡ (nat_lt root roots && is_in premiums premium && is_in offers contracts) }
{
    (root < roots)
        & measures::is_in(
            premium,
            TenThousandths::PREMIUM_LEAST,
            TenThousandths::PREMIUM_MOST,
        )
        & measures::is_in(contracts, Contracts::OFFER_LEAST, Contracts::OFFER_MOST)
}

// How far a number is above another, modulo 2^64: clear, which is below 2^63, just where it is not less, if both are below 2^63. Gaps are joined by |, and
// what they are joined to is clear just where each is.
#[tactic(auto, unfolding(crate::specs::Gaps::gap_of))]
pub fn gap(a: u64, b: u64) -> u64
    ensures { result ≡ gap_of a b }
{
    std::num::wrapping_sub_u64(a, b)
}

// The gaps that tell whether two numbers are those of an entry, its time aside: every other number is in its range, with so many roots.
#[tactic(auto, unfolding(crate::specs::Gaps::entry_gaps))]
pub fn entry_gaps(first: u64, second: u64, roots: u64) -> u64
    ensures { result ≡ entry_gaps roots first second }
{
    let root = first / 16 % 64;
    // A premium in range has nothing above it.
    let premium = second / TWO_20;
    let contracts = second % TWO_20;
    gap(roots.min(64), root + 1)
        | (gap(premium, TenThousandths::PREMIUM_LEAST) | gap(TenThousandths::PREMIUM_MOST, premium))
        | (gap(contracts, Contracts::OFFER_LEAST) | gap(Contracts::OFFER_MOST, contracts))
}

// The two numbers of an entry, 0 and 0 for one with a number out of its range, with 64 roots.
pub fn entry_place(e: Entry) -> Place
    ensures { result ≡ entry_place e }
{
    if !(measures::is_in(e.time, 0, Time::MOST)
        & are_ranged(64, e.root, e.premium.0, e.contracts.0)
        & measures::is_in(e.unit, 0, 3))
    {
        return NOTHING;
    }
    Place {
        first: words::fill_word(e),
        second: words::amount_word(e),
    }
}
