// Which values of fields are an event's: the least and the most of each field by the kind, as the table of specs/Kinds has them, and one test of all.
ghost use Rattle.std.specs.Prelude.{◌≡◌, [], ◌∷◌, ◌≤◌, length, get_or};
ghost use Rattle.records.specs.Form.{stands};
ghost use Rattle.records.specs.Event.{form};
ghost use Rattle.records.specs.Event16.{form16};
ghost use Rattle.records.specs.Kinds.{uses16};
ghost use Rattle.records.specs.Inner.Ranges.{least_fields, most_fields, are_between, uses12};

use measures::{Contracts, TenThousandths, Time};

// The last kind of each form.
const LAST_KIND: u64 = 2;

const LAST_KIND16: u64 = 5;

// The last microsecond of the day, the highest reset of 16 bytes, the highest identity, and the fewest and the most reports that a sending may ask for.
const LAST_STAMP: u64 = 86_399_999_999;

const RESET_MOST: u64 = 6;

const IDENTITY_MOST: u64 = 65_535;

const REPORTS_LEAST: u64 = 1;

const REPORTS_MOST: u64 = 16;

// No spare bit is set.
const SPARE_MOST: u64 = 0;

// Whether each number lies between the least and the most at its place. No test ends the loop, so that nothing branches by the kind.
fn are_between(v: &[u64], least: &[u64], most: &[u64]) -> bool
    requires { (length least.now ≡ length v.now) × (length most.now ≡ length v.now) }
    ensures { result ≡ are_between least.now most.now v.now }
{
    let mut good = true;
    for (i, n) in v.iter().enumerate() {
        good = good & measures::is_in(*n, least[i], most[i]);
    }
    good
}

// The least of each field of 12 bytes by the kind.
fn least(kind: u64) -> [u64; 9]
    ensures { kind ≤ 2 → result ≡ 0 ∷ least_fields (get_or uses12 kind []) }
{
    let premium = numbers::pick(kind == 1, TenThousandths::PREMIUM_LEAST, 0);
    let contracts = numbers::pick(kind == 1, Contracts::OFFER_LEAST, 0);
    [0, 0, 0, 0, premium, contracts, 0, 0, 0]
}

// The most of each: the last kind, and 0 where the kind does not use the field.
fn most(kind: u64) -> [u64; 9]
    ensures result_value { get_or result 0 0 ≡ 2 }
    ensures value { kind ≤ 2 → result ≡ 2 ∷ most_fields (get_or uses12 kind []) }
{
    let trades = kind == 1;
    [
        LAST_KIND,
        Time::MOST,
        63,
        numbers::pick(trades, 3, 0),
        numbers::pick(trades, TenThousandths::PREMIUM_MOST, 0),
        numbers::pick(trades, Contracts::OFFER_MOST, 0),
        numbers::pick(kind == 0, 3, 0),
        numbers::pick(kind == 2, 1, 0),
        SPARE_MOST,
    ]
}

// The same of 16 bytes: offers and sendings trade, and reports tell contracts too.
fn least16(kind: u64) -> [u64; 11]
    ensures { kind ≤ 5 → result ≡ 0 ∷ least_fields (get_or uses16 kind []) }
{
    let trades = (kind == 1) | (kind == 3);
    let premium = numbers::pick(trades, TenThousandths::PREMIUM_LEAST, 0);
    let contracts = numbers::pick(trades | (kind == 4), Contracts::OFFER_LEAST, 0);
    let reports = numbers::pick(kind == 3, REPORTS_LEAST, 0);
    [0, 0, 0, 0, premium, contracts, 0, 0, 0, reports, 0]
}

fn most16(kind: u64) -> [u64; 11]
    ensures result_value { get_or result 0 0 ≡ 5 }
    ensures value { kind ≤ 5 → result ≡ 5 ∷ most_fields (get_or uses16 kind []) }
{
    let trades = (kind == 1) | (kind == 3);
    [
        LAST_KIND16,
        LAST_STAMP,
        numbers::pick(kind <= 3, 63, 0),
        numbers::pick(trades, 3, 0),
        numbers::pick(trades, TenThousandths::PREMIUM_MOST, 0),
        numbers::pick(trades | (kind == 4), Contracts::OFFER_MOST, 0),
        numbers::pick(kind == 0, RESET_MOST, 0),
        numbers::pick(kind == 2, 1, 0),
        numbers::pick(3 <= kind, IDENTITY_MOST, 0),
        numbers::pick(kind == 3, REPORTS_MOST, 0),
        SPARE_MOST,
    ]
}

// Whether 12 bytes' fields are an event's: each lies in its range by the kind, and a lockout of the firm names root 0.
pub(crate) fn is_event(v: &[u64; 9]) -> bool
    ensures { result ≡ stands form v.now }
{
    let kind = v[0];
    let low = least(kind);
    let high = most(kind);
    are_between(v, &low, &high) & ((v[7] == 0) | (v[2] == 0))
}

// Whether 16 bytes' fields are an event's, in the same way.
pub(crate) fn is_event16(v: &[u64; 11]) -> bool
    ensures { result ≡ stands form16 v.now }
{
    let kind = v[0];
    let low = least16(kind);
    let high = most16(kind);
    are_between(v, &low, &high) & ((v[7] == 0) | (v[2] == 0))
}
