// The refusals that the calls meet, each by the first number that applies.
ghost use Rattle.std.specs.Prelude.{◌≡◌, not, ◌&&◌, ◌||◌, ◌<◌, length, leb, ltb, eqb};
ghost use Rattle.measures.specs.Ranges.{is_in, times, premiums, offers};
ghost use Rattle.machine.specs.Calls.{Call};
ghost use Rattle.machine.specs.State.{rules_in};
ghost use Rattle.machine.specs.Remaining.{is_cell};
ghost use Rattle.machine.specs.Register.{is_open};
ghost use Rattle.register.specs.Register.{sent_at_place};
ghost use Rattle.state.specs.State.{decode};
ghost use Rattle.state.specs.Inner.Laid.{Laid};
ghost use Rattle.refusals.specs.Numbers.{refused_with};
ghost use Rattle.calls.specs.Calls.{memory_refusal, timed_refusal, refusal_in, offer_refusal};

use crate::granting;
use machine::Offer;
use measures::{Contracts, TenThousandths, Time};
use refusals::Refusal;

// Whether a time is out of range, or below the clock.
pub fn bad_time(time: u64, clock: u64) -> bool
    ensures { result ≡ not (is_in times time && leb clock time) }
{
    !(measures::is_in(time, 0, Time::MOST) & (clock <= time))
}

// The refusal that every call with a time meets first on tested memory, by its time.
fn timed_refusal(m: &[u64], time: u64) -> Result<(), Refusal>
    requires { memory_refusal m.now ≡ 0 }
    ensures { refused_with result ≡ timed_refusal m.now time }
{
    if bad_time(time, state::clock_in(m)) {
        return Err(Refusal::BadTime);
    }
    Ok(())
}

// The refusal that an order meets.
pub(crate) fn order_refusal(m: &[u64], time: u64, root: u64, reset: u64) -> Result<(), Refusal>
    requires { memory_refusal m.now ≡ 0 }
    ensures { refused_with result ≡ refusal_in m.now (Call.order time root reset) }
{
    timed_refusal(m, time)?;
    if !((root < state::roots_in(m)) & (reset <= 6)) {
        return Err(Refusal::Unknown);
    }
    Ok(())
}

// The refusal that a lockout meets.
pub(crate) fn lockout_refusal(m: &[u64], time: u64, level: u64, root: u64) -> Result<(), Refusal>
    requires { memory_refusal m.now ≡ 0 }
    ensures { refused_with result ≡ refusal_in m.now (Call.lockout time level root) }
{
    timed_refusal(m, time)?;
    if !((level == 0) & (root < state::roots_in(m)) | (level == 1) & (root == 0)) {
        return Err(Refusal::Unknown);
    }
    Ok(())
}

// Whether a number is a premium.
fn is_premium(n: u64) -> bool
    ensures { result ≡ is_in premiums n }
{
    TenThousandths::premium(n).is_some()
}

// Whether a number is that of an offer's contracts.
fn is_offer(n: u64) -> bool
    ensures { result ≡ is_in offers n }
{
    Contracts::offer(n).is_some()
}

// Whether the numbers of an offer are in their ranges: premium and contracts.
fn is_priced(o: Offer) -> bool
    ensures { result ≡ (is_in premiums o.premium && is_in offers o.contracts) }
{
    is_premium(o.premium) & is_offer(o.contracts)
}

// The refusal that an offer meets before the log is looked at.
pub(crate) fn offer_refusal(m: &[u64], o: Offer) -> Result<(), Refusal>
    requires { memory_refusal m.now ≡ 0 }
    ensures { refused_with result ≡ offer_refusal m.now o }
{
    timed_refusal(m, o.time)?;
    if !((o.root < state::roots_in(m)) & measures::is_in(o.unit, 0, 3)) {
        return Err(Refusal::Unknown);
    }
    if !is_priced(o) {
        return Err(Refusal::BadAmount);
    }
    Ok(())
}

// Whether there is such a rule, and it counts for such a unit.
fn is_cell(m: &[u64], rule: u64, unit: u64) -> bool
    requires { Laid m.now }
    ensures { result ≡ is_cell (rules_in (decode m.now)) rule unit }
{
    if state::rules_in(m) as u64 <= rule {
        return false;
    }
    let known = state::rule_in(m, rule as usize);
    known.counts_for(unit)
}

// The refusal that a question after what remains meets.
pub(crate) fn remaining_refusal(m: &[u64], time: u64, rule: u64, unit: u64) -> Result<(), Refusal>
    requires { memory_refusal m.now ≡ 0 }
    ensures { refused_with result ≡ refusal_in m.now (Call.remaining time rule unit) }
{
    timed_refusal(m, time)?;
    if !is_cell(m, rule, unit) {
        return Err(Refusal::Unknown);
    }
    Ok(())
}

// Whether an order of an identity is open away.
fn is_open(m: &[u64], identity: u64) -> bool
    requires { Laid m.now }
    ensures { result ≡ is_open (decode m.now).part.register identity }
{
    register::find(&m[state::REGISTER..state::LOG], identity) < state::orders_in(m)
}

// The refusal that a sending meets.
pub fn send_refusal(m: &[u64], o: Offer, identity: u64, reports: u64) -> Result<(), Refusal>
    requires { memory_refusal m.now ≡ 0 }
    ensures { refused_with result ≡ refusal_in m.now (Call.send o identity reports) }
{
    timed_refusal(m, o.time)?;
    if !((o.root < state::roots_in(m))
        & measures::is_in(o.unit, 0, 3)
        & measures::is_in(identity, 0, register::IDENTITY_MOST))
    {
        return Err(Refusal::Unknown);
    }
    if !(is_priced(o) & measures::is_in(reports, 1, register::REPORTS_MOST)) {
        return Err(Refusal::BadAmount);
    }
    if register::PLACES <= state::orders_in(m) {
        return Err(Refusal::RegisterFull);
    }
    if is_open(m, identity) {
        return Err(Refusal::IdentityClash);
    }
    if granting::lacks_places(m, o, reports) {
        return Err(Refusal::LogFull);
    }
    Ok(())
}

// The refusal that the closing of an order meets.
pub(crate) fn close_refusal(m: &[u64], time: u64, identity: u64) -> Result<(), Refusal>
    requires { memory_refusal m.now ≡ 0 }
    ensures { refused_with result ≡ refusal_in m.now (Call.close time identity) }
{
    timed_refusal(m, time)?;
    if !measures::is_in(identity, 0, register::IDENTITY_MOST) {
        return Err(Refusal::Unknown);
    }
    if !is_open(m, identity) {
        return Err(Refusal::IdentityClash);
    }
    Ok(())
}

// Whether more contracts are reported than the order at a place has open, or none of its reports is left.
fn is_overdrawn(m: &[u64], i: usize, contracts: u64) -> bool
    requires { Laid m.now × (i < length (decode m.now).part.register) }
    ensures { result ≡ (ltb (sent_at_place (decode m.now).part.register i).contracts.0 contracts || eqb (sent_at_place (decode m.now).part.register i).reports 0) }
{
    let sent = register::sent_in(&m[state::REGISTER..state::LOG], i);
    (sent.contracts.0 < contracts) | (sent.reports == 0)
}

// The refusal that a report meets.
pub fn report_refusal(m: &[u64], time: u64, identity: u64, contracts: u64) -> Result<(), Refusal>
    requires { memory_refusal m.now ≡ 0 }
    ensures { refused_with result ≡ refusal_in m.now (Call.report time identity contracts) }
{
    timed_refusal(m, time)?;
    if !measures::is_in(identity, 0, register::IDENTITY_MOST) {
        return Err(Refusal::Unknown);
    }
    if !is_offer(contracts) {
        return Err(Refusal::BadAmount);
    }
    let i = register::find(&m[state::REGISTER..state::LOG], identity);
    if state::orders_in(m) <= i {
        return Err(Refusal::IdentityClash);
    }
    if is_overdrawn(m, i, contracts) {
        return Err(Refusal::OverReported);
    }
    Ok(())
}
