// The state in lent memory: two seats side by side, each as the memory of one firm was. The test of the whole, and a firm's calls on its own seat.
#![tactic(auto)]

ghost use Rattle.std.specs.Prelude.{◌≡◌, true, ◌≤◌, length};
ghost use Rattle.refusals.specs.Numbers.{refused_with, numbered};
ghost use Rattle.machine.specs.Answer.{answer_told};
ghost use Rattle.machine.specs.Calls.{Call};
ghost use Rattle.profile.specs.Reading.{reading_told};
ghost use Rattle.state.specs.State.{size, decode};
ghost use Rattle.state.specs.Sound.{is_sound};
ghost use Rattle.firms.specs.Seats.{facing, room_beside};
ghost use Rattle.seats.specs.Memory.{seat_part, decode_seats, firm_of, use_in, use_answer, firm_refusal, is_seat, fit_together, is_sound_memory, firm_answer, firm_memory, clear_firm_answer, clear_firm_memory, clear_all_answer, clear_all_memory, arm_answer, arm_memory};

mod arming;
pub mod offers;
pub mod sends;
mod trims;

use machine::{Accepted, Offer};
use profile::{Armed, Fault};
use refusals::Refusal;

// The use of the log, and the places that the firm may use in all.
#[derive(Clone, Copy)]
pub struct Using {
    pub used: u64,
    pub places: u64,
}

// How many numbers the state takes.
pub const SIZE: usize = 2 * state::SIZE;

// Whether the numbers of one seat are zeros, or those of a sound state.
fn is_seat(s: &[u64]) -> bool
    requires { length s.now ≡ size }
    ensures { result ≡ is_seat s.now }
{
    if s[state::MARK] == 0 {
        return tables::is_zero(s);
    }
    state::is_sound(s)
}

// Whether two armed firms fit together: their names differ, and the log has room for both.
fn fit_together(a: &[u64], b: &[u64]) -> bool
    requires { (is_sound a.now ≡ true) × (is_sound b.now ≡ true) }
    ensures { result ≡ fit_together (decode a.now) (decode b.now) }
{
    let names = a[state::FIRM] != b[state::FIRM];
    let entries = state::entries_in(a) + state::entries_in(b);
    let used = state::used_at(a, state::clock_in(a)) + state::used_at(b, state::clock_in(b));
    names & (entries <= daylog::PLACES) & (used <= 512)
}

// Whether the memory holds a sound state.
pub fn is_sound(m: &[u64]) -> bool
    ensures { result ≡ is_sound_memory m.now }
{
    if m.len() < SIZE {
        return false;
    }
    let first = &m[0..state::SIZE];
    let second = &m[state::SIZE..SIZE];
    if !is_seat(first) {
        return false;
    }
    if !is_seat(second) {
        return false;
    }
    if first[state::MARK] == 0 {
        return second[state::MARK] != 0;
    }
    if second[state::MARK] == 0 {
        return true;
    }
    fit_together(first, second)
}

// The refusal that a firm's call meets by the memory and the firm's number.
pub fn refusal(m: &[u64], firm: u64) -> Result<(), Refusal>
    ensures { refused_with result ≡ firm_refusal m.now firm }
{
    if m.len() < SIZE {
        return Err(Refusal::NoRoom);
    }
    if 1 < firm {
        return Err(Refusal::Unknown); // the firms are 0 and 1
    }
    let at = firm as usize * state::SIZE;
    if m[at] == 0 {
        return Err(Refusal::NotArmed);
    }
    if !is_sound(m) {
        return Err(Refusal::Unsound);
    }
    Ok(())
}

// The part of a firm that no refusal keeps from its call.
pub fn part(m: &[u64], firm: u64) -> &[u64]
    requires { firm_refusal m.now firm ≡ 0 }
    ensures { result.now ≡ seat_part firm m.now }
{
    let at = firm as usize * state::SIZE;
    let end = at + state::SIZE;
    &m[at..end]
}

// How many places of the log a firm may use in all: 512 less the other's use, which is read as 192 if lower.
pub fn places_for(m: &[u64], firm: u64) -> u64
    requires { firm_refusal m.now firm ≡ 0 }
    ensures { result ≡ room_beside (facing (firm_of firm) (decode_seats m.now)).second }
{
    let other = state::SIZE - firm as usize * state::SIZE;
    let close = other + state::SIZE;
    offers::room_beside(&m[other..close])
}

// The use of the log in a firm's part at a time, beside so many places that it may use.
fn used_in(s: &[u64], time: u64, places: u64) -> Result<Using, Refusal>
    requires { is_sound s.now ≡ true }
    ensures { numbered result ≡ use_in (decode s.now) places time }
{
    if calls::refusing::bad_time(time, state::clock_in(s)) {
        return Err(Refusal::BadTime);
    }
    Ok(Using {
        used: state::used_at(s, time),
        places,
    })
}

// How much of the log a firm uses at a time, and how much it may use. No clock moves.
pub fn log_use(m: &[u64], firm: u64, time: u64) -> Result<Using, Refusal>
    ensures { numbered result ≡ use_answer m.now firm time }
{
    refusal(m, firm)?;
    let places = places_for(m, firm);
    used_in(part(m, firm), time, places)
}

// Arms a firm from a profile's text. Nothing is written before the whole text is accepted; then an unarmed other's seat becomes zeros too.
pub fn arm(m: &mut [u64], firm: u64, text: &[u8]) -> Result<Armed, Fault>
    ensures value { reading_told result ≡ arm_answer m.old firm text.now }
    ensures m_after { m.new ≡ arm_memory m.old firm text.now }
{
    arming::arm_refusal(m, firm)?;
    let at = firm as usize * state::SIZE;
    let end = at + state::SIZE;
    let other = state::SIZE - at;
    let close = other + state::SIZE;
    let name = arming::name_in(&m[other..close]);
    let scan = profile::read(text, name);
    let armed = scan.reading?;
    let names = scan.roots;
    let table = scan.rules;
    arming::clean(&mut m[other..close]);
    state::write_armed(
        &mut m[at..end],
        armed.firm,
        armed.roots,
        armed.rules,
        &names,
        &table,
    );
    Ok(armed)
}

// How the roots of a firm stand.
pub fn status(m: &[u64], firm: u64) -> Result<Accepted, Refusal>
    ensures { answer_told result ≡ firm_answer m.now firm Call.status }
{
    refusal(m, firm)?;
    let at = firm as usize * state::SIZE;
    let end = at + state::SIZE;
    Ok(calls::tested::status(&m[at..end]))
}

// A lockout of a root of a firm, or of the firm.
pub fn lockout(
    m: &mut [u64],
    firm: u64,
    time: u64,
    level: u64,
    root: u64,
) -> Result<Accepted, Refusal>
    ensures value { answer_told result ≡ firm_answer m.old firm (Call.lockout time level root) }
    ensures m_after { m.new ≡ firm_memory m.old firm (Call.lockout time level root) }
{
    refusal(m, firm)?;
    let at = firm as usize * state::SIZE;
    let end = at + state::SIZE;
    calls::tested::lockout(&mut m[at..end], time, level, root)
}

// An offered fill of a firm; when its entry joins the log, the other's old ones leave too.
pub fn offer(m: &mut [u64], firm: u64, o: Offer) -> Result<Accepted, Refusal>
    ensures value { answer_told result ≡ firm_answer m.old firm (Call.offer o) }
    ensures m_after { m.new ≡ firm_memory m.old firm (Call.offer o) }
{
    refusal(m, firm)?;
    let at = firm as usize * state::SIZE;
    let end = at + state::SIZE;
    let other = state::SIZE - at;
    let close = other + state::SIZE;
    let room = offers::room_beside(&m[other..close]);
    let called = offers::own_offer(&mut m[at..end], o, room)?;
    if called.joined {
        trims::trim_seat(&mut m[other..close]);
    }
    Ok(called.accepted)
}

// An order of a firm to be sent away.
pub fn send(
    m: &mut [u64],
    firm: u64,
    o: Offer,
    identity: u64,
    reports: u64,
) -> Result<Accepted, Refusal>
    ensures value { answer_told result ≡ firm_answer m.old firm (Call.send o identity reports) }
    ensures m_after { m.new ≡ firm_memory m.old firm (Call.send o identity reports) }
{
    refusal(m, firm)?;
    let at = firm as usize * state::SIZE;
    let end = at + state::SIZE;
    let other = state::SIZE - at;
    let close = other + state::SIZE;
    let room = offers::room_beside(&m[other..close]);
    sends::own_send(&mut m[at..end], o, identity, reports, room)
}

// A fill of a firm that came back; its entry joins the log where it has a rate rule, and then the other's old ones leave too.
pub fn report(
    m: &mut [u64],
    firm: u64,
    time: u64,
    identity: u64,
    contracts: u64,
) -> Result<Accepted, Refusal>
    ensures value { answer_told result ≡ firm_answer m.old firm (Call.report time identity contracts) }
    ensures m_after { m.new ≡ firm_memory m.old firm (Call.report time identity contracts) }
{
    refusal(m, firm)?;
    let at = firm as usize * state::SIZE;
    let end = at + state::SIZE;
    let other = state::SIZE - at;
    let close = other + state::SIZE;
    let called = sends::own_report(&mut m[at..end], time, identity, contracts)?;
    if called.joined {
        trims::trim_seat(&mut m[other..close]);
    }
    Ok(called.accepted)
}

// An order of a firm: the reset comes first, then the verdict.
pub fn order(
    m: &mut [u64],
    firm: u64,
    time: u64,
    root: u64,
    reset: u64,
) -> Result<Accepted, Refusal>
    ensures value { answer_told result ≡ firm_answer m.old firm (Call.order time root reset) }
    ensures m_after { m.new ≡ firm_memory m.old firm (Call.order time root reset) }
{
    refusal(m, firm)?;
    let at = firm as usize * state::SIZE;
    let end = at + state::SIZE;
    calls::tested::order(&mut m[at..end], time, root, reset)
}

// The order of an identity that a firm sent away is closed.
pub fn close(m: &mut [u64], firm: u64, time: u64, identity: u64) -> Result<Accepted, Refusal>
    ensures value { answer_told result ≡ firm_answer m.old firm (Call.close time identity) }
    ensures m_after { m.new ≡ firm_memory m.old firm (Call.close time identity) }
{
    refusal(m, firm)?;
    let at = firm as usize * state::SIZE;
    let end = at + state::SIZE;
    calls::tested::close(&mut m[at..end], time, identity)
}

// What remains of the limit of a firm's rule for a unit at a time.
pub fn remaining(m: &[u64], firm: u64, time: u64, rule: u64, unit: u64) -> Result<Accepted, Refusal>
    ensures { answer_told result ≡ firm_answer m.now firm (Call.remaining time rule unit) }
{
    refusal(m, firm)?;
    let at = firm as usize * state::SIZE;
    let end = at + state::SIZE;
    calls::tested::remaining(&m[at..end], time, rule, unit)
}

// Clears one firm: its part becomes zeros and its entries leave; the other stays.
pub fn clear_firm(m: &mut [u64], firm: u64) -> Result<(), Refusal>
    ensures value { numbered result ≡ clear_firm_answer m.old firm }
    ensures m_after { m.new ≡ clear_firm_memory m.old firm }
{
    if m.len() < SIZE {
        return Err(Refusal::NoRoom);
    }
    if 1 < firm {
        return Err(Refusal::Unknown);
    }
    if !is_sound(m) {
        return Err(Refusal::Unsound);
    }
    let at = firm as usize * state::SIZE;
    let end = at + state::SIZE;
    daylog::blank(&mut m[at..end]);
    Ok(())
}

// Clears the state, whatever the memory held.
pub fn clear(m: &mut [u64]) -> Result<(), Refusal>
    ensures value { numbered result ≡ clear_all_answer m.old }
    ensures m_after { m.new ≡ clear_all_memory m.old }
{
    if m.len() < SIZE {
        return Err(Refusal::NoRoom);
    }
    daylog::blank(&mut m[..SIZE]);
    Ok(())
}
