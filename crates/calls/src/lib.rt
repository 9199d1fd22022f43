// The public calls over lent memory.
#![tactic(auto)]

ghost use Rattle.std.specs.Prelude.{◌≡◌};
ghost use Rattle.machine.specs.Answer.{answer_told};
ghost use Rattle.machine.specs.Calls.{Call};
ghost use Rattle.profile.specs.Reading.{reading_told};
ghost use Rattle.refusals.specs.Numbers.{refused_with, numbered};
ghost use Rattle.calls.specs.Calls.{memory_refusal, call_answer, call_memory, arm_answer, arm_memory, clear_answer, clear_memory, text_answer, text_memory};

mod granting;
pub mod refusing;
pub mod tested;
mod words;

use machine::{Accepted, Offer};
use profile::{Armed, Fault};
use refusals::Refusal;

// How many numbers a unit's memory takes.
pub const SIZE: usize = state::SIZE;

// Arms memory whose mark is 0 from a profile's text. Nothing is written before the whole text is accepted.
pub fn arm(m: &mut [u64], text: &[u8]) -> Result<Armed, Fault>
    ensures value { reading_told result ≡ arm_answer m.old text.now }
    ensures m_after { m.new ≡ arm_memory m.old text.now }
{
    if m.len() < state::SIZE {
        return Err(Fault::from(Refusal::NoRoom));
    }
    if m[state::MARK] != 0 {
        return Err(Fault::from(Refusal::ArmedAlready));
    }
    let scan = profile::read(text, 0);
    let armed = scan.reading?;
    let names = scan.roots;
    let table = scan.rules;
    state::write_armed(m, armed.firm, armed.roots, armed.rules, &names, &table);
    Ok(armed)
}

// Sets the state to zeros, whatever the memory held.
pub fn clear(m: &mut [u64]) -> Result<(), Refusal>
    ensures value { numbered result ≡ clear_answer m.old }
    ensures m_after { m.new ≡ clear_memory m.old }
{
    if m.len() < state::SIZE {
        return Err(Refusal::NoRoom);
    }
    daylog::blank(&mut m[..state::SIZE]);
    Ok(())
}

// The refusal that memory meets in every call but Arm, Clear and Text.
pub fn memory_refusal(m: &[u64]) -> Result<(), Refusal>
    ensures { refused_with result ≡ memory_refusal m.now }
{
    if m.len() < state::SIZE {
        return Err(Refusal::NoRoom);
    }
    if m[state::MARK] == 0 {
        return Err(Refusal::NotArmed);
    }
    if !state::is_sound(m) {
        return Err(Refusal::Unsound);
    }
    Ok(())
}

// How the roots stand: how many are tripped, locked by the user, locked at all, and the lowest locked root.
pub fn status(m: &[u64]) -> Result<Accepted, Refusal>
    ensures { answer_told result ≡ call_answer m.now Call.status }
{
    memory_refusal(m)?;
    Ok(tested::status(m))
}

// An order: the reset comes first, then the verdict.
pub fn order(m: &mut [u64], time: u64, root: u64, reset: u64) -> Result<Accepted, Refusal>
    ensures value { answer_told result ≡ call_answer m.old (Call.order time root reset) }
    ensures m_after { m.new ≡ call_memory m.old (Call.order time root reset) }
{
    memory_refusal(m)?;
    tested::order(m, time, root, reset)
}

// A lockout of a root or the firm, which the user asks for.
pub fn lockout(m: &mut [u64], time: u64, level: u64, root: u64) -> Result<Accepted, Refusal>
    ensures value { answer_told result ≡ call_answer m.old (Call.lockout time level root) }
    ensures m_after { m.new ≡ call_memory m.old (Call.lockout time level root) }
{
    memory_refusal(m)?;
    tested::lockout(m, time, level, root)
}

// An offered fill, cut to what the rules allow.
pub fn offer(m: &mut [u64], o: Offer) -> Result<Accepted, Refusal>
    ensures value { answer_told result ≡ call_answer m.old (Call.offer o) }
    ensures m_after { m.new ≡ call_memory m.old (Call.offer o) }
{
    memory_refusal(m)?;
    tested::offer(m, o)
}

// An order to be sent away: judged as an order without reset is, and registered at verdict 0.
pub fn send(m: &mut [u64], o: Offer, identity: u64, reports: u64) -> Result<Accepted, Refusal>
    ensures value { answer_told result ≡ call_answer m.old (Call.send o identity reports) }
    ensures m_after { m.new ≡ call_memory m.old (Call.send o identity reports) }
{
    memory_refusal(m)?;
    tested::send(m, o, identity, reports)
}

// A fill that came back from an away market: counted as a grant is, locked or not, and even past a limit.
pub fn report(m: &mut [u64], time: u64, identity: u64, contracts: u64) -> Result<Accepted, Refusal>
    ensures value { answer_told result ≡ call_answer m.old (Call.report time identity contracts) }
    ensures m_after { m.new ≡ call_memory m.old (Call.report time identity contracts) }
{
    memory_refusal(m)?;
    tested::report(m, time, identity, contracts)
}

// The order of an identity is closed: its unused places are free again, and so is its identity.
pub fn close(m: &mut [u64], time: u64, identity: u64) -> Result<Accepted, Refusal>
    ensures value { answer_told result ≡ call_answer m.old (Call.close time identity) }
    ensures m_after { m.new ≡ call_memory m.old (Call.close time identity) }
{
    memory_refusal(m)?;
    tested::close(m, time, identity)
}

// What remains of a rule's limit for a unit at a time.
pub fn remaining(m: &[u64], time: u64, rule: u64, unit: u64) -> Result<Accepted, Refusal>
    ensures { answer_told result ≡ call_answer m.now (Call.remaining time rule unit) }
{
    memory_refusal(m)?;
    tested::remaining(m, time, rule, unit)
}

// Writes the text for verdict 1 or 2, and answers how many bytes it has.
pub fn text(verdict: u64, room: &mut [u8]) -> Result<u64, Refusal>
    ensures value { numbered result ≡ text_answer verdict room.old }
    ensures room_after { room.new ≡ text_memory verdict room.old }
{
    if verdict == 1 {
        return words::say(b"f: RiskMgmtFirmLevel", room);
    }
    if verdict == 2 {
        return words::say(b"s: RiskMgmtSymLevel", room);
    }
    Err(Refusal::Unknown)
}
