// The calls for C and Rust, which `capi_c` exports: numbers and slices in, each answer as a row of numbers, the refusal first. Here the calls on a unit's memory.
// The C interface gives an offer's five numbers one by one, so they stand in the signatures of `mbrumzheg_offer`, `mbrumzheg_send` and their like.
#![tactic(auto)]

ghost use Rattle.std.specs.Prelude.{◌≡◌};
ghost use Rattle.machine.specs.Calls.{Call};
ghost use Rattle.machine.specs.Judge.{numbers};
ghost use Rattle.refusals.specs.Numbers.{numbered};
ghost use Rattle.calls.specs.Calls.{arm_answer, arm_memory, clear_answer, clear_memory, call_answer, call_memory, text_answer, text_memory};
ghost use Rattle.capi.specs.Rows.{arm_row, clear_row, text_row};

pub mod accounts;
pub mod events;
pub mod told;

use machine::Offer;
use refusals::Refusal;

// Arms memory from a profile: refusal, line, firm, rules, roots.
#[tactic(auto, unfolding(crate::specs::Rows::arm_row))]
pub fn mbrumzheg_arm(m: &mut [u64], text: &[u8], row: &mut [u64; 5])
    ensures m_after { m.new ≡ arm_memory m.old text.now }
    ensures row_after { row.new ≡ arm_row (arm_answer m.old text.now) }
{
    let reading = calls::arm(m, text);
    match reading {
        Ok(armed) => rows::put_row(row, 0, 0, armed.firm, armed.rules, armed.roots),
        Err(fault) => rows::put_row(row, fault.refusal.number(), fault.line, 0, 0, 0),
    }
}

// Sets the state to zeros: refusal.
#[tactic(auto, unfolding(crate::specs::Rows::clear_row))]
pub fn mbrumzheg_clear(m: &mut [u64], row: &mut [u64; 5])
    ensures m_after { m.new ≡ clear_memory m.old }
    ensures row_after { row.new ≡ clear_row (clear_answer m.old) }
{
    match calls::clear(m) {
        Ok(()) => rows::put_row(row, 0, 0, 0, 0, 0),
        Err(refusal) => rows::put_row(row, refusal.number(), 0, 0, 0, 0),
    }
}

// How the roots stand: refusal, tripped, locked by the user, locked at all, the lowest locked root.
pub fn mbrumzheg_status(m: &[u64], row: &mut [u64; 5])
    ensures { row.new ≡ numbers (call_answer m.now Call.status) }
{
    let answer = calls::status(m);
    rows::put_answer(answer.map_err(Refusal::number), row)
}

// Writes the row of what was written to a room.
#[tactic(auto, unfolding(crate::specs::Rows::text_row))]
pub(crate) fn put_wording(wording: Result<u64, Refusal>, row: &mut [u64; 5])
    ensures { row.new ≡ text_row (numbered wording) }
{
    match wording {
        Ok(bytes) => rows::put_row(row, 0, bytes, 0, 0, 0),
        Err(refusal) => rows::put_row(row, refusal.number(), 0, 0, 0, 0),
    }
}

// Writes the text for a verdict: refusal, how many bytes.
pub fn mbrumzheg_text(verdict: u64, room: &mut [u8], row: &mut [u64; 5])
    ensures room_after { room.new ≡ text_memory verdict room.old }
    ensures row_after { row.new ≡ text_row (text_answer verdict room.old) }
{
    let wording = calls::text(verdict, room);
    put_wording(wording, row)
}

// An order: refusal, verdict.
pub fn mbrumzheg_order(m: &mut [u64], time: u64, root: u64, reset: u64, row: &mut [u64; 5])
    ensures m_after { m.new ≡ call_memory m.old (Call.order time root reset) }
    ensures row_after { row.new ≡ numbers (call_answer m.old (Call.order time root reset)) }
{
    let answer = calls::order(m, time, root, reset);
    rows::put_answer(answer.map_err(Refusal::number), row)
}

// An offered fill: refusal, verdict, grant, root trip, firm trip.
pub fn mbrumzheg_offer(
    m: &mut [u64],
    time: u64,
    root: u64,
    unit: u64,
    premium: u64,
    contracts: u64,
    row: &mut [u64; 5],
)
    ensures m_after { m.new ≡ call_memory m.old (Call.offer (record { time = time; root = root; unit = unit; premium = premium; contracts = contracts })) }
    ensures row_after { row.new ≡ numbers (call_answer m.old (Call.offer (record { time = time; root = root; unit = unit; premium = premium; contracts = contracts }))) }
{
    let o = Offer {
        time,
        root,
        unit,
        premium,
        contracts,
    };
    let answer = calls::offer(m, o);
    rows::put_answer(answer.map_err(Refusal::number), row)
}

// A lockout: refusal, verdict.
pub fn mbrumzheg_lockout(m: &mut [u64], time: u64, level: u64, root: u64, row: &mut [u64; 5])
    ensures m_after { m.new ≡ call_memory m.old (Call.lockout time level root) }
    ensures row_after { row.new ≡ numbers (call_answer m.old (Call.lockout time level root)) }
{
    let answer = calls::lockout(m, time, level, root);
    rows::put_answer(answer.map_err(Refusal::number), row)
}

// What remains of a rule's limit: refusal, the number.
pub fn mbrumzheg_remaining(m: &[u64], time: u64, rule: u64, unit: u64, row: &mut [u64; 5])
    ensures { row.new ≡ numbers (call_answer m.now (Call.remaining time rule unit)) }
{
    let answer = calls::remaining(m, time, rule, unit);
    rows::put_answer(answer.map_err(Refusal::number), row)
}

// An order to be sent away: refusal, verdict.
pub fn mbrumzheg_send(
    m: &mut [u64],
    time: u64,
    root: u64,
    unit: u64,
    premium: u64,
    contracts: u64,
    identity: u64,
    reports: u64,
    row: &mut [u64; 5],
)
    ensures m_after { m.new ≡ call_memory m.old (Call.send (record { time = time; root = root; unit = unit; premium = premium; contracts = contracts }) identity reports) }
    ensures row_after { row.new ≡ numbers (call_answer m.old (Call.send (record { time = time; root = root; unit = unit; premium = premium; contracts = contracts }) identity reports)) }
{
    let o = Offer {
        time,
        root,
        unit,
        premium,
        contracts,
    };
    let answer = calls::send(m, o, identity, reports);
    rows::put_answer(answer.map_err(Refusal::number), row)
}

// A fill that came back from an away market: refusal, verdict, grant, root trip, firm trip.
pub fn mbrumzheg_report(m: &mut [u64], time: u64, identity: u64, contracts: u64, row: &mut [u64; 5])
    ensures m_after { m.new ≡ call_memory m.old (Call.report time identity contracts) }
    ensures row_after { row.new ≡ numbers (call_answer m.old (Call.report time identity contracts)) }
{
    let answer = calls::report(m, time, identity, contracts);
    rows::put_answer(answer.map_err(Refusal::number), row)
}

// The order of an identity is closed: refusal, verdict.
pub fn mbrumzheg_close(m: &mut [u64], time: u64, identity: u64, row: &mut [u64; 5])
    ensures m_after { m.new ≡ call_memory m.old (Call.close time identity) }
    ensures row_after { row.new ≡ numbers (call_answer m.old (Call.close time identity)) }
{
    let answer = calls::close(m, time, identity);
    rows::put_answer(answer.map_err(Refusal::number), row)
}
