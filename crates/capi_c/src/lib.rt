// The static library for C and Rust: each function of `capi` exported under its own name, with the same clauses. Here the calls on a unit's memory.
// The C interface needs the 27 exports, so each signature and its clauses stand here and in `capi`.
#![tactic(auto)]

ghost use Rattle.std.specs.Prelude.{◌≡◌};
ghost use Rattle.machine.specs.Calls.{Call};
ghost use Rattle.machine.specs.Judge.{numbers};
ghost use Rattle.calls.specs.Calls.{arm_answer, arm_memory, clear_answer, clear_memory, call_answer, call_memory, text_answer, text_memory};
ghost use Rattle.capi.specs.Rows.{arm_row, clear_row, text_row};

pub mod accounts;
pub mod events;
pub mod told;

// Arms memory from a profile: refusal, line, firm, rules, roots.
#[unsafe(no_mangle)]
pub extern "C" fn mbrumzheg_arm(m: &mut [u64], text: &[u8], row: &mut [u64; 5])
    ensures m_after { m.new ≡ arm_memory m.old text.now }
    ensures row_after { row.new ≡ arm_row (arm_answer m.old text.now) }
{
    capi::mbrumzheg_arm(m, text, row)
}

// Sets the state to zeros: refusal.
#[unsafe(no_mangle)]
pub extern "C" fn mbrumzheg_clear(m: &mut [u64], row: &mut [u64; 5])
    ensures m_after { m.new ≡ clear_memory m.old }
    ensures row_after { row.new ≡ clear_row (clear_answer m.old) }
{
    capi::mbrumzheg_clear(m, row)
}

// How the roots stand: refusal, tripped, locked by the user, locked at all, the lowest locked root.
#[unsafe(no_mangle)]
pub extern "C" fn mbrumzheg_status(m: &[u64], row: &mut [u64; 5])
    ensures { row.new ≡ numbers (call_answer m.now Call.status) }
{
    capi::mbrumzheg_status(m, row)
}

// Writes the text for a verdict: refusal, how many bytes.
#[unsafe(no_mangle)]
pub extern "C" fn mbrumzheg_text(verdict: u64, room: &mut [u8], row: &mut [u64; 5])
    ensures room_after { room.new ≡ text_memory verdict room.old }
    ensures row_after { row.new ≡ text_row (text_answer verdict room.old) }
{
    capi::mbrumzheg_text(verdict, room, row)
}

// An order: refusal, verdict.
#[unsafe(no_mangle)]
pub extern "C" fn mbrumzheg_order(
    m: &mut [u64],
    time: u64,
    root: u64,
    reset: u64,
    row: &mut [u64; 5],
)
    ensures m_after { m.new ≡ call_memory m.old (Call.order time root reset) }
    ensures row_after { row.new ≡ numbers (call_answer m.old (Call.order time root reset)) }
{
    capi::mbrumzheg_order(m, time, root, reset, row)
}

// An offered fill: refusal, verdict, grant, root trip, firm trip.
#[unsafe(no_mangle)]
pub extern "C" fn mbrumzheg_offer(
    m: &mut [u64],
    time: u64,
    root: u64,
    unit: u64,
    premium: u64,
    contracts: u64,
    row: &mut [u64; 5],
)
    ensures m_after { m.new ≡ call_memory m.old (Call.offer (record { time = time; root = root; unit = unit; premium = premium; contracts = contracts })) }
    ensures row_after { row.new ≡ numbers (call_answer m.old (Call.offer (record { time = time; root = root; unit = unit; premium = premium; contracts = contracts }))) }
{
    capi::mbrumzheg_offer(m, time, root, unit, premium, contracts, row)
}

// A lockout: refusal, verdict.
#[unsafe(no_mangle)]
pub extern "C" fn mbrumzheg_lockout(
    m: &mut [u64],
    time: u64,
    level: u64,
    root: u64,
    row: &mut [u64; 5],
)
    ensures m_after { m.new ≡ call_memory m.old (Call.lockout time level root) }
    ensures row_after { row.new ≡ numbers (call_answer m.old (Call.lockout time level root)) }
{
    capi::mbrumzheg_lockout(m, time, level, root, row)
}

// What remains of a rule's limit: refusal, the number.
#[unsafe(no_mangle)]
pub extern "C" fn mbrumzheg_remaining(
    m: &[u64],
    time: u64,
    rule: u64,
    unit: u64,
    row: &mut [u64; 5],
)
    ensures { row.new ≡ numbers (call_answer m.now (Call.remaining time rule unit)) }
{
    capi::mbrumzheg_remaining(m, time, rule, unit, row)
}

// An order to be sent away: refusal, verdict.
#[unsafe(no_mangle)]
pub extern "C" fn mbrumzheg_send(
    m: &mut [u64],
    time: u64,
    root: u64,
    unit: u64,
    premium: u64,
    contracts: u64,
    identity: u64,
    reports: u64,
    row: &mut [u64; 5],
)
    ensures m_after { m.new ≡ call_memory m.old (Call.send (record { time = time; root = root; unit = unit; premium = premium; contracts = contracts }) identity reports) }
    ensures row_after { row.new ≡ numbers (call_answer m.old (Call.send (record { time = time; root = root; unit = unit; premium = premium; contracts = contracts }) identity reports)) }
{
    capi::mbrumzheg_send(
        m, time, root, unit, premium, contracts, identity, reports, row,
    )
}

// A fill that came back from an away market: refusal, verdict, grant, root trip, firm trip.
#[unsafe(no_mangle)]
pub extern "C" fn mbrumzheg_report(
    m: &mut [u64],
    time: u64,
    identity: u64,
    contracts: u64,
    row: &mut [u64; 5],
)
    ensures m_after { m.new ≡ call_memory m.old (Call.report time identity contracts) }
    ensures row_after { row.new ≡ numbers (call_answer m.old (Call.report time identity contracts)) }
{
    capi::mbrumzheg_report(m, time, identity, contracts, row)
}

// The order of an identity is closed: refusal, verdict.
#[unsafe(no_mangle)]
pub extern "C" fn mbrumzheg_close(m: &mut [u64], time: u64, identity: u64, row: &mut [u64; 5])
    ensures m_after { m.new ≡ call_memory m.old (Call.close time identity) }
    ensures row_after { row.new ≡ numbers (call_answer m.old (Call.close time identity)) }
{
    capi::mbrumzheg_close(m, time, identity, row)
}
