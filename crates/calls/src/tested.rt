// The calls on memory that was tested: what each public call does once the memory meets no refusal.
ghost use Rattle.std.specs.Prelude.{◌≡◌};
ghost use Rattle.machine.specs.Answer.{answer_told};
ghost use Rattle.machine.specs.Calls.{Call};
ghost use Rattle.calls.specs.Calls.{memory_refusal, refusal_in, call_answer, call_memory};

use crate::{granting, refusing};
use machine::{Accepted, Offer, Sent};
use measures::{Contracts, TenThousandths};
use refusals::Refusal;

// How the roots stand: how many are tripped, locked by the user, locked at all, and the lowest locked root.
pub fn status(m: &[u64]) -> Accepted
    requires { memory_refusal m.now ≡ 0 }
    ensures { answer_told (Ok result) ≡ call_answer m.now Call.status }
{
    Accepted::Standing(locks::standing(&m[state::LOCKS..state::REGISTER]))
}

// An order: the reset comes first, then the verdict.
pub fn order(m: &mut [u64], time: u64, root: u64, reset: u64) -> Result<Accepted, Refusal>
    requires { memory_refusal m.old ≡ 0 }
    ensures value { answer_told result ≡ call_answer m.old (Call.order time root reset) }
    ensures m_after { m.new ≡ call_memory m.old (Call.order time root reset) }
{
    refusing::order_refusal(m, time, root, reset)?;
    reset::reset_state(m, time, root, reset);
    let verdict = locks::verdict(&m[state::LOCKS..state::REGISTER], root);
    Ok(Accepted::Judged {
        verdict,
        grant: 0,
        roottrip: false,
        firmtrip: false,
    })
}

// A lockout of a root or the firm, which the user asks for.
pub fn lockout(m: &mut [u64], time: u64, level: u64, root: u64) -> Result<Accepted, Refusal>
    requires { memory_refusal m.old ≡ 0 }
    ensures value { answer_told result ≡ call_answer m.old (Call.lockout time level root) }
    ensures m_after { m.new ≡ call_memory m.old (Call.lockout time level root) }
{
    refusing::lockout_refusal(m, time, level, root)?;
    reset::lock_out(m, time, level, root);
    Ok(Accepted::Judged {
        verdict: 0,
        grant: 0,
        roottrip: false,
        firmtrip: false,
    })
}

// An offered fill, cut to what the rules allow.
pub fn offer(m: &mut [u64], o: Offer) -> Result<Accepted, Refusal>
    requires { memory_refusal m.old ≡ 0 }
    ensures value { answer_told result ≡ call_answer m.old (Call.offer o) }
    ensures m_after { m.new ≡ call_memory m.old (Call.offer o) }
{
    refusing::offer_refusal(m, o)?;
    let verdict = locks::verdict(&m[state::LOCKS..state::REGISTER], o.root);
    if verdict != 0 {
        state::put_clock(m, o.time);
        return Ok(Accepted::Judged {
            verdict,
            grant: 0,
            roottrip: false,
            firmtrip: false,
        });
    }
    granting::granted(m, o)
}

// An order to be sent away: judged as an order without reset is, and registered at verdict 0.
pub fn send(m: &mut [u64], o: Offer, identity: u64, reports: u64) -> Result<Accepted, Refusal>
    requires { memory_refusal m.old ≡ 0 }
    ensures value { answer_told result ≡ call_answer m.old (Call.send o identity reports) }
    ensures m_after { m.new ≡ call_memory m.old (Call.send o identity reports) }
{
    refusing::send_refusal(m, o, identity, reports)?;
    Ok(sent(m, o, identity, reports))
}

// And one that nothing refuses.
pub fn sent(m: &mut [u64], o: Offer, identity: u64, reports: u64) -> Accepted
    requires { refusal_in m.old (Call.send o identity reports) ≡ 0 }
    ensures value { answer_told (Ok result) ≡ call_answer m.old (Call.send o identity reports) }
    ensures m_after { m.new ≡ call_memory m.old (Call.send o identity reports) }
{
    let verdict = locks::verdict(&m[state::LOCKS..state::REGISTER], o.root);
    state::put_clock(m, o.time);
    if verdict == 0 {
        let sent = Sent {
            identity,
            root: o.root,
            unit: o.unit,
            premium: TenThousandths(o.premium),
            contracts: Contracts(o.contracts),
            reports,
        };
        register::enter(&mut m[state::REGISTER..state::LOG], sent);
    }
    Accepted::Judged {
        verdict,
        grant: 0,
        roottrip: false,
        firmtrip: false,
    }
}

// A fill that came back from an away market: counted as a grant is, locked or not, and even past a limit.
pub fn report(m: &mut [u64], time: u64, identity: u64, contracts: u64) -> Result<Accepted, Refusal>
    requires { memory_refusal m.old ≡ 0 }
    ensures value { answer_told result ≡ call_answer m.old (Call.report time identity contracts) }
    ensures m_after { m.new ≡ call_memory m.old (Call.report time identity contracts) }
{
    refusing::report_refusal(m, time, identity, contracts)?;
    Ok(came_back(m, time, identity, contracts))
}

// And one that nothing refuses.
pub fn came_back(m: &mut [u64], time: u64, identity: u64, contracts: u64) -> Accepted
    requires { refusal_in m.old (Call.report time identity contracts) ≡ 0 }
    ensures value { answer_told (Ok result) ≡ call_answer m.old (Call.report time identity contracts) }
    ensures m_after { m.new ≡ call_memory m.old (Call.report time identity contracts) }
{
    let i = register::find(&m[state::REGISTER..state::LOG], identity);
    let sent = register::sent_in(&m[state::REGISTER..state::LOG], i);
    let o = Offer {
        time,
        root: sent.root,
        unit: sent.unit,
        premium: sent.premium.0,
        contracts,
    };
    let trips = grant::come_back(m, o, i);
    Accepted::Judged {
        verdict: 0,
        grant: contracts,
        roottrip: trips.root,
        firmtrip: trips.firm,
    }
}

// The order of an identity is closed: its unused places are free again, and so is its identity.
pub fn close(m: &mut [u64], time: u64, identity: u64) -> Result<Accepted, Refusal>
    requires { memory_refusal m.old ≡ 0 }
    ensures value { answer_told result ≡ call_answer m.old (Call.close time identity) }
    ensures m_after { m.new ≡ call_memory m.old (Call.close time identity) }
{
    refusing::close_refusal(m, time, identity)?;
    let i = register::find(&m[state::REGISTER..state::LOG], identity);
    state::put_clock(m, time);
    register::close(&mut m[state::REGISTER..state::LOG], i);
    Ok(Accepted::Judged {
        verdict: 0,
        grant: 0,
        roottrip: false,
        firmtrip: false,
    })
}

// What remains of a rule's limit for a unit at a time.
pub fn remaining(m: &[u64], time: u64, rule: u64, unit: u64) -> Result<Accepted, Refusal>
    requires { memory_refusal m.now ≡ 0 }
    ensures { answer_told result ≡ call_answer m.now (Call.remaining time rule unit) }
{
    refusing::remaining_refusal(m, time, rule, unit)?;
    let left = counting::left(m, time, rule as usize, unit);
    Ok(Accepted::Left(left.number()))
}
