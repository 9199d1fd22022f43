// The calls that keep the day's account beside a unit's memory: an account is 520 numbers, eight a row, the roots' 64 rows and then the firm's.
ghost use Rattle.std.specs.Prelude.{◌≡◌};
ghost use Rattle.machine.specs.Calls.{Call};
ghost use Rattle.machine.specs.Judge.{numbers};
ghost use Rattle.accounted.specs.Accounted.{call_of, accounted_answer, accounted_memory, account_after_call};

use accounted::Event;
use machine::Offer;
use refusals::Refusal;

// Applies an event and counts it, and writes the row of the answer.
fn put_applied(m: &mut [u64], account: &mut [u64], e: Event, row: &mut [u64; 5])
    ensures m_after { m.new ≡ accounted_memory m.old account.old (call_of e) }
    ensures account_after { account.new ≡ account_after_call m.old account.old (call_of e) }
    ensures row_after { row.new ≡ numbers (accounted_answer m.old account.old (call_of e)) }
{
    let answer = accounted::apply(m, account, e);
    rows::put_answer(answer.map_err(Refusal::number), row)
}

// An order: refusal, verdict.
#[tactic(auto, unfolding(accounted::specs::Accounted::call_of))]
pub fn mbrumzheg_accounted_order(
    m: &mut [u64],
    account: &mut [u64],
    time: u64,
    root: u64,
    reset: u64,
    row: &mut [u64; 5],
)
    ensures m_after { m.new ≡ accounted_memory m.old account.old (Call.order time root reset) }
    ensures account_after { account.new ≡ account_after_call m.old account.old (Call.order time root reset) }
    ensures row_after { row.new ≡ numbers (accounted_answer m.old account.old (Call.order time root reset)) }
{
    let e = Event::Order { time, root, reset };
    put_applied(m, account, e, row)
}

// A lockout: refusal, verdict.
#[tactic(auto, unfolding(accounted::specs::Accounted::call_of))]
pub fn mbrumzheg_accounted_lockout(
    m: &mut [u64],
    account: &mut [u64],
    time: u64,
    level: u64,
    root: u64,
    row: &mut [u64; 5],
)
    ensures m_after { m.new ≡ accounted_memory m.old account.old (Call.lockout time level root) }
    ensures account_after { account.new ≡ account_after_call m.old account.old (Call.lockout time level root) }
    ensures row_after { row.new ≡ numbers (accounted_answer m.old account.old (Call.lockout time level root)) }
{
    let e = Event::Lockout { time, level, root };
    put_applied(m, account, e, row)
}

// An offered fill: refusal, verdict, grant, root trip, firm trip.
#[tactic(auto, unfolding(accounted::specs::Accounted::call_of))]
pub fn mbrumzheg_accounted_offer(
    m: &mut [u64],
    account: &mut [u64],
    time: u64,
    root: u64,
    unit: u64,
    premium: u64,
    contracts: u64,
    row: &mut [u64; 5],
)
    ensures m_after { m.new ≡ accounted_memory m.old account.old (Call.offer (record { time = time; root = root; unit = unit; premium = premium; contracts = contracts })) }
    ensures account_after { account.new ≡ account_after_call m.old account.old (Call.offer (record { time = time; root = root; unit = unit; premium = premium; contracts = contracts })) }
    ensures row_after { row.new ≡ numbers (accounted_answer m.old account.old (Call.offer (record { time = time; root = root; unit = unit; premium = premium; contracts = contracts }))) }
{
    let o = Offer {
        time,
        root,
        unit,
        premium,
        contracts,
    };
    let e = Event::Offer(o);
    put_applied(m, account, e, row)
}

// An order to be sent away: refusal, verdict.
#[tactic(auto, unfolding(accounted::specs::Accounted::call_of))]
pub fn mbrumzheg_accounted_send(
    m: &mut [u64],
    account: &mut [u64],
    time: u64,
    root: u64,
    unit: u64,
    premium: u64,
    contracts: u64,
    identity: u64,
    reports: u64,
    row: &mut [u64; 5],
)
    ensures m_after { m.new ≡ accounted_memory m.old account.old (Call.send (record { time = time; root = root; unit = unit; premium = premium; contracts = contracts }) identity reports) }
    ensures account_after { account.new ≡ account_after_call m.old account.old (Call.send (record { time = time; root = root; unit = unit; premium = premium; contracts = contracts }) identity reports) }
    ensures row_after { row.new ≡ numbers (accounted_answer m.old account.old (Call.send (record { time = time; root = root; unit = unit; premium = premium; contracts = contracts }) identity reports)) }
{
    let o = Offer {
        time,
        root,
        unit,
        premium,
        contracts,
    };
    let e = Event::Send {
        order: o,
        identity,
        reports,
    };
    put_applied(m, account, e, row)
}

// A fill that came back from an away market: refusal, verdict, grant, root trip, firm trip.
#[tactic(auto, unfolding(accounted::specs::Accounted::call_of))]
pub fn mbrumzheg_accounted_report(
    m: &mut [u64],
    account: &mut [u64],
    time: u64,
    identity: u64,
    contracts: u64,
    row: &mut [u64; 5],
)
    ensures m_after { m.new ≡ accounted_memory m.old account.old (Call.report time identity contracts) }
    ensures account_after { account.new ≡ account_after_call m.old account.old (Call.report time identity contracts) }
    ensures row_after { row.new ≡ numbers (accounted_answer m.old account.old (Call.report time identity contracts)) }
{
    let e = Event::Report {
        time,
        identity,
        contracts,
    };
    put_applied(m, account, e, row)
}

// The order of an identity is closed: refusal, verdict.
#[tactic(auto, unfolding(accounted::specs::Accounted::call_of))]
pub fn mbrumzheg_accounted_close(
    m: &mut [u64],
    account: &mut [u64],
    time: u64,
    identity: u64,
    row: &mut [u64; 5],
)
    ensures m_after { m.new ≡ accounted_memory m.old account.old (Call.close time identity) }
    ensures account_after { account.new ≡ account_after_call m.old account.old (Call.close time identity) }
    ensures row_after { row.new ≡ numbers (accounted_answer m.old account.old (Call.close time identity)) }
{
    let e = Event::Close { time, identity };
    put_applied(m, account, e, row)
}
