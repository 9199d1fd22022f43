// The exports that keep the day's account beside a unit's memory.
ghost use Rattle.std.specs.Prelude.{◌≡◌};
ghost use Rattle.machine.specs.Calls.{Call};
ghost use Rattle.machine.specs.Judge.{numbers};
ghost use Rattle.accounted.specs.Accounted.{accounted_answer, accounted_memory, account_after_call};

// An order: refusal, verdict.
#[unsafe(no_mangle)]
pub extern "C" fn mbrumzheg_accounted_order(
    m: &mut [u64],
    account: &mut [u64],
    time: u64,
    root: u64,
    reset: u64,
    row: &mut [u64; 5],
)
    ensures m_after { m.new ≡ accounted_memory m.old account.old (Call.order time root reset) }
    ensures account_after { account.new ≡ account_after_call m.old account.old (Call.order time root reset) }
    ensures row_after { row.new ≡ numbers (accounted_answer m.old account.old (Call.order time root reset)) }
{
    capi::accounts::mbrumzheg_accounted_order(m, account, time, root, reset, row)
}

// A lockout: refusal, verdict.
#[unsafe(no_mangle)]
pub extern "C" fn mbrumzheg_accounted_lockout(
    m: &mut [u64],
    account: &mut [u64],
    time: u64,
    level: u64,
    root: u64,
    row: &mut [u64; 5],
)
    ensures m_after { m.new ≡ accounted_memory m.old account.old (Call.lockout time level root) }
    ensures account_after { account.new ≡ account_after_call m.old account.old (Call.lockout time level root) }
    ensures row_after { row.new ≡ numbers (accounted_answer m.old account.old (Call.lockout time level root)) }
{
    capi::accounts::mbrumzheg_accounted_lockout(m, account, time, level, root, row)
}

// An offered fill: refusal, verdict, grant, root trip, firm trip.
#[unsafe(no_mangle)]
pub extern "C" fn mbrumzheg_accounted_offer(
    m: &mut [u64],
    account: &mut [u64],
    time: u64,
    root: u64,
    unit: u64,
    premium: u64,
    contracts: u64,
    row: &mut [u64; 5],
)
    ensures m_after { m.new ≡ accounted_memory m.old account.old (Call.offer (record { time = time; root = root; unit = unit; premium = premium; contracts = contracts })) }
    ensures account_after { account.new ≡ account_after_call m.old account.old (Call.offer (record { time = time; root = root; unit = unit; premium = premium; contracts = contracts })) }
    ensures row_after { row.new ≡ numbers (accounted_answer m.old account.old (Call.offer (record { time = time; root = root; unit = unit; premium = premium; contracts = contracts }))) }
{
    capi::accounts::mbrumzheg_accounted_offer(m, account, time, root, unit, premium, contracts, row)
}

// An order to be sent away: refusal, verdict.
#[unsafe(no_mangle)]
pub extern "C" fn mbrumzheg_accounted_send(
    m: &mut [u64],
    account: &mut [u64],
    time: u64,
    root: u64,
    unit: u64,
    premium: u64,
    contracts: u64,
    identity: u64,
    reports: u64,
    row: &mut [u64; 5],
)
    ensures m_after { m.new ≡ accounted_memory m.old account.old (Call.send (record { time = time; root = root; unit = unit; premium = premium; contracts = contracts }) identity reports) }
    ensures account_after { account.new ≡ account_after_call m.old account.old (Call.send (record { time = time; root = root; unit = unit; premium = premium; contracts = contracts }) identity reports) }
    ensures row_after { row.new ≡ numbers (accounted_answer m.old account.old (Call.send (record { time = time; root = root; unit = unit; premium = premium; contracts = contracts }) identity reports)) }
{
    capi::accounts::mbrumzheg_accounted_send(
        m, account, time, root, unit, premium, contracts, identity, reports, row,
    )
}

// A fill that came back from an away market: refusal, verdict, grant, root trip, firm trip.
#[unsafe(no_mangle)]
pub extern "C" fn mbrumzheg_accounted_report(
    m: &mut [u64],
    account: &mut [u64],
    time: u64,
    identity: u64,
    contracts: u64,
    row: &mut [u64; 5],
)
    ensures m_after { m.new ≡ accounted_memory m.old account.old (Call.report time identity contracts) }
    ensures account_after { account.new ≡ account_after_call m.old account.old (Call.report time identity contracts) }
    ensures row_after { row.new ≡ numbers (accounted_answer m.old account.old (Call.report time identity contracts)) }
{
    capi::accounts::mbrumzheg_accounted_report(m, account, time, identity, contracts, row)
}

// The order of an identity is closed: refusal, verdict.
#[unsafe(no_mangle)]
pub extern "C" fn mbrumzheg_accounted_close(
    m: &mut [u64],
    account: &mut [u64],
    time: u64,
    identity: u64,
    row: &mut [u64; 5],
)
    ensures m_after { m.new ≡ accounted_memory m.old account.old (Call.close time identity) }
    ensures account_after { account.new ≡ account_after_call m.old account.old (Call.close time identity) }
    ensures row_after { row.new ≡ numbers (accounted_answer m.old account.old (Call.close time identity)) }
{
    capi::accounts::mbrumzheg_accounted_close(m, account, time, identity, row)
}
