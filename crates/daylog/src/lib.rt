// The log: its entries in their places, in order of time.
#![tactic(auto)]

ghost use Rattle.std.specs.Prelude.{◌≡◌, true, List, ◌≤◌, ◌<◌, length};
ghost use Rattle.machine.specs.declared.Entry.{Entry};
ghost use Rattle.machine.specs.Effects.{zeroing};
ghost use Rattle.rules.specs.Valid.{is_rule};
ghost use Rattle.machine.specs.Entries.{is_entry, are_ordered, entry_share, recent};
ghost use Rattle.machine.specs.Order.{unflagged_log};
ghost use Rattle.laws.specs.Folds.{sum_of};
ghost use Rattle.rules.specs.Amounts.{amount_in};
ghost use Rattle.tables.specs.Inner.Tables.{zeros};
ghost use Rattle.daylog.specs.Inner.Log.{entries_hold, log_holds, HeldIn, entries_in, log_numbers, last_of, joined_entries};
ghost use Rattle.daylog.specs.Inner.Memo.{memo_sum, no_memo, recalled_of, IsRead, RightTwo};
ghost use Rattle.daylog.specs.Inner.Reading.{window_reading};
ghost use Rattle.daylog.specs.Inner.Sieve.{sieve_of};

mod clearing;
pub mod sieves;
mod windows;

use machine::{Effect, Entry};
use measures::{Contracts, Executions, TenThousandths, Time};
use rules::{Amount, Kind, Limit, Rule};
use sieves::Sieve;

// How many entries the log has room for, and how many numbers its table takes: a count, then two for each place.
pub const PLACES: usize = 512;

pub const SIZE: usize = 1 + 2 * PLACES;

// Whether the first k places hold entries with so many roots, each with a flag, in order of time, none later than the clock, and the others 0.
fn are_entries(log: &[u64], k: usize, roots: u64, clock: u64) -> bool
    requires { (length log.now ≡ 1024) × (k ≤ 512) }
    ensures { result ≡ entries_hold roots clock k log.now }
{
    let mut gaps: u64 = 0;
    let mut from: u64 = 0;
    for i in 0..k {
        let at = i * 2;
        let first = log[at];
        let second = log[at + 1];
        let time = first / 1024;
        let own = packing::entry_gaps(first, second, roots);
        // No way out of the loop before its end, so that the entries can be tested side by side.
        gaps = gaps | (own | packing::gap(first % 4, 1) | packing::gap(time, from));
        from = time;
    }
    // No time is above the last one, and a time in range has nothing above it.
    (gaps < packing::CLEAR)
        & (from <= Time::MOST)
        & (from <= clock)
        & tables::is_zero(&log[k * 2..])
}

// Whether the log's table holds as many entries as it says, with so many roots, in order of time, none later than the clock.
pub fn is_log(log: &[u64], roots: u64, clock: u64) -> bool
    requires { length log.now ≡ 1025 }
    ensures { result ≡ log_holds roots clock log.now }
{
    let k = log[0] as usize;
    if PLACES < k {
        return false;
    }
    are_entries(&log[1..SIZE], k, roots, clock)
}

// A first time, and how many of the log's entries are not before it.
#[derive(Clone, Copy)]
pub struct Reading {
    pub from: u64,
    pub passed: usize,
}

// The reading of a window at a time: the entries inside it, counted from the newest on.
pub fn read_window(log: &[u64], window: u64, time: u64) -> Reading
    requires { HeldIn log.now × (are_ordered 0 time (entries_in log.now) ≡ true) }
    ensures { result ≡ window_reading window time (entries_in log.now) }
{
    let k = log[0] as usize;
    let passed = windows::inside(&log[1..SIZE], k, window, time);
    Reading {
        from: sieves::first_time(Kind::Rate(window), time),
        passed,
    }
}

// What the entries that pass a sieve count in each measure, and how many are not before its time.
#[derive(Clone, Copy)]
pub struct Memo {
    pub sieve: Sieve,
    pub passed: usize,
    pub notional: TenThousandths,
    pub volume: Contracts,
    pub count: Executions,
}

// The memos of the last sieve and of the one before it, and a reading.
#[derive(Clone, Copy)]
pub struct Two {
    pub last: Memo,
    pub other: Memo,
    pub read: Reading,
}

// Two memos of a sieve that no entry passes, and a reading.
pub fn memos_of(read: Reading) -> Two
    ensures { ((es : List Entry) → IsRead es read → RightTwo es result) × (result ≡ record { last = no_memo; other = no_memo; read = read }) }
{
    let none = Memo {
        sieve: Sieve {
            mask: 0,
            want: 1,
            from: 0,
        },
        passed: 0,
        notional: TenThousandths(0),
        volume: Contracts(0),
        count: Executions(0),
    };
    Two {
        last: none,
        other: none,
        read,
    }
}

// What a memo says in a limit's measure.
pub fn sum_in(limit: Limit, m: Memo) -> Amount
    ensures { result ≡ amount_in limit (memo_sum limit m) }
{
    match limit {
        Limit::Notional(_) => Amount::Notional(m.notional),
        Limit::Volume(_) => Amount::Volume(m.volume),
        Limit::Count(_) => Amount::Count(m.count),
    }
}

// What the entries of the log count for a rule at a time.
pub fn counted(log: &[u64], rule: Rule, time: u64) -> Amount
    requires { HeldIn log.now × (is_rule 64 rule ≡ true) × (are_ordered 0 time (entries_in log.now) ≡ true) }
    ensures { result ≡ amount_in rule.limit (sum_of (entry_share rule time) (entries_in log.now)) }
{
    let k = log[0] as usize;
    let s = sieves::sieve_of(rule, time);
    let passed = windows::since(&log[1..SIZE], k, s.from);
    sum_in(rule.limit, sieves::memo_of(&log[1..SIZE], k, passed, s))
}

// The last of the memos becomes that of a rule at a time: one of those before, or a new one.
pub fn recall(log: &[u64], rule: Rule, time: u64, memos: &mut Two)
    requires { HeldIn log.now × (is_rule 64 rule ≡ true) × RightTwo (entries_in log.now) memos.old × (are_ordered 0 time (entries_in log.now) ≡ true) }
    ensures { RightTwo (entries_in log.now) memos.new × (memo_sum rule.limit memos.new.last ≡ sum_of (entry_share rule time) (entries_in log.now)) × (memos.new ≡ recalled_of (sieve_of rule time) (entries_in log.now) memos.old) }
{
    let s = sieves::sieve_of(rule, time);
    let before = *memos;
    if before.last.sieve == s {
        return;
    }
    memos.other = before.last;
    if before.other.sieve == s {
        memos.last = before.other;
        return;
    }
    let k = log[0] as usize;
    let passed = sieves::passed_from(&log[1..SIZE], k, s.from, before);
    memos.last = sieves::memo_of(&log[1..SIZE], k, passed, s);
}

// Clears the flags of the log's entries that an effect for a root clears: the entries that keep none leave the log.
pub fn unflag(log: &mut [u64], root: u64, effect: Effect)
    requires { HeldIn log.old }
    ensures { log.new ≡ log_numbers (unflagged_log (zeroing effect root) (entries_in log.old)) }
{
    let k = log[0] as usize;
    let left = clearing::unflag_places(&mut log[1..SIZE], k, root, effect);
    log[0] = left as u64;
}

// How many of the log's entries are inside a window at a time.
pub fn recent_entries(log: &[u64], window: u64, time: u64) -> usize
    requires { HeldIn log.now × (window ≤ 86_400_000) × (are_ordered 0 time (entries_in log.now) ≡ true) }
    ensures { result ≡ length (recent window time (entries_in log.now)) }
{
    let k = log[0] as usize;
    windows::inside(&log[1..SIZE], k, window, time)
}

// Every number becomes 0.
pub fn blank(s: &mut [u64])
    ensures { s.new ≡ zeros (length s.old) }
{
    s.fill(0);
}

// Of the log's entries the last ones stay.
pub fn keep_last(log: &mut [u64], stay: usize)
    requires { HeldIn log.old × (stay ≤ length (entries_in log.old)) }
    ensures { log.new ≡ log_numbers (last_of stay (entries_in log.old)) }
{
    let k = log[0] as usize;
    windows::keep_places(&mut log[1..SIZE], k, stay);
    log[0] = stay as u64;
}

// Of the log's entries the last ones stay, and e joins.
pub fn join(log: &mut [u64], left: usize, e: Entry)
    requires { HeldIn log.old × (left ≤ length (entries_in log.old)) × (left < 512) × (is_entry 64 e ≡ true) }
    ensures { log.new ≡ log_numbers (joined_entries left e (entries_in log.old)) }
{
    let k = log[0] as usize;
    let n = windows::join_places(&mut log[1..SIZE], k, left, e);
    log[0] = n as u64;
}
