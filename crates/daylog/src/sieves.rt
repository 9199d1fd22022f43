// What counts for a rule at a time, and what the entries that do count.
ghost use Rattle.std.specs.Prelude.{◌≡◌, true, cond, ◌&&◌, ℕ, ◌≤◌, eqb, ltb, length};
ghost use Rattle.rules.specs.Valid.{is_rule};
ghost use Rattle.machine.specs.Entries.{are_ordered};
ghost use Rattle.daylog.specs.Inner.Log.{HeldLog, entries_of};
ghost use Rattle.daylog.specs.Inner.Memo.{memo_for, RightTwo};
ghost use Rattle.daylog.specs.Newest.{newest};
ghost use Rattle.daylog.specs.Inner.Sieve.{first_time, sieve_of, is_wanted};

use crate::windows::since;
use crate::{Memo, Two};
use measures::{Contracts, Executions, TenThousandths, Time};
use rules::{Kind, Rule, Scope};

// What counts for a rule at a time: the digits of an entry's first number under a mask, which hold its root, its unit and the flag of the rule's level as
// far as the rule asks for them, are those that are wanted, and the entry is not before a first time.
#[derive(Clone, Copy, PartialEq, Eq)]
pub struct Sieve {
    pub mask: u64,
    pub want: u64,
    pub from: u64,
}

// The first time that still counts at this one, or a day's end if none does.
pub(crate) fn first_time(kind: Kind, time: u64) -> u64
    ensures { result ≡ first_time kind time }
{
    match kind {
        Kind::Rate(window) => {
            if time < window {
                return 0;
            }
            let past = time - window;
            if past < Time::WINDOW_MOST {
                past + 1
            } else {
                Time::WINDOW_MOST
            }
        }
        Kind::Absolute => 0,
    }
}

// The sieve of a rule at a time.
pub(crate) fn sieve_of(rule: Rule, time: u64) -> Sieve
    requires { is_rule 64 rule ≡ true }
    ensures { result ≡ sieve_of rule time }
{
    let from = first_time(rule.kind, time);
    match rule.scope {
        Scope::EveryFill => Sieve {
            mask: 1,
            want: 1,
            from,
        },
        Scope::WholeRoot(root) => Sieve {
            mask: 1010,
            want: root * 16 + 2,
            from,
        },
        Scope::OneUnit(root, unit) => Sieve {
            mask: 1022,
            want: root * 16 + unit * 4 + 2,
            from,
        },
    }
}

// A number of an entry whose first number has the digits that a sieve wants, else 0.
fn sieved(s: Sieve, fill: u64, n: u64) -> u64
    ensures { result ≡ cond (is_wanted s fill) n 0 }
{
    if fill & s.mask == s.want { n } else { 0 }
}

// Whether a memo says how many entries a reading from a first time on passes.
fn has_read(m: Memo, from: u64) -> bool
    ensures { result ≡ (ltb 0 m.sieve.mask && eqb m.sieve.from from) }
{
    (0 < m.sieve.mask) & (m.sieve.from == from)
}

// How many entries a reading from a first time on passes: as many as one that was made before did, else the log is read.
pub(crate) fn passed_from(log: &[u64], k: usize, from: u64, before: Two) -> usize
    requires { HeldLog k log.now × (from ≤ 86_400_000) × RightTwo (entries_of k log.now) before × ((clock : ℕ) × (are_ordered 0 clock (entries_of k log.now) ≡ true)) }
    ensures { result ≡ length (newest from (entries_of k log.now)) }
{
    if before.read.from == from {
        return before.read.passed;
    }
    if has_read(before.last, from) {
        return before.last.passed;
    }
    if has_read(before.other, from) {
        return before.other.passed;
    }
    since(log, k, from)
}

// What the entries that pass a sieve count in each measure, from the newest on: of as many as a reading passes up to the first that is before the sieve's
// time, so that none of them has to be tested for its time.
pub(crate) fn memo_of(log: &[u64], k: usize, passed: usize, s: Sieve) -> Memo
    requires { HeldLog k log.now × (passed ≡ length (newest s.from (entries_of k log.now))) }
    ensures { result ≡ memo_for s (newest s.from (entries_of k log.now)) }
{
    let first = k - passed;
    let mut notional = TenThousandths(0);
    let mut volume = Contracts(0);
    let mut count = Executions(0);
    for i in (first..k).rev() {
        let at = i * 2;
        let fill = log[at];
        let amount = log[at + 1];
        let e = packing::entry_of(fill, sieved(s, fill, amount));
        let one = Executions(sieved(s, fill, 1));
        notional = notional.plus(e.premium.times(e.contracts));
        volume = volume.plus(e.contracts);
        count = count.plus(one);
    }
    Memo {
        sieve: s,
        passed,
        notional,
        volume,
        count,
    }
}
