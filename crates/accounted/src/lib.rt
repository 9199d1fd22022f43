// The calls that keep the day's account: each applies an event to a unit's memory and counts it in an account, or refuses it and changes neither.
#![tactic(auto)]

ghost use Rattle.std.specs.Prelude.{◌≡◌};
ghost use Rattle.machine.specs.Answer.{answer_told};
ghost use Rattle.accounted.specs.Accounted.{call_of, accounted_answer, accounted_memory, account_after_call};

mod counted;
mod lent;
mod plain;

use machine::{Accepted, Offer};
use refusals::Refusal;

// An event that an account is kept of, with its numbers.
#[derive(Clone, Copy)]
pub enum Event {
    Order {
        time: u64,
        root: u64,
        reset: u64,
    },
    Lockout {
        time: u64,
        level: u64,
        root: u64,
    },
    Offer(Offer),
    Send {
        order: Offer,
        identity: u64,
        reports: u64,
    },
    Report {
        time: u64,
        identity: u64,
        contracts: u64,
    },
    Close {
        time: u64,
        identity: u64,
    },
}

// Applies an event and counts it. Most accounts have room for whatever an event adds, so that the plain call may go first; one that may have none
// is told before the event is applied.
pub fn apply(m: &mut [u64], a: &mut [u64], e: Event) -> Result<Accepted, Refusal>
    ensures value { answer_told result ≡ accounted_answer m.old a.old (call_of e) }
    ensures m_after { m.new ≡ accounted_memory m.old a.old (call_of e) }
    ensures a_after { a.new ≡ account_after_call m.old a.old (call_of e) }
{
    if a.len() < figures::SIZE {
        return Err(Refusal::NoRoom);
    }
    let bound = figures::bound(&a[..figures::SIZE]);
    if figures::MOST < bound {
        return Err(lent::without_account(m));
    }
    if bound <= figures::MOST - figures::ADDED_MOST {
        return counted::with_room(m, a, e);
    }
    counted::near_full(m, a, e)
}
