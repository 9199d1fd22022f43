// An event applied and counted, beside an account none of whose figures is above 10^18.
ghost use Rattle.std.specs.Prelude.{◌≡◌};
ghost use Rattle.machine.specs.Answer.{answer_told};
ghost use Rattle.accounted.specs.Accounted.{call_of, accounted_answer, accounted_memory, account_after_call};
ghost use Rattle.accounted.specs.Inner.Lent.{KeptAccount, RoomyAccount};

use crate::{Event, lent, plain};
use machine::Accepted;
use refusals::Refusal;

// An account with room for whatever an event adds: the plain call goes first.
pub(crate) fn with_room(m: &mut [u64], a: &mut [u64], e: Event) -> Result<Accepted, Refusal>
    requires { RoomyAccount a.old }
    ensures value { answer_told result ≡ accounted_answer m.old a.old (call_of e) }
    ensures m_after { m.new ≡ accounted_memory m.old a.old (call_of e) }
    ensures a_after { a.new ≡ account_after_call m.old a.old (call_of e) }
{
    let accepted = plain::call(m, e)?;
    figures::count(a, plain::happening(m, e, accepted));
    Ok(accepted)
}

// Any other account: the event is tried on a copy of the state's numbers first, and these become the state's where the figures fit.
pub(crate) fn near_full(m: &mut [u64], a: &mut [u64], e: Event) -> Result<Accepted, Refusal>
    requires { KeptAccount a.old }
    ensures value { answer_told result ≡ accounted_answer m.old a.old (call_of e) }
    ensures m_after { m.new ≡ accounted_memory m.old a.old (call_of e) }
    ensures a_after { a.new ≡ account_after_call m.old a.old (call_of e) }
{
    if m.len() < state::SIZE {
        return Err(Refusal::NoRoom);
    }
    let mut trial = lent::copied(m);
    let accepted = plain::call(&mut trial, e)?;
    let h = plain::happening(&trial, e, accepted);
    if !figures::fits(a, h) {
        return Err(Refusal::AccountFull);
    }
    state::copy(&trial, m);
    figures::count(a, h);
    Ok(accepted)
}
