// Offers that are not locked out, and the places of the log that a fill or an order sent away asks for.
ghost use Rattle.std.specs.Prelude.{◌≡◌, true, ℕ, ◌≤◌, ◌<◌};
ghost use Rattle.machine.specs.Answer.{answer_told};
ghost use Rattle.machine.specs.Calls.{Call};
ghost use Rattle.machine.specs.Entries.{are_ordered};
ghost use Rattle.machine.specs.Judge.{log_places};
ghost use Rattle.machine.specs.Refusals.{no_places};
ghost use Rattle.state.specs.State.{decode};
ghost use Rattle.state.specs.Inner.Laid.{Laid};
ghost use Rattle.grant.specs.Inner.Grant.{inside_of};
ghost use Rattle.calls.specs.Calls.{is_short_of, Granting, call_answer, call_memory};

use grant::Inside;
use machine::{Accepted, Offer};
use refusals::Refusal;

// Whether the log has a rate rule to serve and fewer places free at a time than are asked for.
fn is_short_of(m: &[u64], time: u64, places: u64) -> bool
    requires { Laid m.now × (are_ordered 0 time (decode m.now).log ≡ true) × (places ≤ 512) }
    ensures { result ≡ is_short_of (decode m.now) time places }
{
    !state::uses_less(m, time, daylog::PLACES as u64 + 1 - places)
}

// Whether an order to be sent away is not locked out, and finds fewer places free than it has reports.
pub(crate) fn lacks_places(m: &[u64], o: Offer, reports: u64) -> bool
    requires { Laid m.now × (are_ordered 0 o.time (decode m.now).log ≡ true) × (o.root < 64) × (reports ≤ 512) }
    ensures { result ≡ no_places log_places (decode m.now) o reports }
{
    let verdict = locks::verdict(&m[state::LOCKS..state::REGISTER], o.root);
    (verdict == 0) & is_short_of(m, o.time, reports)
}

// Whether the log has a rate rule to serve and no place free, by the entries that are inside the longest window at a time.
fn is_full(m: &[u64], inside: Inside) -> bool
    requires { Laid m.now × (inside.read.passed ≤ 512) }
    ensures { (time : ℕ) → inside ≡ inside_of (decode m.now) time → result ≡ is_short_of (decode m.now) time 1 }
{
    let read = inside.read;
    let kept = register::kept(&m[state::REGISTER..state::LOG]);
    (0 < inside.window) & (daylog::PLACES as u64 <= read.passed as u64 + kept)
}

// An offer that is neither refused by its numbers nor locked out: the log may be full, else it is granted what every rule in force allows.
pub(crate) fn granted(m: &mut [u64], o: Offer) -> Result<Accepted, Refusal>
    requires { Granting m.old o }
    ensures value { answer_told result ≡ call_answer m.old (Call.offer o) }
    ensures m_after { m.new ≡ call_memory m.old (Call.offer o) }
{
    let inside = grant::inside_at(m, o.time);
    let cuts = grant::cuts_of(m, o, inside.read);
    let grant = numbers::least(cuts.root, cuts.firm);
    if (0 < grant) & is_full(m, inside) {
        return Err(Refusal::LogFull);
    }
    let trips = grant::fill(m, o, grant, cuts, inside);
    Ok(Accepted::Judged {
        verdict: 0,
        grant,
        roottrip: trips.root,
        firmtrip: trips.firm,
    })
}
