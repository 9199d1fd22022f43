// An event without its account: the plain call, and what it was to the account by what the call answered.
ghost use Rattle.std.specs.Prelude.{◌≡◌};
ghost use Rattle.machine.specs.Answer.{answer_told};
ghost use Rattle.figures.specs.Happenings.{ordered_of, offered_of, reported_of, happening_of};
ghost use Rattle.state.specs.Inner.Laid.{Laid};
ghost use Rattle.calls.specs.Calls.{call_answer, call_memory};
ghost use Rattle.accounted.specs.Accounted.{call_of, open_root};

use crate::Event;
use figures::Happening;
use machine::{Accepted, Offer};
use refusals::Refusal;

// The plain call of an event.
pub(crate) fn call(m: &mut [u64], e: Event) -> Result<Accepted, Refusal>
    ensures value { answer_told result ≡ call_answer m.old (call_of e) }
    ensures m_after { m.new ≡ call_memory m.old (call_of e) }
{
    match e {
        Event::Order { time, root, reset } => calls::order(m, time, root, reset),
        Event::Lockout { time, level, root } => calls::lockout(m, time, level, root),
        Event::Offer(o) => calls::offer(m, o),
        Event::Send {
            order,
            identity,
            reports,
        } => calls::send(m, order, identity, reports),
        Event::Report {
            time,
            identity,
            contracts,
        } => calls::report(m, time, identity, contracts),
        Event::Close { time, identity } => calls::close(m, time, identity),
    }
}

// The root of the order that is open under an identity, 0 if none is.
fn open_root(m: &[u64], identity: u64) -> u64
    requires { Laid m.now }
    ensures { result ≡ open_root m.now identity }
{
    let i = register::find(&m[state::REGISTER..state::LOG], identity);
    if state::orders_in(m) <= i {
        return 0;
    }
    let sent = register::sent_in(&m[state::REGISTER..state::LOG], i);
    sent.root
}

// An order or a sending: accepted or rejected, by its verdict.
#[tactic(auto, unfolding(figures::specs::Happenings::ordered_of))]
fn ordered(root: u64, accepted: Accepted) -> Happening
    ensures { result ≡ ordered_of root (answer_told (Ok accepted)) }
{
    match accepted {
        Accepted::Judged {
            verdict,
            grant: _,
            roottrip: _,
            firmtrip: _,
        } => Happening::Ordered { root, verdict },
        Accepted::Left(_) => Happening::Uncounted,
        Accepted::Standing(_) => Happening::Uncounted,
    }
}

// An offer: one that was locked out counts nowhere.
#[tactic(auto, unfolding(figures::specs::Happenings::offered_of))]
fn offered(o: Offer, accepted: Accepted) -> Happening
    ensures { result ≡ offered_of o (answer_told (Ok accepted)) }
{
    match accepted {
        Accepted::Judged {
            verdict,
            grant,
            roottrip,
            firmtrip,
        } => {
            if verdict != 0 {
                return Happening::Uncounted;
            }
            Happening::Offered {
                root: o.root,
                premium: o.premium,
                contracts: o.contracts,
                grant,
                roottrip,
                firmtrip,
            }
        }
        Accepted::Left(_) => Happening::Uncounted,
        Accepted::Standing(_) => Happening::Uncounted,
    }
}

// A report, of the root of its order.
#[tactic(auto, unfolding(figures::specs::Happenings::reported_of))]
fn reported(root: u64, accepted: Accepted) -> Happening
    ensures { result ≡ reported_of root (answer_told (Ok accepted)) }
{
    match accepted {
        Accepted::Judged {
            verdict: _,
            grant: _,
            roottrip,
            firmtrip,
        } => Happening::Reported {
            root,
            roottrip,
            firmtrip,
        },
        Accepted::Left(_) => Happening::Uncounted,
        Accepted::Standing(_) => Happening::Uncounted,
    }
}

// What an event was to the account, by its answer; the orders that are open are read from the memory.
pub(crate) fn happening(m: &[u64], e: Event, accepted: Accepted) -> Happening
    requires { Laid m.now }
    ensures { result ≡ happening_of (open_root m.now) (call_of e) (answer_told (Ok accepted)) }
{
    match e {
        Event::Order {
            time: _,
            root,
            reset: _,
        } => ordered(root, accepted),
        Event::Lockout {
            time: _,
            level: _,
            root: _,
        } => Happening::Uncounted,
        Event::Offer(o) => offered(o, accepted),
        Event::Send {
            order,
            identity: _,
            reports: _,
        } => ordered(order.root, accepted),
        Event::Report {
            time: _,
            identity,
            contracts: _,
        } => reported(open_root(m, identity), accepted),
        Event::Close {
            time: _,
            identity: _,
        } => Happening::Uncounted,
    }
}
