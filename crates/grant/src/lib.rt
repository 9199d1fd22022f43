// An offer's grant: what the rules of each level allow of it, and what a fill leaves in memory, be it granted or reported from away.
#![tactic(auto)]

ghost use Rattle.std.specs.Prelude.{◌≡◌, true, ◌≤◌, ◌<◌, length};
ghost use Rattle.measures.specs.Ranges.{offers};
ghost use Rattle.rules.specs.Rules.{level_of};
ghost use Rattle.rules.specs.declared.Level.TheVariants.{Firm};
ghost use Rattle.machine.specs.Offers.{same_level, joined_log, covers_offer};
ghost use Rattle.daylog.specs.Inner.Memo.{IsRead, RightTwo};
ghost use Rattle.machine.specs.Entries.{are_ordered};
ghost use Rattle.machine.specs.State.{rules_in};
ghost use Rattle.machine.specs.Remaining.{first_cell};
ghost use Rattle.state.specs.State.{stored, decode};
ghost use Rattle.state.specs.Inner.Laid.{Laid, account_in, with_log};
ghost use Rattle.register.specs.Register.{sent_at_place};
ghost use Rattle.grant.specs.Inner.Grant.{inside_of, Fillable, faced_by, Lowered, AreCuts, HasRoom, marked, Ready, Filled, Returning, Returned};

mod crediting;

use crediting::credit;
use daylog::{Reading, Two};
use machine::{Entry, Offer};
use measures::{Contracts, TenThousandths};
use rules::{Rule, Scope};

// What holds of the offer's root, and what holds of the firm.
#[derive(Clone, Copy)]
pub struct Levels<T> {
    pub root: T,
    pub firm: T,
}

// The least that the rules of a level allow of an offer.
pub type Cuts = Levels<u64>;

// Whether an absolute rule of a level stands at its limit.
pub type Reached = Levels<bool>;

// Whether a fill trips a level.
pub type Trips = Levels<bool>;

// The longest window of the rules, 0 if none is a rate rule, and its reading at a time.
#[derive(Clone, Copy)]
pub struct Inside {
    pub window: u64,
    pub read: Reading,
}

// What is inside the longest window at a time.
pub fn inside_at(m: &[u64], time: u64) -> Inside
    requires { Laid m.now × (are_ordered 0 time (decode m.now).log ≡ true) }
    ensures { result ≡ inside_of (decode m.now) time }
{
    let window = state::longest_window(m);
    let read = daylog::read_window(&m[state::LOG..state::SIZE], window, time);
    Inside { window, read }
}

// Whether a rule counts for the firm.
pub(crate) fn is_firm(rule: Rule) -> bool
    ensures { result ≡ same_level (level_of rule.scope) Firm }
{
    matches!(rule.scope, Scope::EveryFill)
}

// The cuts after account i, which has this rule, and which covers the offer: that of its level is lowered to what it allows.
fn lower(m: &[u64], o: Offer, i: usize, rule: Rule, cuts: Cuts, memos: &mut Two) -> Cuts
    requires { Fillable m.now o × (i < length (decode m.now).part.accounts) × (rule ≡ (account_in m.now i).rule) × RightTwo (decode m.now).log memos.old × (covers_offer o rule ≡ true) }
    ensures { Lowered m.now o i cuts result × RightTwo (decode m.now).log memos.new }
{
    let counted = counting::counted_by(m, i, rule, o.time, memos);
    let most = rule.allowance(counted, TenThousandths(o.premium), Contracts(o.contracts));
    if is_firm(rule) {
        return Cuts {
            firm: most.0.min(cuts.firm),
            ..cuts
        };
    }
    Cuts {
        root: most.0.min(cuts.root),
        ..cuts
    }
}

// The cuts after rule i, whose accounts begin at a place: those that it leaves as they are if it does not cover the offer.
fn lower_at(m: &[u64], o: Offer, i: usize, place: usize, cuts: Cuts, memos: &mut Two) -> Cuts
    requires { Fillable m.now o × (i < length (rules_in (decode m.now))) × (place ≡ first_cell (rules_in (decode m.now)) i) × RightTwo (decode m.now).log memos.old }
    ensures { Lowered m.now o (faced_by m.now o i) cuts result × RightTwo (decode m.now).log memos.new }
{
    if !state::covering::covers_at(m, i, o) {
        return cuts;
    }
    let rule = state::rule_in(m, i);
    let own = rule.of_unit(o.unit);
    lower(m, o, place + rule.place_of(o.unit), own, cuts, memos)
}

// The cuts of an offer: of each rule, the account for the offer's unit is asked. A reading of the log is not made again.
pub fn cuts_of(m: &[u64], o: Offer, read: Reading) -> Cuts
    requires { Fillable m.now o × IsRead (decode m.now).log read }
    ensures { AreCuts m.now o result }
{
    let rules = state::rules_in(m);
    let mut cuts = Cuts {
        root: o.contracts,
        firm: o.contracts,
    };
    let mut memos = daylog::memos_of(read);
    let mut place: usize = 0;
    for i in 0..rules {
        cuts = lower_at(m, o, i, place, cuts, &mut memos);
        place += state::covering::accounts_at(m, i);
    }
    cuts
}

// The fill joins the log, if the grant is above 0 and a rule is a rate rule.
fn join_log(m: &mut [u64], o: Offer, grant: u64, inside: Inside)
    requires { Fillable m.old o × (grant ≤ offers.most) × HasRoom (decode m.old) o grant × (inside ≡ inside_of (decode m.old) o.time) }
    ensures { m.new ≡ stored (with_log (decode m.old) (joined_log (rules_in (decode m.old)) (decode m.old).log o grant)) m.old }
{
    if !((0 < inside.window) & (0 < grant)) {
        return;
    }
    let e = Entry {
        time: o.time,
        root: o.root,
        unit: o.unit,
        premium: TenThousandths(o.premium),
        contracts: Contracts(grant),
        forroot: true,
        forfirm: true,
    };
    let read = inside.read;
    daylog::join(&mut m[state::LOG..state::SIZE], read.passed, e);
}

// The clock and the trips.
fn mark(m: &mut [u64], o: Offer, trips: Trips)
    requires { Laid m.old × (o.root < length (decode m.old).part.profile.roots) }
    ensures { m.new ≡ stored (marked (decode m.old) o trips) m.old }
{
    state::put_clock(m, o.time);
    locks::trip(
        &mut m[state::LOCKS..state::REGISTER],
        o.root,
        trips.root,
        trips.firm,
    );
}

// Memory after a grant: totals, log, clock and trips. Returns the trips.
pub fn fill(m: &mut [u64], o: Offer, grant: u64, cuts: Cuts, inside: Inside) -> Trips
    requires { Ready m.old o grant cuts × (inside ≡ inside_of (decode m.old) o.time) }
    ensures { Filled m.old o grant m.new result }
{
    let reached = credit(m, o, grant);
    join_log(m, o, grant, inside);
    let less = grant < o.contracts;
    let trips = Trips {
        root: reached.root | (less & (cuts.root == grant)),
        firm: reached.firm | (less & (cuts.firm == grant)),
    };
    mark(m, o, trips);
    trips
}

// Memory after a report of the offer's contracts for the order at place i of the register: totals, log, register, clock and trips. Returns the trips.
pub fn come_back(m: &mut [u64], o: Offer, i: usize) -> Trips
    requires { Returning m.old o i }
    ensures { Returned m.old o (sent_at_place (decode m.old).part.register i).identity m.new result }
{
    let inside = inside_at(m, o.time);
    let cuts = cuts_of(m, o, inside.read);
    let reached = credit(m, o, o.contracts);
    join_log(m, o, o.contracts, inside);
    register::use_up(&mut m[state::REGISTER..state::LOG], i, o.contracts);
    // A level trips if one of its rules allows less than is reported, or an absolute one stands at its limit after it.
    let trips = Trips {
        root: reached.root | (cuts.root < o.contracts),
        firm: reached.firm | (cuts.firm < o.contracts),
    };
    mark(m, o, trips);
    trips
}
