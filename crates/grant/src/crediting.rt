// The totals after a grant: of each rule that covers the offer, that of the account for the offer's unit.
ghost use Rattle.std.specs.Prelude.{◌≡◌, true, not, ◌&&◌, ◌≤◌, ◌<◌, length};
ghost use Rattle.measures.specs.Ranges.{premiums, offers};
ghost use Rattle.rules.specs.Rules.{is_rate};
ghost use Rattle.rules.specs.Valid.{is_total};
ghost use Rattle.machine.specs.State.{rules_in};
ghost use Rattle.machine.specs.Remaining.{first_cell};
ghost use Rattle.machine.specs.Offers.{covers_offer};
ghost use Rattle.state.specs.State.{decode};
ghost use Rattle.state.specs.Inner.Laid.{Laid, account_in};
ghost use Rattle.grant.specs.Inner.Grant.{Fillable, are_totals, faced_by, Creditable, Credited, AllCredited};

use crate::{Reached, is_firm};
use machine::Offer;
use measures::{Contracts, TenThousandths};
use rules::Rule;

// Account i, which has this rule, and an absolute one that covers the offer, is credited with a grant: its total rises.
fn credit_one(m: &mut [u64], o: Offer, grant: u64, i: usize, rule: Rule, before: Reached) -> Reached
    requires { Laid m.old × (i < length (decode m.old).part.accounts) × (rule ≡ (account_in m.old i).rule) × (is_total (account_in m.old i).rule (account_in m.old i).total ≡ true) × (o.premium ≤ premiums.most) × (grant ≤ offers.most) × ((not (is_rate rule.kind) && covers_offer o rule) ≡ true) }
    ensures { Credited o grant i m.old m.new before result }
{
    let total = state::total_in(m, i, rule.limit);
    let account = rule.filled(total, TenThousandths(o.premium), Contracts(grant));
    let after = account.total;
    state::put_total(m, i, after);
    let full = rule.reached(after);
    let firm = is_firm(rule);
    Reached {
        root: before.root | (!firm & full),
        firm: before.firm | (firm & full),
    }
}

// Rule i, whose accounts begin at a place, is credited with a grant: no number changes if it is a rate rule or does not cover the offer.
fn credit_at(
    m: &mut [u64],
    o: Offer,
    grant: u64,
    i: usize,
    place: usize,
    before: Reached,
) -> Reached
    requires { Creditable m.old o grant × (i < length (rules_in (decode m.old))) × (place ≡ first_cell (rules_in (decode m.old)) i) × (is_total (account_in m.old (faced_by m.old o i)).rule (account_in m.old (faced_by m.old o i)).total ≡ true) }
    ensures { Credited o grant (faced_by m.old o i) m.old m.new before result }
{
    if !state::covering::rises_at(m, i, o) {
        return before;
    }
    let rule = state::rule_in(m, i);
    let own = rule.of_unit(o.unit);
    credit_one(m, o, grant, place + rule.place_of(o.unit), own, before)
}

// Every account is credited with a grant: of each rule, that for the offer's unit may rise.
pub(crate) fn credit(m: &mut [u64], o: Offer, grant: u64) -> Reached
    requires { Fillable m.old o × (are_totals (decode m.old) ≡ true) × (grant ≤ offers.most) }
    ensures { AllCredited o grant m.old m.new result }
{
    let rules = state::rules_in(m);
    let mut reached = Reached {
        root: false,
        firm: false,
    };
    let mut place: usize = 0;
    for i in 0..rules {
        let own = state::covering::accounts_at(m, i);
        reached = credit_at(m, o, grant, i, place, reached);
        place += own;
    }
    reached
}
