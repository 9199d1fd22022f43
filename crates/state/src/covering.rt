// Whether a rule covers an offer, and how many accounts it has, by the rule's second number alone: most rules of a long profile do not.
ghost use Rattle.std.specs.Prelude.{◌≡◌, not, ◌&&◌, ◌/◌, ◌%◌, ◌<◌, eqb, length};
ghost use Rattle.rules.specs.Rules.{is_rate};
ghost use Rattle.rules.specs.Units.{units_of, of_unit};
ghost use Rattle.packing.specs.RulePlace.{scope_from};
ghost use Rattle.machine.specs.State.{rules_in};
ghost use Rattle.machine.specs.Remaining.{rule_numbered};
ghost use Rattle.machine.specs.Offers.{covers_offer};
ghost use Rattle.state.specs.State.{decode};
ghost use Rattle.state.specs.Inner.Laid.{Laid};

use crate::{RULES, TOTALS};
use machine::Offer;

// The second number of rule i, which has its kind, its scope, its root and its unit.
fn scope_word(m: &[u64], i: usize) -> u64
    requires { Laid m.now × (i < length (rules_in (decode m.now))) }
    ensures { ((rule_numbered (rules_in (decode m.now)) i).scope ≡ scope_from (result / 256 % 4) (result / 4 % 64) (result % 4)) × (is_rate (rule_numbered (rules_in (decode m.now)) i).kind ≡ eqb (result / 1024 % 2) 0) }
{
    let table = &m[RULES..TOTALS];
    let at = i * 2 + 1;
    table[at + 1]
}

// Whether rule i, as it counts for an offer's unit, covers the offer.
pub fn covers_at(m: &[u64], i: usize, o: Offer) -> bool
    requires { Laid m.now × (i < length (rules_in (decode m.now))) }
    ensures { result ≡ covers_offer o (of_unit (rule_numbered (rules_in (decode m.now)) i) o.unit) }
{
    let word = scope_word(m, i);
    let scope = word / 256 % 4;
    (scope == 0) | ((word / 4 % 64 == o.root) & ((scope == 1) | (word % 4 == o.unit)))
}

// Whether rule i is absolute and, as it counts for an offer's unit, covers the offer: its total rises by a fill.
pub fn rises_at(m: &[u64], i: usize, o: Offer) -> bool
    requires { Laid m.now × (i < length (rules_in (decode m.now))) }
    ensures { result ≡ (not (is_rate (rule_numbered (rules_in (decode m.now)) i).kind) && covers_offer o (of_unit (rule_numbered (rules_in (decode m.now)) i) o.unit)) }
{
    if scope_word(m, i) / 1024 % 2 == 0 {
        return false;
    }
    covers_at(m, i, o)
}

// How many accounts rule i has.
pub fn accounts_at(m: &[u64], i: usize) -> usize
    requires { Laid m.now × (i < length (rules_in (decode m.now))) }
    ensures { result ≡ length (units_of (rule_numbered (rules_in (decode m.now)) i).scope) }
{
    if scope_word(m, i) / 256 % 4 == 1 {
        return 4;
    }
    1
}
