// What an order's reset and a lockout do to lent memory.
#![tactic(auto)]

ghost use Rattle.std.specs.Prelude.{◌≡◌, true, map, ◌+◌, ◌<◌, length};
ghost use Rattle.laws.specs.Folds.{every};
ghost use Rattle.rules.specs.Rules.{level_of};
ghost use Rattle.machine.specs.Deeds.{Deed};
ghost use Rattle.machine.specs.Entries.{is_flagged};
ghost use Rattle.machine.specs.Effects.{effect_of, zeroing};
ghost use Rattle.machine.specs.Order.{wiped, level_named};
ghost use Rattle.machine.specs.Step.{after};
ghost use Rattle.state.specs.State.{stored, decode};
ghost use Rattle.machine.specs.State.{rules_in};
ghost use Rattle.machine.specs.Remaining.{first_cell};
ghost use Rattle.state.specs.Inner.Laid.{Laid, with_accounts, between};

use machine::Effect;
use rules::{Rule, Scope};

// Locks a level for the user: 0 a root, else the firm.
pub fn lock_out(m: &mut [u64], time: u64, level: u64, root: u64)
    requires { Laid m.old × (root < 64) }
    ensures { m.new ≡ stored (after (Deed.locking_out time (level_named level root)) (decode m.old)) m.old }
{
    state::put_clock(m, time);
    locks::lock(&mut m[state::LOCKS..state::REGISTER], level, root);
}

// What a reset does, by its number: 1 is SYMBOL, 2 FIRM, 3 BOTH; 4 is T, 5 E and 6 both of these, which lift and zero nothing.
pub fn effect_of(reset: u64) -> Effect
    ensures { result ≡ effect_of reset }
{
    // Numbers, as the call and the definition name the resets: an enum would be made of them only to be matched here.
    let zeroroot = (reset == 1) | (reset == 3);
    let zerofirm = (reset == 2) | (reset == 3);
    let liftroot = zeroroot | (reset == 4) | (reset == 6);
    let liftfirm = zerofirm | (reset == 5) | (reset == 6);
    Effect {
        zeroroot,
        zerofirm,
        liftroot,
        liftfirm,
    }
}

// Whether the effect of an order for a root zeroes the counters of a rule.
#[tactic(auto, unfolding(rules::specs::Rules::level_of, machine::specs::Effects::zeroing))]
fn zeroes(rule: Rule, root: u64, effect: Effect) -> bool
    ensures { result ≡ zeroing effect root (level_of rule.scope) }
{
    match rule.scope {
        Scope::EveryFill => effect.zerofirm,
        Scope::WholeRoot(r) | Scope::OneUnit(r, _) => (r == root) & effect.zeroroot,
    }
}

// Zeroes the totals of the accounts of rule i, which begin at a place, if the effect of an order for a root zeroes them. Returns where the next rule's begin.
fn wipe_rule(m: &mut [u64], i: usize, place: usize, root: u64, effect: Effect) -> usize
    requires { Laid m.old × (i < length (rules_in (decode m.old))) × (place ≡ first_cell (rules_in (decode m.old)) i) }
    ensures value { result ≡ first_cell (rules_in (decode m.old)) (i + 1) }
    ensures m_after { m.new ≡ stored (with_accounts (decode m.old) (between (wiped (zeroing effect root)) place result (decode m.old).part.accounts)) m.old }
{
    let rule = state::rule_in(m, i);
    let next = place + rule.accounts();
    if !zeroes(rule, root, effect) {
        return next;
    }
    for j in place..next {
        state::put_total(m, j, rule.limit.amount(0));
    }
    next
}

// Zeroes the totals that the effect of an order for a root zeroes.
fn wipe(m: &mut [u64], root: u64, effect: Effect)
    requires { Laid m.old }
    ensures { m.new ≡ stored (with_accounts (decode m.old) (map (wiped (zeroing effect root)) (decode m.old).part.accounts)) m.old }
{
    let rules = state::rules_in(m);
    let mut place: usize = 0;
    for i in 0..rules {
        place = wipe_rule(m, i, place, root, effect);
    }
}

// What an order's reset leaves: clock and locks, and where it zeroes anything, totals, the log's flags and the entries without any. Where it zeroes nothing
// these stay as they are, as no entry of the log is without a flag.
pub fn reset_state(m: &mut [u64], time: u64, root: u64, reset: u64)
    requires { Laid m.old × (root < 64) × (every is_flagged (decode m.old).log ≡ true) }
    ensures { m.new ≡ stored (after (Deed.resetting time root (effect_of reset)) (decode m.old)) m.old }
{
    let effect = effect_of(reset);
    state::put_clock(m, time);
    locks::lift(&mut m[state::LOCKS..state::REGISTER], root, effect);
    if !(effect.zeroroot | effect.zerofirm) {
        return;
    }
    wipe(m, root, effect);
    daylog::unflag(&mut m[state::LOG..state::SIZE], root, effect);
}
