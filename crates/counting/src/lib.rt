// What an account has counted at a time, and what remains of its limit.
#![tactic(auto)]

ghost use Rattle.std.specs.Prelude.{◌≡◌, true, ◌<◌, length};
ghost use Rattle.rules.specs.Amounts.{amount_in};
ghost use Rattle.rules.specs.Valid.{is_rule};
ghost use Rattle.machine.specs.Entries.{are_ordered};
ghost use Rattle.machine.specs.Offers.{counted};
ghost use Rattle.rules.specs.Units.{is_unit_of};
ghost use Rattle.machine.specs.State.{rules_in};
ghost use Rattle.machine.specs.Remaining.{rule_numbered, account_for, left_of};
ghost use Rattle.daylog.specs.Inner.Memo.{memo_sum, RightTwo};
ghost use Rattle.state.specs.State.{decode};
ghost use Rattle.state.specs.Inner.Laid.{Laid, account_in};
ghost use Rattle.counting.specs.Inner.Counting.{IsLogged, memos_after};

use daylog::Two;
use rules::{Amount, Kind, Rule};

// What the log counts for a rule at a time, as far as the rule asks for it: an absolute rule does not.
fn logged(m: &[u64], rule: Rule, time: u64) -> Amount
    requires { Laid m.now × (is_rule 64 rule ≡ true) × (are_ordered 0 time (decode m.now).log ≡ true) }
    ensures { IsLogged (decode m.now).log rule time result }
{
    match rule.kind {
        Kind::Rate(_) => daylog::counted(&m[state::LOG..state::SIZE], rule, time),
        Kind::Absolute => rule.limit.amount(0),
    }
}

// The last of the memos comes to say what the log counts for a rule at a time, as far as the rule asks for it.
fn recall(m: &[u64], rule: Rule, time: u64, memos: &mut Two)
    requires { Laid m.now × (is_rule 64 rule ≡ true) × (are_ordered 0 time (decode m.now).log ≡ true) × RightTwo (decode m.now).log memos.old }
    ensures { RightTwo (decode m.now).log memos.new × IsLogged (decode m.now).log rule time (amount_in rule.limit (memo_sum rule.limit memos.new.last)) × (memos.new ≡ memos_after (decode m.now).log rule time memos.old) }
{
    match rule.kind {
        Kind::Rate(_) => daylog::recall(&m[state::LOG..state::SIZE], rule, time, memos),
        Kind::Absolute => {}
    }
}

// What account i has counted at a time: its total, or what the log counts for its rule, by the memos after the log was asked for it.
pub fn counted_by(m: &[u64], i: usize, rule: Rule, time: u64, memos: &mut Two) -> Amount
    requires { Laid m.now × (i < length (decode m.now).part.accounts) × (rule ≡ (account_in m.now i).rule) × RightTwo (decode m.now).log memos.old × (are_ordered 0 time (decode m.now).log ≡ true) }
    ensures amount { result ≡ amount_in rule.limit (counted (decode m.now).log time (account_in m.now i)) }
    ensures memos_after { RightTwo (decode m.now).log memos.new × (memos.new ≡ memos_after (decode m.now).log rule time memos.old) }
{
    let total = state::total_in(m, i, rule.limit);
    recall(m, rule, time, memos);
    rule.counted(total, daylog::sum_in(rule.limit, memos.last))
}

// What account i has counted at a time, with no memos kept.
pub fn counted_at(m: &[u64], i: usize, rule: Rule, time: u64) -> Amount
    requires { Laid m.now × (i < length (decode m.now).part.accounts) × (rule ≡ (account_in m.now i).rule) × (are_ordered 0 time (decode m.now).log ≡ true) }
    ensures { result ≡ amount_in rule.limit (counted (decode m.now).log time (account_in m.now i)) }
{
    let total = state::total_in(m, i, rule.limit);
    rule.counted(total, logged(m, rule, time))
}

// What remains of the limit of account i at a time, and 0 if more than the limit is counted.
fn left_of(m: &[u64], time: u64, i: usize, rule: Rule) -> Amount
    requires { Laid m.now × (i < length (decode m.now).part.accounts) × (rule ≡ (account_in m.now i).rule) × (are_ordered 0 time (decode m.now).log ≡ true) }
    ensures { result ≡ amount_in rule.limit (left_of (decode m.now) time (account_in m.now i)) }
{
    rule.left(counted_at(m, i, rule, time))
}

// What remains of a rule's limit for a unit at a time, and 0 if more than the limit is counted.
pub fn left(m: &[u64], time: u64, rule: usize, unit: u64) -> Amount
    requires { Laid m.now × (rule < length (rules_in (decode m.now))) × (is_unit_of (rule_numbered (rules_in (decode m.now)) rule).scope unit ≡ true) × (are_ordered 0 time (decode m.now).log ≡ true) }
    ensures { result ≡ amount_in (rule_numbered (rules_in (decode m.now)) rule).limit (left_of (decode m.now) time (account_for (decode m.now).part rule unit)) }
{
    let own = state::rule_in(m, rule);
    let place = state::account_at(m, rule, unit);
    left_of(m, time, place, own.of_unit(unit))
}
