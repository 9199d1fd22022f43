// The state in lent memory: where each number stands, and whether what stands there is sound.
#![tactic(auto)]

ghost use Rattle.std.specs.Prelude.{◌≡◌, [], ◌∷◌, ◌++◌, ◌≤◌, ◌<◌, length, get_or, drop, true, ltb};
ghost use Rattle.tables.specs.Inner.Tables.{zeros};
ghost use Rattle.rules.specs.Units.{is_unit_of};
ghost use Rattle.machine.specs.State.{roots_in, rules_in};
ghost use Rattle.machine.specs.Remaining.{rule_numbered, cell_at};
ghost use Rattle.state.specs.State.{size, rest_size, stored, decode};
ghost use Rattle.state.specs.Sound.{is_sound};
ghost use Rattle.state.specs.Inner.Laid.{Laid, account_in, with_clock, with_total};
ghost use Rattle.machine.specs.Entries.{are_ordered};
ghost use Rattle.machine.specs.Offers.{longest};
ghost use Rattle.machine.specs.Refusals.{used};

pub mod covering;
mod tests;

use rules::{Amount, Limit, Rule};

// The map: the mark of armed memory; the firm's part, which is its clock, its name, the tables of its roots and rules, the totals of the rules, the
// locks and the register of orders sent away; and the log. A table has its count in front.
pub const MARK: usize = 0;

pub const CLOCK: usize = MARK + 1;

pub const FIRM: usize = CLOCK + 1;

pub const ROOTS: usize = FIRM + 1;

// The first of the roots' names, past their count.
pub const NAMES: usize = ROOTS + 1;

pub const RULES: usize = ROOTS + given::ROOTS_SIZE;

pub const TOTALS: usize = RULES + given::RULES_SIZE;

pub const LOCKS: usize = TOTALS + given::TOTALS_SIZE;

pub const REGISTER: usize = LOCKS + 4;

pub const LOG: usize = REGISTER + register::SIZE;

pub const SIZE: usize = LOG + daylog::SIZE;

// Writes numbers over the front of others.
pub fn copy(from: &[u64], to: &mut [u64])
    requires { length from.now ≤ length to.old }
    ensures { to.new ≡ from.now ++ drop (length from.now) to.old }
{
    to[..from.len()].copy_from_slice(from);
}

// Writes a freshly armed state: its firm, how many roots and rules it has, and these in their places.
pub fn write_armed(m: &mut [u64], firm: u64, roots: u64, rules: u64, names: &[u64], table: &[u64])
    requires { (size ≤ length m.old) × (length names.now ≡ 64) × (length table.now ≡ 512) }
    ensures { m.new ≡ (1 ∷ 0 ∷ firm ∷ roots ∷ []) ++ (names.now ++ ((rules ∷ []) ++ (table.now ++ (zeros rest_size ++ drop size m.old)))) }
{
    let head = [1, 0, firm, roots];
    copy(&head, m);
    copy(names, &mut m[ROOTS + 1..]);
    let count = [rules];
    copy(&count, &mut m[RULES..]);
    copy(table, &mut m[RULES + 1..]);
    daylog::blank(&mut m[TOTALS..SIZE]);
}

// Each function says `Laid` itself: a struct's ghost field has to be a fact with one proof, which `Laid` is not shown to be.

// The longest window of the rules, 0 if none is a rate rule.
pub fn longest_window(m: &[u64]) -> u64
    requires { Laid m.now }
    ensures { result ≡ longest (rules_in (decode m.now)) }
{
    given::windows::longest_window(&m[RULES..TOTALS])
}

// The use of the log at a time: the entries inside the longest window and the places kept for orders sent away, none without a rate rule.
pub fn used_at(m: &[u64], time: u64) -> u64
    requires { Laid m.now × (are_ordered 0 time (decode m.now).log ≡ true) }
    ensures { result ≡ used (decode m.now) time }
{
    let longest = longest_window(m);
    if longest == 0 {
        return 0;
    }
    let inside = daylog::recent_entries(&m[LOG..SIZE], longest, time) as u64;
    inside + register::kept(&m[REGISTER..LOG])
}

// Whether the use at a time is below a bound; the log is not read where all its entries would fit.
pub fn uses_less(m: &[u64], time: u64, bound: u64) -> bool
    requires { Laid m.now × (are_ordered 0 time (decode m.now).log ≡ true) }
    ensures { result ≡ ltb (used (decode m.now) time) bound }
{
    if entries_in(m) as u64 + register::kept(&m[REGISTER..LOG]) < bound {
        return true;
    }
    used_at(m, time) < bound
}

// Whether the memory holds a sound state.
pub fn is_sound(m: &[u64]) -> bool
    ensures { result ≡ is_sound m.now }
{
    if m.len() < SIZE {
        return false;
    }
    if !tests::is_front(m) {
        return false;
    }
    let Some(longest) = given::test_rules(&m[RULES..TOTALS], &m[TOTALS..LOCKS], m[ROOTS]) else {
        return false;
    };
    if !tests::are_parts(m, longest) {
        return false;
    }
    uses_less(m, m[CLOCK], 513)
}

// The clock of the state of a memory.
pub fn clock_in(m: &[u64]) -> u64
    requires { Laid m.now }
    ensures { result ≡ (decode m.now).part.clock }
{
    m[CLOCK]
}

// How many roots it has.
pub fn roots_in(m: &[u64]) -> u64
    requires { Laid m.now }
    ensures { result ≡ roots_in (decode m.now) }
{
    m[ROOTS]
}

// The name of root i.
pub fn name_in(m: &[u64], i: usize) -> u64
    requires { Laid m.now × (i < roots_in (decode m.now)) }
    ensures { result ≡ get_or (decode m.now).part.profile.roots i 0 }
{
    let at = NAMES + i;
    m[at]
}

// How many entries its log has.
pub fn entries_in(m: &[u64]) -> usize
    requires { Laid m.now }
    ensures { result ≡ length (decode m.now).log }
{
    m[LOG] as usize
}

// How many orders are open away.
pub fn orders_in(m: &[u64]) -> usize
    requires { Laid m.now }
    ensures { result ≡ length (decode m.now).part.register }
{
    m[REGISTER] as usize
}

// How many rules it has.
pub fn rules_in(m: &[u64]) -> usize
    requires { Laid m.now }
    ensures { result ≡ length (rules_in (decode m.now)) }
{
    m[RULES] as usize
}

// Rule i.
pub fn rule_in(m: &[u64], i: usize) -> Rule
    requires { Laid m.now × (i < length (rules_in (decode m.now))) }
    ensures { result ≡ rule_numbered (rules_in (decode m.now)) i }
{
    let table = &m[RULES..TOTALS];
    let at = i * 2 + 1;
    let first = table[at];
    let second = table[at + 1];
    packing::rule_of(first, second)
}

// Where the account of a rule for a unit stands: past those of the rules before it.
pub fn account_at(m: &[u64], rule: usize, unit: u64) -> usize
    requires { Laid m.now × (rule < length (rules_in (decode m.now))) × (is_unit_of (rule_numbered (rules_in (decode m.now)) rule).scope unit ≡ true) }
    ensures { result ≡ cell_at (rules_in (decode m.now)) rule unit }
{
    let mut place: usize = 0;
    for i in 0..rule {
        let before = rule_in(m, i);
        place += before.accounts();
    }
    let own = rule_in(m, rule);
    place + own.place_of(unit)
}

// The total of account i, in the measure of its rule's limit.
pub fn total_in(m: &[u64], i: usize, limit: Limit) -> Amount
    requires { Laid m.now × (i < length (decode m.now).part.accounts) × (limit ≡ (account_in m.now i).rule.limit) }
    ensures { result ≡ (account_in m.now i).total }
{
    let at = TOTALS + i;
    limit.amount(m[at])
}

// Another total for account i.
pub fn put_total(m: &mut [u64], i: usize, total: Amount)
    requires { Laid m.old × (i < length (decode m.old).part.accounts) }
    ensures { m.new ≡ stored (with_total (decode m.old) i total) m.old }
{
    let at = TOTALS + i;
    m[at] = total.number();
}

// Another clock.
pub fn put_clock(m: &mut [u64], time: u64)
    requires { Laid m.old }
    ensures { m.new ≡ stored (with_clock (decode m.old) time) m.old }
{
    m[CLOCK] = time;
}
