// A profile as text again: how many bytes its text has, and the text in a lent room, a line for each rule.
#![tactic(auto)]

ghost use Rattle.std.specs.Prelude.{◌≡◌, cond, ◌||◌, ◌∷◌, [], ◌++◌, ◌+◌, ◌≤◌, eqb, ltb, length, drop};
ghost use Rattle.std.proofs.lemmas.List.Edits.{sets};
ghost use Rattle.text.specs.Digits.{name_bytes};
ghost use Rattle.tables.specs.Inner.Tables.{places};
ghost use Rattle.packing.specs.RulePlace.{rule_at};
ghost use Rattle.writing.specs.Writing.{type_name, root_text, line_text, lines_text, text_of};
ghost use Rattle.writing.specs.Inner.Parts.{names_of, KnownScope, RulesPlaced, Lent, profile_in, letters_text, end_text};

use rules::{Kind, Limit, Rule, Scope};

// The name of a type of limit, and a comma.
fn type_words(kind: Kind, limit: Limit) -> &'static [u8]
    ensures { result.now ≡ type_name kind limit ++ (44 ∷ []) }
{
    match kind {
        Kind::Rate(_) => match limit {
            Limit::Notional(_) => b"rate_ntnl,",
            Limit::Volume(_) => b"rate_vol,",
            Limit::Count(_) => b"rate_count,",
        },
        Kind::Absolute => match limit {
            Limit::Notional(_) => b"abs_ntnl,",
            Limit::Volume(_) => b"abs_vol,",
            Limit::Count(_) => b"abs_count,",
        },
    }
}

// The name of a scope's root as a number, 0 where it has none.
fn name_in(roots: &[u64], scope: Scope) -> u64
    requires { KnownScope roots.now scope }
    ensures { name_bytes result ≡ root_text (names_of roots.now) scope }
{
    match scope {
        Scope::EveryFill => 0,
        Scope::WholeRoot(root) => roots[root as usize + 1],
        Scope::OneUnit(root, _) => roots[root as usize + 1],
    }
}

// The letter of calls or puts.
fn call_put(unit: u64) -> u8
    ensures { result ≡ cond (ltb unit 2) 67 80 }
{
    if unit < 2 { b'C' } else { b'P' }
}

// The letter of the front months or of the trailing months.
fn month(unit: u64) -> u8
    ensures { result ≡ cond (eqb unit 0 || eqb unit 2) 70 84 }
{
    if (unit == 0) | (unit == 2) {
        b'F'
    } else {
        b'T'
    }
}

// How many bytes a line has after its time limit.
fn letters_size(scope: Scope) -> usize
    ensures { result ≡ length (letters_text scope) }
{
    match scope {
        Scope::EveryFill => 2,
        Scope::WholeRoot(_) => 0,
        Scope::OneUnit(_, _) => 5,
    }
}

// Writes what a line has after its time limit from a place on, and answers the place after it.
fn put_letters(scope: Scope, room: &mut [u8], at: usize) -> usize
    requires { at + length (letters_text scope) ≤ length room.old }
    ensures value { result ≡ at + length (letters_text scope) }
    ensures room_after { room.new ≡ sets room.old at (letters_text scope) }
{
    match scope {
        Scope::EveryFill => text::put_words(b",T", room, at),
        Scope::WholeRoot(_) => at,
        Scope::OneUnit(_, unit) => {
            let letters = [b',', b',', call_put(unit), b',', month(unit)];
            text::put_words(&letters, room, at)
        }
    }
}

// How many bytes a line has after its limit value.
fn end_size(kind: Kind, scope: Scope) -> usize
    ensures { result ≡ length (end_text kind scope) }
{
    let letters = letters_size(scope);
    match kind {
        Kind::Rate(window) => 1 + text::decimal_size(window) + letters,
        Kind::Absolute => {
            if letters == 0 {
                return 0;
            }
            1 + letters
        }
    }
}

// Writes what a line has after its limit value from a place on, and answers the place after it.
fn put_end(kind: Kind, scope: Scope, room: &mut [u8], at: usize) -> usize
    requires { at + length (end_text kind scope) ≤ length room.old }
    ensures value { result ≡ at + length (end_text kind scope) }
    ensures room_after { room.new ≡ sets room.old at (end_text kind scope) }
{
    match kind {
        Kind::Rate(window) => {
            room[at] = b',';
            let next = text::put_decimal(window, room, at + 1);
            put_letters(scope, room, next)
        }
        Kind::Absolute => {
            if letters_size(scope) == 0 {
                return at;
            }
            room[at] = b',';
            put_letters(scope, room, at + 1)
        }
    }
}

// Writes a name and a comma from a place on, and answers the place after it.
fn put_name(name: u64, room: &mut [u8], at: usize) -> usize
    requires { at + length (name_bytes name) + 1 ≤ length room.old }
    ensures value { result ≡ at + length (name_bytes name ++ (44 ∷ [])) }
    ensures room_after { room.new ≡ sets room.old at (name_bytes name ++ (44 ∷ [])) }
{
    let next = text::put_name(name, room, at);
    room[next] = b',';
    next + 1
}

// How many bytes a rule's line has with its LF.
fn line_size(firm: u64, roots: &[u64], rule: Rule) -> usize
    requires { KnownScope roots.now rule.scope }
    ensures { result ≡ length (line_text firm (names_of roots.now) rule) + 1 }
{
    let scope = rule.scope;
    let kind = rule.kind;
    let limit = rule.limit;
    let name = name_in(roots, scope);
    text::name_size(firm)
        + type_words(kind, limit).len()
        + text::name_size(name)
        + text::decimal_size(packing::limit_number(limit))
        + end_size(kind, scope)
        + 3
}

// Writes a rule's line with its LF from a place on, and answers the place after it.
fn put_line(firm: u64, roots: &[u64], rule: Rule, room: &mut [u8], at: usize) -> usize
    requires known_scope { KnownScope roots.now rule.scope }
    requires rule_in_bounds { at + length (line_text firm (names_of roots.now) rule) + 1 ≤ length room.old }
    ensures value { result ≡ at + length (line_text firm (names_of roots.now) rule ++ (10 ∷ [])) }
    ensures room_after { room.new ≡ sets room.old at (line_text firm (names_of roots.now) rule ++ (10 ∷ [])) }
{
    let scope = rule.scope;
    let kind = rule.kind;
    let limit = rule.limit;
    let name = name_in(roots, scope);
    let to_type = put_name(firm, room, at);
    let to_root = text::put_words(type_words(kind, limit), room, to_type);
    let to_limit = put_name(name, room, to_root);
    let to_end = text::put_decimal(packing::limit_number(limit), room, to_limit);
    let end = put_end(kind, scope, room, to_end);
    room[end] = b'\n';
    end + 1
}

// How many bytes the lines of the rules in the first k places have.
fn lines_size(firm: u64, roots: &[u64], rules: &[u64], k: usize) -> usize
    requires { RulesPlaced roots.now rules.now k }
    ensures { result ≡ length (lines_text firm (names_of roots.now) (places 2 rule_at k rules.now)) }
{
    let mut size: usize = 0;
    for i in 0..k {
        size += line_size(firm, roots, given::rule_at(rules, i));
    }
    size
}

// Writes the lines of the rules in the first k places to the front of a room, and answers how many bytes they have.
fn put_lines(firm: u64, roots: &[u64], rules: &[u64], k: usize, room: &mut [u8]) -> usize
    requires rules_placed { RulesPlaced roots.now rules.now k }
    requires rules_in_bounds { length (lines_text firm (names_of roots.now) (places 2 rule_at k rules.now)) ≤ length room.old }
    ensures value { result ≡ length (lines_text firm (names_of roots.now) (places 2 rule_at k rules.now)) }
    ensures room_after { room.new ≡ sets room.old 0 (lines_text firm (names_of roots.now) (places 2 rule_at k rules.now)) }
{
    let mut to: usize = 0;
    for i in 0..k {
        to = put_line(firm, roots, given::rule_at(rules, i), room, to);
    }
    to
}

// How many bytes the text of a profile has that stands in the tables of its roots and its rules.
pub fn text_size(firm: u64, roots: &[u64], rules: &[u64]) -> usize
    requires { Lent roots.now rules.now }
    ensures { result ≡ length (text_of (profile_in firm roots.now rules.now)) }
{
    let k = rules[0] as usize;
    lines_size(firm, roots, &rules[1..given::RULES_SIZE], k)
}

// Writes the text of such a profile to the front of a room, and answers how many bytes it has.
pub fn write_text(firm: u64, roots: &[u64], rules: &[u64], room: &mut [u8]) -> usize
    requires lent { Lent roots.now rules.now }
    requires rules_in_bounds { length (text_of (profile_in firm roots.now rules.now)) ≤ length room.old }
    ensures value { result ≡ length (text_of (profile_in firm roots.now rules.now)) }
    ensures room_after { room.new ≡ text_of (profile_in firm roots.now rules.now) ++ drop (length (text_of (profile_in firm roots.now rules.now))) room.old }
{
    let k = rules[0] as usize;
    put_lines(firm, roots, &rules[1..given::RULES_SIZE], k, room)
}
