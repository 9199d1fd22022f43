// A whole profile: from its text to the firm, the roots and the rules, or the first fault and its line.
#![tactic(auto)]

ghost use Rattle.std.specs.Prelude.{◌≡◌, true, cond, ◌+◌, ◌*◌, ◌≤◌, ◌<◌, length, eqb};
ghost use Rattle.std.proofs.lemmas.List.Edits.{sets};
ghost use Rattle.text.specs.Text.{lines, index_of};
ghost use Rattle.packing.specs.RulePlace.{rule_numbers};
ghost use Rattle.rules.specs.Valid.{is_rule};
ghost use Rattle.machine.specs.State.{Profile};
ghost use Rattle.admission.specs.Inner.Counting.{no_rules};
ghost use Rattle.profile.specs.Reading.{reading_told};
ghost use Rattle.profile.specs.Profile.{numbered, read_on, start_of, scan_beside, scan_told};
ghost use Rattle.profile.specs.Inner.Lawful.{Said, NewestOnce};
ghost use Rattle.profile.specs.Inner.Held.{Held, HoldsSome, Joins, ReadingTold};

use admission::Tally;
use refusals::Refusal;
use rules::{Rule, Scope};

// What an accepted profile has: the firm's name and how many rules and roots there are.
#[derive(Clone, Copy)]
pub struct Armed {
    pub firm: u64,
    pub rules: u64,
    pub roots: u64,
}

// Why a profile is refused, and the line, from 1, that it is for; 0 where it is for none.
#[derive(Clone, Copy)]
pub struct Fault {
    pub refusal: Refusal,
    pub line: u64,
}

// A refusal by itself is for no line.
impl From<Refusal> for Fault {
    ghost from_gives = { λ refusal fault. fault ≡ record { refusal = refusal; line = 0 } };

    fn from(refusal: Refusal) -> Fault {
        Fault { refusal, line: 0 }
    }
}

// What was read: the answer, the roots' names and the rules in their places. Nothing of the caller's is written.
#[derive(Drop)]
pub struct Scan {
    pub reading: Result<Armed, Fault>,
    pub roots: [u64; 64],
    pub rules: [u64; 512],
}

// The number of a root: the place of its name among those that are known, or the next place.
pub fn root_number(names: &[u64], name: u64) -> u64
    ensures { result ≡ index_of name names.now }
{
    let mut i: usize = 0;
    while i < names.len() {
        if names[i] == name {
            return i as u64;
        }
        i += 1;
    }
    i as u64
}

// The number of a root, where the newest name stands nowhere before: lines come in runs of one root, so that the newest is looked at first.
fn likely_number(names: &[u64], name: u64) -> u64
    requires { NewestOnce names.now }
    ensures { result ≡ index_of name names.now }
{
    if 0 < names.len() {
        let newest = names.len() - 1;
        if names[newest] == name {
            return newest as u64;
        }
    }
    root_number(names, name)
}

// A scope with the number of its root for the name, by the names that are known.
fn scope_numbered(scope: Scope, names: &[u64]) -> Scope
    requires { NewestOnce names.now }
    ensures { result ≡ numbered names.now scope }
{
    match scope {
        Scope::EveryFill => Scope::EveryFill,
        Scope::WholeRoot(name) => Scope::WholeRoot(likely_number(names, name)),
        Scope::OneUnit(name, unit) => Scope::OneUnit(likely_number(names, name), unit),
    }
}

// Puts a rule at place i of the rules.
fn put_rule(rules: &mut [u64], i: usize, rule: Rule)
    requires { (length rules.old ≡ 512) × (i < 256) × (is_rule 64 rule ≡ true) }
    ensures { rules.new ≡ sets rules.old (i * 2) (rule_numbers rule) }
{
    let p = packing::rule_place(rule);
    let at = i * 2;
    rules[at] = p.first;
    rules[at + 1] = p.second;
}

// Takes a rule in, unless with it there is one rule or root too many.
fn take_in(
    tally: Tally,
    rule: Rule,
    roots: &mut [u64],
    rules: &mut [u64],
    counts: &mut [u64],
) -> Option<Tally>
    requires { HoldsSome tally roots.old rules.old counts.old × Said rule }
    ensures { (p : Profile) → Held p tally roots.old rules.old counts.old → Joins p rule result roots.new rules.new counts.new }
{
    let known = tally.seen as usize;
    let scope = rule.scope;
    let kind = rule.kind;
    let limit = rule.limit;
    let own = Rule {
        scope: scope_numbered(scope, &roots[..known]),
        kind,
        limit,
    };
    let next = admission::admit(own, tally, counts)?;
    let at = tally.rules as usize;
    put_rule(rules, at, own);
    if next.seen == tally.seen {
        return Some(next);
    }
    // The root is new.
    roots[known] = packing::root_number(scope);
    Some(next)
}

// Reads the lines of a text, all for one firm, and stores their roots and rules until one has a fault.
fn read_lines(
    text: &[u8],
    firm: u64,
    roots: &mut [u64],
    rules: &mut [u64],
    counts: &mut [u64],
) -> Result<Armed, Fault>
    requires { (length text.now ≤ 65_536) × Held (start_of firm) no_rules roots.old rules.old counts.old }
    ensures { ReadingTold (read_on (start_of firm) 0 (lines text.now)) (reading_told result) roots.new rules.new }
{
    let mut tally = Tally {
        rules: 0,
        seen: 0,
        firms: 0,
    };
    let mut at: usize = 0;
    while at < text.len() {
        let line = reader::line_from(text, at);
        let end = at + line.len();
        // Every line before this one gave a rule.
        let number = tally.rules + 1;
        match line::read_line(firm, line) {
            Err(refusal) => return Err(Fault {
                refusal,
                line: number,
            }),
            Ok(rule) => match take_in(tally, rule, roots, rules, counts) {
                None => return Err(Fault {
                    refusal: Refusal::TooMany,
                    line: number,
                }),
                Some(next) => tally = next,
            },
        }
        at = end + 1;
    }
    Ok(Armed {
        firm,
        rules: tally.rules,
        roots: tally.seen,
    })
}

// The firm that the lines have to name: that of line 1, and none if the other has its name.
fn firm_beside(named: u64, other: u64) -> u64
    ensures { result ≡ cond (eqb named other) 0 named }
{
    if named == other {
        return 0;
    }
    named
}

// Reads a whole profile, beside a firm of another name; 0 for none.
pub fn read(text: &[u8], other: u64) -> Scan
    ensures { scan_told result ≡ scan_beside other text.now }
{
    let mut roots = [0u64; 64];
    let mut rules = [0u64; 512];
    let mut counts = [0u64; 64];
    if !((1 <= text.len()) & (text.len() <= 65_536)) {
        return Scan {
            reading: Err(Fault::from(Refusal::ProfileLength)),
            roots,
            rules,
        };
    }
    let firm = firm_beside(line::firm_of(reader::line_from(text, 0)), other);
    let reading = read_lines(text, firm, &mut roots, &mut rules, &mut counts);
    Scan {
        reading,
        roots,
        rules,
    }
}
