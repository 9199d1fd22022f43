// The public calls that read an armed unit's profile: a root's number by its name, a root's name by its number, a rule by its number, and the whole as text.
#![tactic(auto)]

ghost use Rattle.std.specs.Prelude.{◌≡◌, ◌+◌, ◌≤◌, Some};
ghost use Rattle.packing.specs.RulePlace.{limit_number, measure_number};
ghost use Rattle.state.specs.State.{decode};
ghost use Rattle.calls.specs.Calls.{memory_refusal};
ghost use Rattle.refusals.specs.Numbers.{numbered};
ghost use Rattle.views.specs.declared.Unlisted.TheVariants.{Refused as WasRefused};
ghost use Rattle.views.specs.Views.{found_root, root_named, root_name, root_name_room, terms_of, listing_told, rule_told, profile_answer, profile_room};

use refusals::Refusal;
use rules::{Kind, Limit, Rule, Scope};

// A rule as numbers.
#[derive(Clone, Copy)]
pub struct Terms {
    pub ruletype: u64,
    pub limit: u64,
    pub window: u64,
    pub root: u64,
    pub unit: u64,
}

// Why the profile was not written: the room is short, which is refusal 1, of the size that is needed; or a refusal.
#[derive(Clone, Copy)]
pub enum Unlisted {
    Short(u64),
    Refused(Refusal),
}

impl From<Refusal> for Unlisted {
    ghost from_gives = { λ r e. e ≡ WasRefused r };

    fn from(refusal: Refusal) -> Unlisted {
        Unlisted::Refused(refusal)
    }
}

// The root of a name that came as one number.
fn root_of(m: &[u64], name: u64) -> Result<u64, Refusal>
    requires { memory_refusal m.now ≡ 0 }
    ensures { numbered result ≡ found_root (decode m.now).part.profile.roots (Some name) }
{
    let roots = state::roots_in(m);
    let end = state::NAMES + roots as usize;
    let root = profile::root_number(&m[state::NAMES..end], name);
    if root < roots {
        return Ok(root);
    }
    Err(Refusal::Unknown)
}

// The number of the root that has a name.
pub fn root_named(m: &[u64], name: &[u8]) -> Result<u64, Refusal>
    ensures { numbered result ≡ root_named m.now name.now }
{
    calls::memory_refusal(m)?;
    if name.len() < 1 {
        return Err(Refusal::Unknown);
    }
    let number = text::root_name(name);
    match number {
        Some(n) => root_of(m, n),
        None => Err(Refusal::Unknown),
    }
}

// Writes the name of a root to the front of a room of at least 6 bytes, and answers how many bytes it has.
pub fn root_name(m: &[u64], root: u64, room: &mut [u8]) -> Result<u64, Refusal>
    ensures value { numbered result ≡ root_name m.now root room.old }
    ensures room_after { room.new ≡ root_name_room m.now root room.old }
{
    calls::memory_refusal(m)?;
    if state::roots_in(m) <= root {
        return Err(Refusal::Unknown);
    }
    if room.len() < 6 {
        return Err(Refusal::NoRoom);
    }
    let bytes = text::put_name(state::name_in(m, root as usize), room, 0);
    Ok(bytes as u64)
}

// A rule's type where the first of its kind is known, and its limit as a number.
fn sized(first: u64, limit: Limit) -> (u64, u64)
    requires { first ≤ 3 }
    ensures { result ≡ (first + measure_number limit, limit_number limit) }
{
    match limit {
        Limit::Notional(dollars) => (first, dollars.0),
        Limit::Volume(contracts) => (first + 1, contracts.0),
        Limit::Count(executions) => (first + 2, executions.0),
    }
}

// A rule by its numbers: 64 stands for no root, and 4 for all units.
#[tactic(auto, unfolding(crate::specs::Views::terms_of, crate::specs::Views::root_of, crate::specs::Views::unit_of, crate::specs::Views::type_number))]
fn terms_in(rule: Rule) -> Terms
    ensures { result ≡ terms_of rule }
{
    let (first, window) = match rule.kind {
        Kind::Rate(window) => (0, window),
        Kind::Absolute => (3, 0),
    };
    let (root, unit) = match rule.scope {
        Scope::EveryFill => (64, 4),
        Scope::WholeRoot(root) => (root, 4),
        Scope::OneUnit(root, unit) => (root, unit),
    };
    let (ruletype, limit) = sized(first, rule.limit);
    Terms {
        ruletype,
        limit,
        window,
        root,
        unit,
    }
}

// A rule by its number.
pub fn rule(m: &[u64], rule: u64) -> Result<Terms, Refusal>
    ensures { numbered result ≡ rule_told m.now rule }
{
    calls::memory_refusal(m)?;
    if state::rules_in(m) as u64 <= rule {
        return Err(Refusal::Unknown);
    }
    Ok(terms_in(state::rule_in(m, rule as usize)))
}

// Writes the profile that a unit runs as text to the front of a room.
pub fn profile(m: &[u64], room: &mut [u8]) -> Result<u64, Unlisted>
    ensures value { listing_told result ≡ profile_answer m.now room.old }
    ensures room_after { room.new ≡ profile_room m.now room.old }
{
    calls::memory_refusal(m)?;
    let firm = m[state::FIRM];
    let roots = &m[state::ROOTS..state::RULES];
    let rules = &m[state::RULES..state::TOTALS];
    let size = writing::text_size(firm, roots, rules);
    if room.len() < size {
        return Err(Unlisted::Short(size as u64));
    }
    let written = writing::write_text(firm, roots, rules, room);
    Ok(written as u64)
}
