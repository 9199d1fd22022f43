// One line of a profile: the rule that it says, or the refusal of its fault.
#![tactic(auto)]

ghost use Rattle.std.specs.Prelude.{◌≡◌, ◌+◌, ◌-◌, ◌*◌, ◌<◌, Some};
ghost use Rattle.refusals.specs.Numbers.{numbered};
ghost use Rattle.line.specs.Line.{firm_in, level_clash, unit_clash, scope_of, line_of, any_line};
ghost use Rattle.line.specs.Inner.Parts.{side_number, month_number};

mod fields;
mod limits;

use fields::{Month, Side};
use measures::Time;
use refusals::Refusal;
use rules::{Rule, Scope};
use text::Fields;

// The six types of limit that a profile names.
#[derive(Clone, Copy)]
pub enum LimitType {
    RateNtnl,
    RateVol,
    RateCount,
    AbsNtnl,
    AbsVol,
    AbsCount,
}

// Whether a line has a root and T, or neither.
fn level_clash(root: u64, firmwide: bool) -> bool
    ensures { result ≡ level_clash root firmwide }
{
    (0 < root) == firmwide
}

// Whether call/put or month is set without the other, or in a firm rule.
#[tactic(auto, unfolding(crate::specs::Line::unit_clash))]
fn unit_clash(firmwide: bool, call: Option<Side>, month: Option<Month>) -> bool
    ensures { result ≡ unit_clash firmwide (side_number call) (month_number month) }
{
    (call.is_some() != month.is_some()) | firmwide & call.is_some()
}

// The number of a unit of a root.
fn unit_of(call: Side, month: Month) -> u64
    ensures { result ≡ (side_number (Some call) - 1) * 2 + (month_number (Some month) - 1) }
{
    match (call, month) {
        (Side::Call, Month::Front) => 0,
        (Side::Call, Month::Trailing) => 1,
        (Side::Put, Month::Front) => 2,
        (Side::Put, Month::Trailing) => 3,
    }
}

// What a rule covers: every fill, its whole root, or one unit of it.
#[tactic(auto, unfolding(crate::specs::Line::scope_of))]
fn scope_of(root: u64, firmwide: bool, call: Option<Side>, month: Option<Month>) -> Scope
    requires { 0 < side_number call → 0 < month_number month }
    ensures { result ≡ scope_of root firmwide (side_number call) (month_number month) }
{
    if firmwide {
        return Scope::EveryFill;
    }
    if let (Some(call), Some(month)) = (call, month) {
        return Scope::OneUnit(root, unit_of(call, month));
    }
    Scope::WholeRoot(root)
}

// The number of the firm that a line names, 0 if its first field is no firm's name.
pub fn firm_of(line: &[u8]) -> u64
    ensures { result ≡ firm_in line.now }
{
    Fields::of(line).firm().unwrap_or(0)
}

// What a line of a profile comes to where line 1 names that firm.
fn line_in(firm: u64, line: &[u8]) -> Result<Rule, Refusal>
    ensures { numbered result ≡ line_of firm line.now }
{
    let Some(said) = fields::read(line) else {
        return Err(Refusal::Malformed);
    };
    if said.firm != firm {
        return Err(Refusal::OtherFirm);
    }
    let Some(limit) = said.named.limit(said.limit) else {
        return Err(Refusal::OutOfRange);
    };
    if Time::WINDOW_MOST < said.time {
        return Err(Refusal::OutOfRange);
    }
    if level_clash(said.root, said.firmwide) {
        return Err(Refusal::LevelClash);
    }
    if unit_clash(said.firmwide, said.call, said.month) {
        return Err(Refusal::UnitClash);
    }
    Ok(Rule {
        scope: scope_of(said.root, said.firmwide, said.call, said.month),
        kind: said.named.kind(said.time),
        limit,
    })
}

// What a line comes to where line 1 names that firm: a line that is longer than a profile may be is refused as such a profile is.
pub fn read_line(firm: u64, line: &[u8]) -> Result<Rule, Refusal>
    ensures { numbered result ≡ any_line firm line.now }
{
    if 65_536 < line.len() {
        return Err(Refusal::ProfileLength);
    }
    line_in(firm, line)
}
