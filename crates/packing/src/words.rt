// The two numbers of a rule, and those of an entry, put together of their fields.
ghost use Rattle.std.specs.Prelude.{◌≡◌, true};
ghost use Rattle.bits.specs.Fields.{packed};
ghost use Rattle.packing.specs.RulePlace.{limit_widths, scope_widths, limit_values, scope_values};
ghost use Rattle.rules.specs.Valid.{is_rule};
ghost use Rattle.machine.specs.Entries.{is_entry};
ghost use Rattle.packing.specs.EntryPlace.{fill_widths, amount_widths, fill_values, amount_values};

use crate::{TWO_20, TWO_27, terms};
use machine::Entry;
use rules::Rule;

// The first number of a rule: its limit above its window.
#[tactic(auto, using(crate::proofs::RulePlace::limit_small), unfolding(crate::specs::RulePlace::limit_values, bits::specs::Fields::packed, bits::specs::Fields::total))]
pub(crate) fn limit_word(rule: Rule) -> u64
    requires { is_rule 64 rule ≡ true }
    ensures { result ≡ packed limit_widths (limit_values rule) }
{
    let (_, n) = terms::limit_fields(rule.limit);
    let (_, window) = terms::kind_fields(rule.kind);
    n * TWO_27 + window
}

// The second number of a rule: measure, kind, scope, root and unit.
#[tactic(auto, using(crate::proofs::RulePlace::scope_small), unfolding(crate::specs::RulePlace::scope_values, bits::specs::Fields::packed, bits::specs::Fields::total))]
pub(crate) fn scope_word(rule: Rule) -> u64
    requires { is_rule 64 rule ≡ true }
    ensures { result ≡ packed scope_widths (scope_values rule) }
{
    let (measure, _) = terms::limit_fields(rule.limit);
    let (kind, _) = terms::kind_fields(rule.kind);
    let (scope, root, unit) = terms::scope_fields(rule.scope);
    measure * 2048 + kind * 1024 + scope * 256 + root * 4 + unit
}

// The first number of an entry: time, root, unit and the two flags.
#[tactic(auto, using(crate::proofs::EntryPlace::fill_small), unfolding(crate::specs::EntryPlace::fill_values, bits::specs::Fields::packed, bits::specs::Fields::total))]
pub(crate) fn fill_word(e: Entry) -> u64
    requires { is_entry 64 e ≡ true }
    ensures { result ≡ packed fill_widths (fill_values e) }
{
    e.time * 1024 + e.root * 16 + e.unit * 4 + u64::from(e.forroot) * 2 + u64::from(e.forfirm)
}

// The second number of an entry: its premium above its contracts.
#[tactic(auto, using(crate::proofs::EntryPlace::amount_small), unfolding(crate::specs::EntryPlace::amount_values, bits::specs::Fields::packed, bits::specs::Fields::total))]
pub(crate) fn amount_word(e: Entry) -> u64
    requires { is_entry 64 e ≡ true }
    ensures { result ≡ packed amount_widths (amount_values e) }
{
    e.premium.0 * TWO_20 + e.contracts.0
}
