// The six types of limit: the field that names one, and what a number and a time are to each.
ghost use Rattle.std.specs.Prelude.{◌≡◌, [], cond, is_some, get_or, drop};
ghost use Rattle.line.specs.Line.{type_of, is_absolute, kind_of};
ghost use Rattle.line.specs.Inner.Parts.{limit_read};

use crate::LimitType;
use measures::{Contracts, Dollars, Executions, Time};
use rules::{Kind, Limit};
use text::Fields;

impl LimitType {
    // The type that the next field names. The field is passed if it names one.
    #[tactic(auto, unfolding(crate::specs::Line::type_of, text::specs::Text::index_of))]
    pub(crate) fn named(fields: &mut Fields) -> Option<LimitType>
        ensures value { result ≡ type_of (get_or fields.old 0 []) }
        ensures left { fields.new ≡ cond (is_some result) (drop 1 fields.old) fields.old }
    {
        if fields.passes(b"rate_ntnl") {
            Some(LimitType::RateNtnl)
        } else if fields.passes(b"rate_vol") {
            Some(LimitType::RateVol)
        } else if fields.passes(b"rate_count") {
            Some(LimitType::RateCount)
        } else if fields.passes(b"abs_ntnl") {
            Some(LimitType::AbsNtnl)
        } else if fields.passes(b"abs_vol") {
            Some(LimitType::AbsVol)
        } else if fields.passes(b"abs_count") {
            Some(LimitType::AbsCount)
        } else {
            None
        }
    }

    // Whether a rule of the type counts over any time.
    #[tactic(auto, unfolding(crate::specs::Line::is_absolute))]
    pub(crate) fn is_absolute(self) -> bool
        ensures { result ≡ is_absolute self }
    {
        matches!(
            self,
            LimitType::AbsNtnl | LimitType::AbsVol | LimitType::AbsCount
        )
    }

    // A number as the type's limit, if it is in range.
    #[tactic(auto, unfolding(crate::specs::Line::limits_of, crate::specs::Line::limit_of), using(crate::proofs::Parts::limit_taken, crate::proofs::Parts::limit_beyond))]
    pub(crate) fn limit(self, n: u64) -> Option<Limit>
        ensures { result ≡ limit_read self n }
    {
        match self {
            LimitType::RateNtnl | LimitType::AbsNtnl => Some(Limit::Notional(Dollars::limit(n)?)),
            LimitType::RateVol | LimitType::AbsVol => Some(Limit::Volume(Contracts::limit(n)?)),
            LimitType::RateCount | LimitType::AbsCount => Some(Limit::Count(Executions::limit(n)?)),
        }
    }

    // How a rule of the type counts: over the window of a time limit, one below the least as the least, or over any time.
    #[tactic(auto, unfolding(crate::specs::Line::kind_of))]
    pub(crate) fn kind(self, time: u64) -> Kind
        ensures { result ≡ kind_of self time }
    {
        if self.is_absolute() {
            Kind::Absolute
        } else {
            Kind::Rate(time.max(Time::WINDOW_LEAST))
        }
    }
}
