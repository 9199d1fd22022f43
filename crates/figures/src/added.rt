// What an event adds to a row of the account that it is of.
ghost use Rattle.std.specs.Prelude.{◌≡◌};
ghost use Rattle.figures.specs.Figures.{happening_root, trip_at, figures_of, no_figures};
ghost use Rattle.figures.specs.Inner.Rows.{PricedHappening};

use crate::{Figures, Happening};
use measures::{Contracts, Executions, TenThousandths};
use rules::Level;

// The root that an event is of; what counts nowhere is given the first.
#[tactic(auto, unfolding(crate::specs::Figures::happening_root))]
pub(crate) fn root_of(h: Happening) -> u64
    ensures { result ≡ happening_root h }
{
    match h {
        Happening::Uncounted => 0,
        Happening::Ordered { root, .. }
        | Happening::Offered { root, .. }
        | Happening::Reported { root, .. } => root,
    }
}

// What trips are to a level's row: a root's are root trips, the firm's firm trips.
#[tactic(auto, unfolding(crate::specs::Figures::trip_at, demand::specs::Answers::one))]
fn trip_at(level: Level, roottrip: bool, firmtrip: bool) -> u64
    ensures { result ≡ trip_at level roottrip firmtrip }
{
    match level {
        Level::Firm => u64::from(firmtrip),
        Level::Root(_) => u64::from(roottrip),
    }
}

// No figure at all.
#[tactic(auto, unfolding(crate::specs::Figures::no_figures))]
fn nothing() -> Figures
    ensures { result ≡ no_figures }
{
    Figures {
        accepted: 0,
        rejected: 0,
        fills: Executions(0),
        contracts: Contracts(0),
        notional: TenThousandths(0),
        cuts: 0,
        trips: 0,
        away: 0,
    }
}

// What an event adds to a level's row that it is of: an order or a sending was accepted at verdict 0, and rejected at any other; an offer is a fill if
// something was granted, and a cut if less was granted than offered; a report counts in its own column.
pub(crate) fn figures_of(level: Level, h: Happening) -> Figures
    requires { PricedHappening h }
    ensures { result ≡ figures_of level h }
{
    match h {
        Happening::Uncounted => nothing(),
        Happening::Ordered { verdict, .. } => Figures {
            accepted: u64::from(verdict == 0),
            rejected: u64::from(verdict != 0),
            ..nothing()
        },
        Happening::Offered {
            premium,
            contracts,
            grant,
            roottrip,
            firmtrip,
            ..
        } => Figures {
            fills: Executions(u64::from(0 < grant)),
            contracts: Contracts(grant),
            notional: TenThousandths(premium).times(Contracts(grant)),
            cuts: u64::from(grant < contracts),
            trips: trip_at(level, roottrip, firmtrip),
            ..nothing()
        },
        Happening::Reported {
            roottrip,
            firmtrip,
            ..
        } => Figures {
            trips: trip_at(level, roottrip, firmtrip),
            away: 1,
            ..nothing()
        },
    }
}
