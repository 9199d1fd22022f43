// A row of the account in lent numbers: read, written, and added to.
ghost use Rattle.std.specs.Prelude.{◌≡◌, ◌+◌, ◌≤◌, length, leb};
ghost use Rattle.std.proofs.lemmas.List.Edits.{sets};
ghost use Rattle.laws.specs.Folds.{every};
ghost use Rattle.figures.specs.Figures.{plus, row_numbers};
ghost use Rattle.figures.specs.Account.{most, row_at};
ghost use Rattle.figures.specs.Inner.Rows.{AtMost};

use crate::{Figures, MOST, ROW};
use measures::{Contracts, Executions, TenThousandths};

// A row by its eight numbers.
impl From<[u64; ROW]> for Figures {
    ghost from_gives = { λ numbers f. f ≡ row_at numbers 0 };

    #[tactic(auto, unfolding(crate::specs::Account::row_at))]
    fn from(numbers: [u64; ROW]) -> Figures {
        let [
            accepted,
            rejected,
            fills,
            contracts,
            notional,
            cuts,
            trips,
            away,
        ] = numbers;
        Figures {
            accepted,
            rejected,
            fills: Executions(fills),
            contracts: Contracts(contracts),
            notional: TenThousandths(notional),
            cuts,
            trips,
            away,
        }
    }
}

// A row's eight numbers.
impl From<Figures> for [u64; ROW] {
    ghost from_gives = { λ f numbers. numbers ≡ row_numbers f };

    #[tactic(auto, unfolding(crate::specs::Figures::row_numbers))]
    fn from(f: Figures) -> [u64; ROW] {
        [
            f.accepted,
            f.rejected,
            f.fills.0,
            f.contracts.0,
            f.notional.0,
            f.cuts,
            f.trips,
            f.away,
        ]
    }
}

// Two rows added, each figure to its own.
#[tactic(auto, unfolding(crate::specs::Figures::plus))]
fn plus(a: Figures, b: Figures) -> Figures
    requires { AtMost most a × AtMost most b }
    ensures { result ≡ plus a b }
{
    Figures {
        accepted: a.accepted + b.accepted,
        rejected: a.rejected + b.rejected,
        fills: a.fills.plus(b.fills),
        contracts: a.contracts.plus(b.contracts),
        notional: a.notional.plus(b.notional),
        cuts: a.cuts + b.cuts,
        trips: a.trips + b.trips,
        away: a.away + b.away,
    }
}

// Whether no figure of a row is above 10^18.
fn is_within(f: Figures) -> bool
    ensures { result ≡ every (λ n. leb n most) (row_numbers f) }
{
    <[u64; ROW]>::from(f).iter().all(|n| *n <= MOST)
}

// The row that begins at a place.
fn row_at(a: &[u64], at: usize) -> Figures
    requires { at + 8 ≤ length a.now }
    ensures { result ≡ row_at a.now at }
{
    let mut numbers = [0; ROW];
    numbers.copy_from_slice(&a[at..at + ROW]);
    Figures::from(numbers)
}

// A row written from a place on.
fn put_row(a: &mut [u64], at: usize, f: Figures)
    requires { at + 8 ≤ length a.old }
    ensures { a.new ≡ sets a.old at (row_numbers f) }
{
    a[at..at + ROW].copy_from_slice(&<[u64; ROW]>::from(f));
}

// Whether a row with figures added to it has none above 10^18.
pub(crate) fn has_room(a: &[u64], at: usize, f: Figures) -> bool
    requires { (at + 8 ≤ length a.now) × AtMost most (row_at a.now at) × AtMost most f }
    ensures { result ≡ every (λ n. leb n most) (row_numbers (plus (row_at a.now at) f)) }
{
    is_within(plus(row_at(a, at), f))
}

// Figures added to the row that begins at a place.
pub(crate) fn add(a: &mut [u64], at: usize, f: Figures)
    requires { (at + 8 ≤ length a.old) × AtMost most (row_at a.old at) × AtMost most f }
    ensures { a.new ≡ sets a.old at (row_numbers (plus (row_at a.old at) f)) }
{
    let row = plus(row_at(a, at), f);
    put_row(a, at, row);
}
