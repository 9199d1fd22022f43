// The day's account: what each event was to it, the eight figures of a row, and the rows in lent memory.
#![tactic(auto)]

ghost use Rattle.std.specs.Prelude.{◌≡◌, length};
ghost use Rattle.figures.specs.Account.{account_after, is_account};
ghost use Rattle.figures.specs.Inner.Rows.{Counting, greatest_of, are_low, bound_of};

mod added;
mod rows;

use measures::{Contracts, Executions, TenThousandths};
use rules::Level;

// How many figures a row has, where the firm's row begins, past those of 64 roots, and how many numbers an account takes.
pub const ROW: usize = 8;

pub const FIRM: usize = 64 * ROW;

pub const SIZE: usize = FIRM + ROW;

// What no figure may pass, and the most that one event adds to a figure.
pub const MOST: u64 = measures::TOTAL_MOST;

pub const ADDED_MOST: u64 = TenThousandths::PREMIUM_MOST * Contracts::OFFER_MOST;

// A row of the account. What has a measure keeps it, so that no figure is added to another's.
#[derive(Clone, Copy)]
pub struct Figures {
    pub accepted: u64,
    pub rejected: u64,
    pub fills: Executions,
    pub contracts: Contracts,
    pub notional: TenThousandths,
    pub cuts: u64,
    pub trips: u64,
    pub away: u64,
}

// What an event was to the account: counted nowhere; an order or a sending by its verdict; an offer that was not locked out, by what was offered and
// granted and what tripped; or a report from an away market, by what tripped.
#[derive(Clone, Copy)]
pub enum Happening {
    Uncounted,
    Ordered {
        root: u64,
        verdict: u64,
    },
    Offered {
        root: u64,
        premium: u64,
        contracts: u64,
        grant: u64,
        roottrip: bool,
        firmtrip: bool,
    },
    Reported {
        root: u64,
        roottrip: bool,
        firmtrip: bool,
    },
}

// 2^59: a figure below it is below 10^18 with whatever an event adds.
const LOW: u64 = 576_460_752_303_423_488;

// Whether all of some numbers are below 2^59: what stands above their 59 lowest bits is joined.
fn are_low(s: &[u64]) -> bool
    ensures { result ≡ are_low s.now }
{
    let mut high = 0;
    for n in s {
        high |= *n / LOW;
    }
    high == 0
}

// A number that none of some passes: that of all below 2^59, or else the greatest.
pub fn bound(s: &[u64]) -> u64
    ensures { result ≡ bound_of s.now }
{
    if are_low(s) {
        return LOW - 1;
    }
    greatest(s)
}

// The greatest of some numbers, 0 of none.
fn greatest(s: &[u64]) -> u64
    ensures { result ≡ greatest_of s.now }
{
    let mut most: u64 = 0;
    for n in s {
        // No way out of the loop before its end, so that the numbers can be compared side by side.
        most = most.max(*n);
    }
    most
}

// Whether no figure would pass 10^18 if the event were counted.
pub fn fits(a: &[u64], h: Happening) -> bool
    requires { Counting a.now h }
    ensures { result ≡ is_account (account_after h a.now) }
{
    let root = added::root_of(h);
    let at = root as usize * ROW;
    rows::has_room(a, at, added::figures_of(Level::Root(root), h))
        & rows::has_room(a, FIRM, added::figures_of(Level::Firm, h))
}

// Counts an event: in its root's row and in the firm's.
pub fn count(a: &mut [u64], h: Happening)
    requires { Counting a.old h }
    ensures { a.new ≡ account_after h a.old }
{
    let root = added::root_of(h);
    let at = root as usize * ROW;
    rows::add(a, at, added::figures_of(Level::Root(root), h));
    rows::add(a, FIRM, added::figures_of(Level::Firm, h));
}
