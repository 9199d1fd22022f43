// What the machine of specs/ speaks of, by value: an entry of the log, an order sent away, an offered fill, and what a call is answered.
#![tactic(auto)]

use bits::Standing;
use measures::{Contracts, TenThousandths};

// An entry of the log: a fill, and whether it counts for its root and for the firm.
#[derive(Clone, Copy)]
pub struct Entry {
    pub time: u64,
    pub root: u64,
    pub unit: u64,
    pub premium: TenThousandths,
    pub contracts: Contracts,
    pub forroot: bool,
    pub forfirm: bool,
}

// An order sent away: the contracts that it has open, and the reports that it is still allowed.
#[derive(Clone, Copy)]
pub struct Sent {
    pub identity: u64,
    pub root: u64,
    pub unit: u64,
    pub premium: TenThousandths,
    pub contracts: Contracts,
    pub reports: u64,
}

// What a reset does: it zeroes the counters of the order's root or of the firm, and takes away the trip and the lockout of either.
#[derive(Clone, Copy)]
pub struct Effect {
    pub zeroroot: bool,
    pub zerofirm: bool,
    pub liftroot: bool,
    pub liftfirm: bool,
}

// An offered fill: so many contracts of a unit of a root, at a premium.
#[derive(Clone, Copy)]
pub struct Offer {
    pub time: u64,
    pub root: u64,
    pub unit: u64,
    pub premium: u64,
    pub contracts: u64,
}

// What a call that is not refused is answered: the verdict on an order, a lockout, an offer or an order sent away, with the grant and the trips; what
// remains of a limit; or how the roots stand.
#[derive(Clone, Copy)]
pub enum Accepted {
    Judged {
        verdict: u64,
        grant: u64,
        roottrip: bool,
        firmtrip: bool,
    },
    Left(u64),
    Standing(Standing),
}
