// An order sent away in two numbers: its numbers put together of their fields, and the fields taken from them.
ghost use Rattle.std.specs.Prelude.{◌≡◌, true, [], ◌∷◌};
ghost use Rattle.bits.specs.Fields.{packed};
ghost use Rattle.machine.specs.Register.{is_sent};
ghost use Rattle.packing.specs.EntryPlace.{amount_widths};
ghost use Rattle.register.specs.SentPlace.{sent_widths, sent_values, open_values, sent_from, sent_gaps};

use machine::Sent;
use measures::{Contracts, TenThousandths};

// Two to the 20th and to the 27th: what the longer fields stay below.
const TWO_20: u64 = 1_048_576;

const TWO_27: u64 = 134_217_728;

// The most that an identity is, and the most reports that an order is allowed.
pub(crate) const IDENTITY_MOST: u64 = 65_535;

pub(crate) const REPORTS_MOST: u64 = 16;

// The first number of an order: identity, root, unit and reports.
pub(crate) fn sent_word(sent: Sent) -> u64
    requires { is_sent 64 sent ≡ true }
    ensures { result ≡ packed sent_widths (sent_values sent) }
{
    sent.identity * 8192 + sent.root * 128 + sent.unit * 32 + sent.reports
}

// The second number of an order: its premium above its open contracts.
pub(crate) fn open_word(sent: Sent) -> u64
    requires { is_sent 64 sent ≡ true }
    ensures { result ≡ packed amount_widths (open_values sent) }
{
    sent.premium.0 * TWO_20 + sent.contracts.0
}

// The identity in an order's first number.
pub(crate) fn identity_of(first: u64) -> u64
    ensures { result ≡ (sent_from (first ∷ [])).identity }
{
    first / 8192 % (IDENTITY_MOST + 1)
}

// The reports still allowed in an order's first number.
pub(crate) fn reports_of(first: u64) -> u64
    ensures { result ≡ (sent_from (first ∷ [])).reports }
{
    first % 32
}

// The order that two numbers stand for.
pub(crate) fn sent_of(first: u64, second: u64) -> Sent
    ensures { result ≡ sent_from (first ∷ second ∷ []) }
{
    Sent {
        identity: identity_of(first),
        root: first / 128 % 64,
        unit: first / 32 % 4,
        premium: TenThousandths(second / TWO_20 % TWO_27),
        contracts: Contracts(second % TWO_20),
        reports: reports_of(first),
    }
}

// The gaps that tell whether two numbers are those of an order with so many roots, and nothing else.
pub(crate) fn sent_gaps(first: u64, second: u64, roots: u64) -> u64
    ensures { result ≡ sent_gaps roots first second }
{
    // An identity and a premium in range have nothing above them.
    let premium = second / TWO_20;
    packing::gap(IDENTITY_MOST, first / 8192)
        | packing::gap(roots.min(64), first / 128 % 64 + 1)
        | packing::gap(REPORTS_MOST, first % 32)
        | (packing::gap(premium, TenThousandths::PREMIUM_LEAST)
            | packing::gap(TenThousandths::PREMIUM_MOST, premium))
        | packing::gap(Contracts::OFFER_MOST, second % TWO_20)
}
