// An offer on a firm's own seat, with the room that the other firm leaves.
ghost use Rattle.std.specs.Prelude.{◌≡◌, true, ◌≤◌, length};
ghost use Rattle.refusals.specs.Numbers.{refused_with};
ghost use Rattle.machine.specs.Calls.{Call};
ghost use Rattle.machine.specs.Refusals.{first_of, offer_faults};
ghost use Rattle.state.specs.State.{size, decode};
ghost use Rattle.state.specs.Sound.{is_sound};
ghost use Rattle.firms.specs.Seats.{room_beside};
ghost use Rattle.calls.specs.Calls.{Granting};
ghost use Rattle.seats.specs.Memory.{decode_seat, is_seat, Done, called_told};

use machine::{Accepted, Offer};
use measures::{Contracts, TenThousandths, Time};
use refusals::Refusal;

// What a call on a firm's own seat that is not refused is answered, and whether an entry joined the log.
#[derive(Clone, Copy)]
pub struct Called {
    pub accepted: Accepted,
    pub joined: bool,
}

// The room that a firm leaves to the other: its use is read as 192 if lower.
pub(crate) fn room_beside(s: &[u64]) -> u64
    requires { is_seat s.now ≡ true × (length s.now ≡ size) }
    ensures { result ≡ room_beside (decode_seat s.now) }
{
    if s[state::MARK] == 0 {
        return 320;
    }
    512 - numbers::greatest(192, state::used_at(s, state::clock_in(s)))
}

// The refusal of an offer by its numbers.
fn offer_fault(s: &[u64], o: Offer) -> Result<(), Refusal>
    requires { is_sound s.now ≡ true }
    ensures { refused_with result ≡ first_of (offer_faults (decode s.now).part o) }
{
    if !(measures::is_in(o.time, 0, Time::MOST) & (state::clock_in(s) <= o.time)) {
        return Err(Refusal::BadTime);
    }
    if !((o.root < state::roots_in(s)) & measures::is_in(o.unit, 0, 3)) {
        return Err(Refusal::Unknown);
    }
    if !(measures::is_in(o.premium, 1, TenThousandths::PREMIUM_MOST)
        & measures::is_in(o.contracts, 1, Contracts::OFFER_MOST))
    {
        return Err(Refusal::BadAmount);
    }
    Ok(())
}

// An offer that is neither refused by its numbers nor locked out.
fn granted(s: &mut [u64], o: Offer, room: u64) -> Result<Called, Refusal>
    requires { Granting s.old o × (room ≤ 512) }
    ensures { Done room (Call.offer o) s.old s.new (called_told result) }
{
    let inside = grant::inside_at(s, o.time);
    let cuts = grant::cuts_of(s, o, inside.read);
    let grant = numbers::least(cuts.root, cuts.firm);
    let kept = register::kept(&s[state::REGISTER..state::LOG]);
    let read = inside.read;
    let joined = (0 < grant) & (0 < inside.window);
    if joined & (room <= read.passed as u64 + kept) {
        return Err(Refusal::LogFull);
    }
    let trips = grant::fill(s, o, grant, cuts, inside);
    let accepted = Accepted::Judged {
        verdict: 0,
        grant,
        roottrip: trips.root,
        firmtrip: trips.firm,
    };
    Ok(Called { accepted, joined })
}

// An offered fill on a firm's own seat, cut to what the rules allow.
pub fn own_offer(s: &mut [u64], o: Offer, room: u64) -> Result<Called, Refusal>
    requires { (is_sound s.old ≡ true) × (room ≤ 512) }
    ensures { Done room (Call.offer o) s.old s.new (called_told result) }
{
    offer_fault(s, o)?;
    let verdict = locks::verdict(&s[state::LOCKS..state::REGISTER], o.root);
    if verdict != 0 {
        state::put_clock(s, o.time);
        let accepted = Accepted::Judged {
            verdict,
            grant: 0,
            roottrip: false,
            firmtrip: false,
        };
        return Ok(Called {
            accepted,
            joined: false,
        });
    }
    granted(s, o, room)
}
