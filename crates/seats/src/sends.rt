// Orders sent away and their reports on a firm's own seat.
ghost use Rattle.std.specs.Prelude.{ℕ, ◌+◌, ◌≤◌, ◌≡◌, true, ◌&&◌, ltb};
ghost use Rattle.rules.specs.Valid.{has_rate};
ghost use Rattle.machine.specs.State.{rules_in};
ghost use Rattle.machine.specs.Answer.{answer_told};
ghost use Rattle.machine.specs.Calls.{Call};
ghost use Rattle.machine.specs.Entries.{are_ordered};
ghost use Rattle.machine.specs.Refusals.{used};
ghost use Rattle.state.specs.State.{decode};
ghost use Rattle.state.specs.Sound.{is_sound};
ghost use Rattle.state.specs.Inner.Laid.{Laid};
ghost use Rattle.seats.specs.Memory.{Done, quiet, called_told};

use crate::offers::Called;
use machine::{Accepted, Offer};
use refusals::Refusal;

// Whether the log has a rate rule to serve, and the use at a time with so many places more passes the room.
fn lacks(s: &[u64], time: u64, places: u64, room: u64) -> bool
    requires { Laid s.now × (are_ordered 0 time (decode s.now).log ≡ true) × (room ≤ 512) }
    ensures { result ≡ (has_rate (rules_in (decode s.now)) && ltb room (used (decode s.now) time + places)) }
{
    if room < places {
        return 0 < state::longest_window(s);
    }
    !state::uses_less(s, time, room + 1 - places)
}

// An order to be sent away: 15 by the room comes last, and only at verdict 0.
pub fn own_send(
    s: &mut [u64],
    o: Offer,
    identity: u64,
    reports: u64,
    room: u64,
) -> Result<Accepted, Refusal>
    requires { (is_sound s.old ≡ true) × (room ≤ 512) }
    ensures { Done room (Call.send o identity reports) s.old s.new (quiet (answer_told result)) }
{
    calls::refusing::send_refusal(s, o, identity, reports)?;
    let verdict = locks::verdict(&s[state::LOCKS..state::REGISTER], o.root);
    if (verdict == 0) & lacks(s, o.time, reports, room) {
        return Err(Refusal::LogFull);
    }
    Ok(calls::tested::sent(s, o, identity, reports))
}

// A fill that came back, whatever the room.
pub fn own_report(
    s: &mut [u64],
    time: u64,
    identity: u64,
    contracts: u64,
) -> Result<Called, Refusal>
    requires { is_sound s.old ≡ true }
    ensures { (room : ℕ) → Done room (Call.report time identity contracts) s.old s.new (called_told result) }
{
    calls::refusing::report_refusal(s, time, identity, contracts)?;
    let joined = 0 < state::longest_window(s);
    let accepted = calls::tested::came_back(s, time, identity, contracts);
    Ok(Called { accepted, joined })
}
