// Old entries leave a firm's log by its own window and clock.
ghost use Rattle.std.specs.Prelude.{◌≡◌, true, length};
ghost use Rattle.state.specs.State.{stored, decode};
ghost use Rattle.state.specs.Sound.{is_sound};
ghost use Rattle.state.specs.State.{size};
ghost use Rattle.firms.specs.Seats.{trimmed, trimmed_seat};
ghost use Rattle.seats.specs.Memory.{is_seat, encode_seat, decode_seat};

// The entries of a firm leave that its longest window has passed at its clock.
fn trim(s: &mut [u64])
    requires { is_sound s.old ≡ true }
    ensures { s.new ≡ stored (trimmed (decode s.old)) s.old }
{
    let window = state::longest_window(s);
    let time = state::clock_in(s);
    let inside = daylog::recent_entries(&s[state::LOG..state::SIZE], window, time);
    daylog::keep_last(&mut s[state::LOG..state::SIZE], inside);
}

// And so of a seat, where a firm sits in it.
pub(crate) fn trim_seat(s: &mut [u64])
    requires { (is_seat s.old ≡ true) × (length s.old ≡ size) }
    ensures { s.new ≡ encode_seat (trimmed_seat (decode_seat s.old)) }
{
    if s[state::MARK] == 0 {
        return;
    }
    trim(s);
}
