// What arming looks at before it reads the text, and what it does to the other's seat.
ghost use Rattle.std.specs.Prelude.{◌≡◌, true, length, get_or};
ghost use Rattle.refusals.specs.Numbers.{refused_with};
ghost use Rattle.state.specs.State.{size};
ghost use Rattle.firms.specs.Doings.{name_of};
ghost use Rattle.seats.specs.Memory.{encode_seat, decode_seat, is_seat, arm_refusal};

use refusals::Refusal;

// The refusal that arming meets by the memory and the firm's number.
pub(crate) fn arm_refusal(m: &[u64], firm: u64) -> Result<(), Refusal>
    ensures { refused_with result ≡ arm_refusal m.now firm }
{
    if m.len() < crate::SIZE {
        return Err(Refusal::NoRoom);
    }
    if 1 < firm {
        return Err(Refusal::Unknown);
    }
    let at = firm as usize * state::SIZE;
    if m[at] != 0 {
        return Err(Refusal::ArmedAlready);
    }
    let other = state::SIZE - at;
    if m[other] == 0 {
        return Ok(());
    }
    if !crate::is_sound(m) {
        return Err(Refusal::Unsound);
    }
    Ok(())
}

// The name of the firm in a seat, 0 where none is armed.
pub(crate) fn name_in(s: &[u64]) -> u64
    requires { length s.now ≡ size }
    ensures { result ≡ name_of (decode_seat s.now) }
{
    if s[state::MARK] == 0 {
        return 0;
    }
    s[state::FIRM]
}

// A seat in which no firm is armed becomes zeros, whatever it held.
pub(crate) fn clean(s: &mut [u64])
    requires { (length s.old ≡ size) × ((get_or s.old 0 0 ≡ 0 → ⊥) → is_seat s.old ≡ true) }
    ensures { s.new ≡ encode_seat (decode_seat s.old) }
{
    if s[state::MARK] != 0 {
        return;
    }
    daylog::blank(s);
}
