// What is lent: the refusal by the state's memory where the account is not one, and its numbers copied.
ghost use Rattle.std.specs.Prelude.{◌≡◌, ◌≤◌, length, take};
ghost use Rattle.refusals.specs.Numbers.{refusal_number};
ghost use Rattle.state.specs.State.{size};
ghost use Rattle.accounted.specs.Inner.Lent.{without_account};

use refusals::Refusal;

// The refusal beside an account with a figure above 10^18: 1 for short memory, 4 for memory that is not armed, else 2.
pub(crate) fn without_account(m: &[u64]) -> Refusal
    ensures { refusal_number result ≡ without_account m.now }
{
    if m.len() < state::SIZE {
        return Refusal::NoRoom;
    }
    if m[state::MARK] == 0 {
        return Refusal::NotArmed;
    }
    Refusal::Unsound
}

// A copy of the state's numbers.
pub(crate) fn copied(m: &[u64]) -> [u64; state::SIZE]
    requires { size ≤ length m.now }
    ensures { result ≡ take size m.now }
{
    let mut numbers = [0; state::SIZE];
    state::copy(&m[..state::SIZE], &mut numbers);
    numbers
}
