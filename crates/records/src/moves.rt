// Records moved from one form to the other: a record's fields are tested once, where they are read, and what they are moved to is a record too.
ghost use Rattle.std.specs.Prelude.{◌≤◌, ◌≡◌, cond, length, get_or};
ghost use Rattle.std.specs.declared.result.Result.TheVariants.{Ok, Err};
ghost use Rattle.refusals.specs.declared.Refusal.TheVariants.{Unfit};
ghost use Rattle.records.specs.Moves.{widened as widened_of, narrowed as narrowed_of, moves_back, moving_of, moved, widening, narrowing};

use crate::{Event, Event16, form};
use refusals::Refusal;

// The fields of 16 bytes from those of 12: the time in microseconds, and 0 where the old form has no field.
fn widened(v: &[u64; 9]) -> [u64; 11]
    requires { get_or v.now 1 0 ≤ 86_399_999 }
    ensures { result ≡ widened_of v.now }
{
    [
        v[0],
        v[1] * 1000,
        v[2],
        v[3],
        v[4],
        v[5],
        v[6],
        v[7],
        0,
        0,
        0,
    ]
}

// The fields of 12 bytes from those of 16, where the old form has a record for them.
#[tactic(auto, unfolding(crate::specs::Moves::moves_back, crate::specs::Moves::narrowed))]
fn narrowed(v: &[u64; 11]) -> Result<[u64; 9], Refusal>
    ensures { result ≡ cond (moves_back v.now) (Ok (narrowed_of v.now)) (Err Unfit) }
{
    if (v[0] <= 2) & (v[1] % 1000 == 0) & (v[6] <= 3) {
        Ok([v[0], v[1] / 1000, v[2], v[3], v[4], v[5], v[6], v[7], 0])
    } else {
        Err(Refusal::Unfit)
    }
}

// Moves a record of 12 bytes to the first 16 bytes of the room. A refusal writes nothing.
#[tactic(auto, using(crate::proofs::Forms::held, crate::proofs::Forms::held16))]
pub fn widen(s: &[u8], room: &mut [u8]) -> Result<(), Refusal>
    ensures value { result ≡ moving_of widening s.now (length room.old) }
    ensures room_after { room.new ≡ moved widening s.now room.old }
{
    let v = form::fields::<9, Event>(s)?;
    form::put::<11, Event16>(&widened(&v), room)
}

// Moves a record of 16 bytes, where it fits the old form, to the first 12 bytes of the room. A refusal writes nothing.
#[tactic(auto, using(crate::proofs::Forms::held, crate::proofs::Forms::held16))]
pub fn narrow(s: &[u8], room: &mut [u8]) -> Result<(), Refusal>
    ensures value { result ≡ moving_of narrowing s.now (length room.old) }
    ensures room_after { room.new ≡ moved narrowing s.now room.old }
{
    let v = form::fields::<11, Event16>(s)?;
    let old = narrowed(&v)?;
    form::put::<9, Event>(&old, room)
}
