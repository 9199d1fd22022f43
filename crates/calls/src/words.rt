// Words written to lent room.
ghost use Rattle.std.specs.Prelude.{◌≡◌, ◌≤◌, length};
ghost use Rattle.refusals.specs.Numbers.{numbered};
ghost use Rattle.calls.specs.Calls.{say_answer, say_memory};

use refusals::Refusal;

// Writes words of at most 20 bytes to a room of at least 20, and answers how many they are.
pub(crate) fn say(words: &[u8], room: &mut [u8]) -> Result<u64, Refusal>
    requires { length words.now ≤ 20 }
    ensures value { numbered result ≡ say_answer words.now room.old }
    ensures room_after { room.new ≡ say_memory words.now room.old }
{
    if room.len() < 20 {
        return Err(Refusal::NoRoom);
    }
    let size = text::put_words(words, room, 0);
    Ok(size as u64)
}
