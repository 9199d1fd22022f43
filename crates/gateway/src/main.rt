// Arms a unit from the file `profile`, answers the event records of standard input, and prints a line for each.
#![tactic(auto)]

ghost use Rattle.std.specs.Prelude.{◌≡◌, ◌≤◌, length};

use std::io;
use std::io::Read;
use std::rt::Files;

// Arms the memory from the file `profile`, of which one byte more is read than a profile may have, and prints the line about it. Answers whether to go on.
fn arm(rt: &(impl Files + Print), memory: &mut [u64]) -> io::Result<bool> {
    let mut text = [0u8; 65537];
    let n = inputs::read_profile(rt, &mut text);
    let mut line = [0u8; 126];
    let opened = answering::arm(memory, &text[..n], &mut line);
    let bytes = opened.bytes;
    rt.write_all(&line[..bytes])?;
    Ok(opened.armed)
}

// Answers the records of some bytes, the first at a place, and prints their lines. Answers the place after them.
fn answer_records(
    rt: &impl Print,
    memory: &mut [u64],
    place: u64,
    bytes: &[u8],
    output: &mut [u8],
) -> io::Result<u64> {
    let ran = answering::run(memory, place, bytes, output);
    let written = ran.bytes;
    rt.write_all(&output[..written])?;
    Ok(place + ran.records)
}

// Waits for the rest of a record, whose first bytes have come to a room of its size, and answers it. Answers the place after it, or none where the
// input ends.
fn answer_rest(
    rt: &impl Print,
    from: &mut impl Read,
    memory: &mut [u64],
    place: u64,
    room: &mut [u8],
    come: usize,
    output: &mut [u8],
) -> io::Result<Option<u64>>
    requires { come ≤ length room.old }
{
    let more = inputs::read_full(from, &mut room[come..])?;
    let all = come + more;
    let next = answer_records(rt, memory, place, &room[..all], output)?;
    if all < room.len() {
        return Ok(None);
    }
    Ok(Some(next))
}

// Answers what one read of the input brings, the first record at a place, and prints its lines before it waits for anything more. Answers the
// place after it, or none where the input ends.
fn answer_read(
    rt: &impl Print,
    from: &mut impl Read,
    memory: &mut [u64],
    place: u64,
    input: &mut [u8],
    output: &mut [u8],
) -> io::Result<Option<u64>> {
    let come = from.read(input)?;
    if come == 0 {
        return Ok(None);
    }
    let part = come % answering::RECORD_BYTES;
    let whole = come - part;
    let next = answer_records(rt, memory, place, &input[..whole], output)?;
    if part == 0 {
        return Ok(Some(next));
    }
    let end = (whole + answering::RECORD_BYTES).min(input.len());
    answer_rest(rt, from, memory, next, &mut input[whole..end], part, output)
}

// Answers the whole input. A proved loop has to end, so it counts its turns, to a number that no run comes to.
fn answer_all(
    rt: &impl Print,
    from: &mut impl Read,
    memory: &mut [u64],
    input: &mut [u8],
    output: &mut [u8],
) -> io::Result<()> {
    let mut place = 1;
    for _ in 0..u64::MAX {
        let Some(next) = answer_read(rt, from, memory, place, input, output)? else {
            break;
        };
        place = next;
    }
    Ok(())
}

// How many records a read brings at most. Their lines take at most 126 bytes each.
const RECORDS: usize = 4096;

const LINES_BYTES: usize = RECORDS * 126;

// A room of zeros. Its length is the contract's, so that no proof counts half a million of them.
fn room<const N: usize>() -> [u8; N]
    ensures { N ≡ length result }
{
    [0; N]
}

// Arms the unit, and answers the whole input if it is armed.
fn answer_day(rt: &HostRuntime) -> io::Result<()> {
    let mut memory = [0u64; answering::SIZE];
    if !arm(rt, &mut memory)? {
        return Ok(());
    }
    let mut input = [0u8; RECORDS * answering::RECORD_BYTES];
    let mut output = room::<LINES_BYTES>();
    answer_all(rt, &mut rt.stdin(), &mut memory, &mut input, &mut output)
}

fn main(rt: HostRuntime) -> io::Result<()> {
    inputs::unless_gone(answer_day(&rt))
}
