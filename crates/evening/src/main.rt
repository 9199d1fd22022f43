// Prints the table of a day: arms the state from the file `profile`, applies the event records of standard input, and prints a line for each root and
// one for the firm.
#![tactic(auto)]

use std::io;
use std::io::Read;
use std::rt::Files;

// Arms the memory from the file `profile`, of which one byte more is read than a profile may have, and prints the line of a refused one. Answers
// whether to go on.
fn arm(rt: &(impl Files + Print), memory: &mut [u64]) -> io::Result<bool> {
    let mut text = [0u8; 65537];
    let n = inputs::read_profile(rt, &mut text);
    let mut line = [0u8; 126];
    let opened = answering::arm(memory, &text[..n], &mut line);
    if opened.armed {
        return Ok(true);
    }
    let bytes = opened.bytes;
    rt.write_all(&line[..bytes])?;
    Ok(false)
}

// Applies and counts what comes of the input until a room is full, and answers whether there may be more.
fn take_piece(
    from: &mut impl Read,
    memory: &mut [u64],
    account: &mut [u64],
    input: &mut [u8],
) -> io::Result<bool> {
    let n = inputs::read_full(from, input)?;
    tabled::run(memory, account, &input[..n]);
    Ok(n == input.len())
}

// Applies and counts the whole input. A proved loop has to end, so it counts its turns, to a number that no run comes to.
fn take_all(
    from: &mut impl Read,
    memory: &mut [u64],
    account: &mut [u64],
    input: &mut [u8],
) -> io::Result<()> {
    for _ in 0..u64::MAX {
        if !take_piece(from, memory, account, input)? {
            break;
        }
    }
    Ok(())
}

// Prints the table.
fn print_table(rt: &impl Print, memory: &[u64], account: &[u64]) -> io::Result<()> {
    let mut table = [0u8; tabled::TABLE_BYTES];
    let n = tabled::put_table(memory, account, &mut table);
    rt.write_all(&table[..n])
}

// How many records are read at a time: pieces of whole records leave what the input leaves in one go.
const RECORDS: usize = 4096;

// Arms the unit, and prints the table of the input if it is armed.
fn print_day(rt: &HostRuntime) -> io::Result<()> {
    let mut memory = [0u64; answering::SIZE];
    if !arm(rt, &mut memory)? {
        return Ok(());
    }
    let mut account = [0u64; figures::SIZE];
    let mut input = [0u8; RECORDS * answering::RECORD_BYTES];
    take_all(&mut rt.stdin(), &mut memory, &mut account, &mut input)?;
    print_table(rt, &memory, &account)
}

fn main(rt: HostRuntime) -> io::Result<()> {
    inputs::unless_gone(print_day(&rt))
}
