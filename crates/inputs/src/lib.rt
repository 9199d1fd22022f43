// Reads bytes to a room that is lent, until it is full or they end, and says how a program that prints may end.
#![tactic(auto)]

ghost use Rattle.std.specs.Prelude.{◌≡◌, ◌≤◌, ◌≢◌, IfOk, IfErr, length, take};
ghost use Rattle.std.specs.Io.{ReadsAtMost};
ghost use Rattle.std.specs.IoError.{error_kind};
ghost use Rattle.std.specs.declared.result.Result.TheVariants.{Ok, Err};
ghost use Rattle.std.specs.declared.io.ErrorKind.TheVariants.{BrokenPipe};

use std::io::{ErrorKind, Read};
use std::rt::Files;
use std::{fs, io};

// Reads until a room is full or the input ends, and answers how many bytes have come.
pub fn read_full(input: &mut impl Read, room: &mut [u8]) -> io::Result<usize>
    ensures { ReadsAtMost result room.new }
{
    let mut come = 0;
    // How often to read is not known before, and the library's read_exact tells no count where the input ends early.
    while come < room.len() {
        let more = input.read(&mut room[come..])?;
        if more == 0 {
            break;
        }
        come += more;
    }
    Ok(come)
}

// Reads a file until a room is full or the file ends, and answers how many bytes that are.
pub fn read_file(files: &impl Files, path: &str, room: &mut [u8]) -> io::Result<usize>
    ensures { ReadsAtMost result room.new }
{
    let mut file = fs::open(files, path)?;
    read_full(&mut file, room)
}

// Reads the file `profile` to a room, and answers how many bytes that are: none where it is missing or cannot be read to its end.
pub fn read_profile(files: &impl Files, room: &mut [u8]) -> usize
    ensures within { result ≤ length room.new }
    ensures prefix { result ≡ length (take result room.new) }
{
    read_file(files, "profile", room).unwrap_or(0)
}

// How a program that prints ends: a reader that goes away is no error.
pub fn unless_gone(ended: io::Result<()>) -> io::Result<()>
    ensures done { IfOk ended (λ x. result ≡ Ok x) }
    ensures gone { IfErr ended (λ e. error_kind e ≡ BrokenPipe → result ≡ Ok tt) }
    ensures failed { IfErr ended (λ e. error_kind e ≢ BrokenPipe → result ≡ Err e) }
{
    ended.or_else(|e| {
        if e.kind() == ErrorKind::BrokenPipe {
            Ok(())
        } else {
            Err(e)
        }
    })
}
