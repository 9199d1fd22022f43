// Reads event records of 16 bytes from standard input, writes each event again, and moves it to 12 bytes and back. Prints a line for each: its
// place, the refusal number, what it is, and whether it came back.
#![tactic(auto)]

use records::Event16;
use std::io;
use std::io::Read;

fn print_event(rt: &impl Print, e: Event16) -> io::Result<()> {
    match e {
        Event16::Order { time, root, reset } => {
            print!(rt; " order time {time} root {root} reset {reset}")
        }
        Event16::Offer {
            time,
            root,
            unit,
            premium,
            contracts,
        } => {
            print!(rt;
                " offer time {time} root {root} unit {unit} premium {premium} contracts {contracts}"
            )
        }
        Event16::Lockout { time, level, root } => {
            print!(rt; " lockout time {time} level {level} root {root}")
        }
        Event16::Sending {
            time,
            root,
            unit,
            premium,
            contracts,
            identity,
            reports,
        } => {
            print!(rt;
                " sending time {time} root {root} unit {unit} premium {premium} contracts {contracts}"
            )?;
            print!(rt; " identity {identity} reports {reports}")
        }
        Event16::Report {
            time,
            identity,
            contracts,
        } => print!(rt; " report time {time} identity {identity} contracts {contracts}"),
        Event16::Closing { time, identity } => {
            print!(rt; " closing time {time} identity {identity}")
        }
    }
}

// Prints whether an event's record is the bytes that it was read from.
fn print_again(rt: &impl Print, e: Event16, s: &[u8]) -> io::Result<()> {
    let mut again = [0u8; records::BYTES16];
    let written = records::write16(e, &mut again);
    if written.is_ok() && s == again.as_slice() {
        print!(rt; ", written again as the same bytes")
    } else {
        print!(rt; ", NOT written again as the same bytes")
    }
}

// Prints whether a record of 12 bytes that s was moved to comes back as s.
fn print_back(rt: &impl Print, old: &[u8], s: &[u8]) -> io::Result<()> {
    let mut again = [0u8; records::BYTES16];
    let moved = records::widen(old, &mut again);
    if moved.is_ok() && s == again.as_slice() {
        println!(rt; ", moved to 12 bytes and back")
    } else {
        println!(rt; ", NOT moved to 12 bytes and back")
    }
}

// Moves a record to 12 bytes and back, or prints the number by which that is refused.
fn print_moved(rt: &impl Print, s: &[u8]) -> io::Result<()> {
    let mut old = [0u8; records::BYTES];
    match records::narrow(s, &mut old) {
        Ok(()) => print_back(rt, &old, s),
        Err(refusal) => {
            let number = refusal.number();
            println!(rt; ", {number} when moved")
        }
    }
}

fn print_line(rt: &impl Print, place: u64, s: &[u8]) -> io::Result<()> {
    match records::read16(s) {
        Ok(e) => {
            print!(rt; "{place} 0")?;
            print_event(rt, e)?;
            print_again(rt, e, s)?;
        }
        Err(refusal) => {
            let number = refusal.number();
            print!(rt; "{place} {number} no record of a valid event")?;
        }
    }
    print_moved(rt, s)
}

// Reads one record and prints its line; answers whether there may be another.
fn next(rt: &impl Print, input: &mut impl Read, place: u64) -> io::Result<bool> {
    let mut s = [0u8; records::BYTES16];
    let n = inputs::read_full(input, &mut s)?;
    if n == 0 {
        return Ok(false);
    }
    print_line(rt, place, &s[..n])?;
    Ok(true)
}

fn main(rt: HostRuntime) -> io::Result<()> {
    let mut input = rt.stdin();
    for place in 1..u64::MAX {
        if !next(&rt, &mut input, place)? {
            break;
        }
    }
    Ok(())
}
