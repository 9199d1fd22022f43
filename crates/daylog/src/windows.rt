// The entries inside a window at a time: how many they are, and those that are not leave.
ghost use Rattle.std.specs.Prelude.{◌≡◌, true, ◌++◌, ℕ, ◌+◌, ◌*◌, ◌≤◌, ◌<◌, length, take, drop};
ghost use Rattle.machine.specs.declared.Entry.{Entry};
ghost use Rattle.machine.specs.Entries.{is_entry, are_ordered};
ghost use Rattle.std.proofs.lemmas.List.Edits.{sets};
ghost use Rattle.packing.specs.EntryPlace.{entry_numbers};
ghost use Rattle.daylog.specs.Inner.Log.{HeldLog, entries_of, last_of, moved_log, joined_entries, Last, Left};
ghost use Rattle.daylog.specs.Newest.{newest};
ghost use Rattle.daylog.specs.Inner.Reading.{OfFour};

use crate::blank;
use crate::sieves::first_time;
use machine::Entry;
use rules::Kind;

// How many of the log's entries before a place a reading from the newest on passes, one by one, up to the first that is before a time.
fn singly(log: &[u64], k: usize, first: u64) -> usize
    requires { (first ≤ 86_400_000) × ((n : ℕ) × HeldLog n log.now × (k ≤ n)) }
    ensures { result ≡ length (newest first (entries_of k log.now)) }
{
    let from = first * 1024;
    for i in (0..k).rev() {
        let at = i * 2;
        if log[at] < from {
            return k - 1 - i;
        }
    }
    k
}

// How many of the four entries before a place it passes.
fn of_four(log: &[u64], k: usize, first: u64) -> usize
    requires { (4 ≤ k) × (first ≤ 86_400_000) × ((n : ℕ) × HeldLog n log.now × (k ≤ n)) }
    ensures { OfFour first k log.now result }
{
    let from = first * 1024;
    let at = (k - 4) * 2;
    if log[at + 6] < from {
        return 0;
    }
    if log[at + 4] < from {
        return 1;
    }
    if log[at + 2] < from {
        return 2;
    }
    if log[at] < from {
        return 3;
    }
    4
}

// How many of the log's k entries a reading from the newest on passes, up to the first that is before a time: all where none can be.
pub(crate) fn since(log: &[u64], k: usize, first: u64) -> usize
    requires { HeldLog k log.now × (first ≤ 86_400_000) }
    ensures { result ≡ length (newest first (entries_of k log.now)) }
{
    if first == 0 {
        return k;
    }
    for turn in 0..k / 4 {
        let passed = turn * 4;
        let n = of_four(log, k - passed, first);
        if n < 4 {
            return passed + n;
        }
    }
    let passed = k / 4 * 4;
    passed + singly(log, k - passed, first)
}

// How many of the log's k entries, in order of time, are inside a window at a time: those that stand last.
pub(crate) fn inside(log: &[u64], k: usize, window: u64, time: u64) -> usize
    requires { HeldLog k log.now × (are_ordered 0 time (entries_of k log.now) ≡ true) }
    ensures { Last window time k log.now result }
{
    since(log, k, first_time(Kind::Rate(window), time))
}

// Of the log's k entries the last ones move down, in their order.
fn keep(log: &mut [u64], k: usize, left: usize)
    requires { HeldLog k log.old × (left ≤ k) }
    ensures { log.new ≡ moved_log left (entries_of k log.old) }
{
    if left == k {
        return;
    }
    let from = (k - left) * 2;
    let n = left * 2;
    tables::move_down(log, from, n);
}

// Of the log's k entries the last ones stay, and the places after them hold 0.
pub(crate) fn keep_places(log: &mut [u64], k: usize, left: usize)
    requires { HeldLog k log.old × (left ≤ k) }
    ensures { Left (last_of left (entries_of k log.old)) log.new left }
{
    keep(log, k, left);
    let from = left * 2;
    let end = k * 2;
    blank(&mut log[from..end]);
}

// Puts an entry at place i of a log.
fn put_entry(log: &mut [u64], i: usize, e: Entry)
    requires { (length log.old ≡ 1024) × (i < 512) × (is_entry 64 e ≡ true) }
    ensures { log.new ≡ sets log.old (i * 2) (entry_numbers e) }
{
    let p = packing::entry_place(e);
    let at = i * 2;
    log[at] = p.first;
    log[at + 1] = p.second;
}

// Of the log's k entries the last ones stay, and e joins. Returns how many there are then.
pub(crate) fn join_places(log: &mut [u64], k: usize, left: usize, e: Entry) -> usize
    requires { HeldLog k log.old × (left ≤ k) × (left < 512) × (is_entry 64 e ≡ true) }
    ensures { Left (joined_entries left e (entries_of k log.old)) log.new result }
{
    keep_places(log, k, left);
    put_entry(log, left, e);
    left + 1
}
