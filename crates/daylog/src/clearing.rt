// The flags of entries that a reset clears, and the entries that then leave.
ghost use Rattle.std.specs.Prelude.{◌≡◌, cond, [], ◌∷◌, ◌+◌, ◌*◌, ◌<◌, length};
ghost use Rattle.machine.specs.Effects.{zeroing};
ghost use Rattle.machine.specs.Order.{unflagged_log};
ghost use Rattle.std.proofs.lemmas.List.Edits.{sets};
ghost use Rattle.packing.specs.EntryPlace.{flag_number};
ghost use Rattle.daylog.specs.Inner.Log.{HeldLog, entries_of, Left};
ghost use Rattle.daylog.specs.Inner.Sieve.{has_flag, without_flags};

use crate::blank;
use machine::Effect;

// The digits of two flags, as they stand in an entry's first number.
fn flag_digits(forroot: bool, forfirm: bool) -> u64
    ensures { result ≡ flag_number forroot * 2 + flag_number forfirm }
{
    u64::from(forroot) * 2 + u64::from(forfirm)
}

// The first number of an entry without the flags that an effect for a root clears.
fn cleared(fill: u64, root: u64, effect: Effect) -> u64
    ensures { result ≡ without_flags (zeroing effect root) fill }
{
    let forroot = (fill / 16 % 64 == root) & effect.zeroroot;
    fill - (fill & flag_digits(forroot, effect.zerofirm))
}

// Puts an entry's two numbers at place i if it has a flag. Returns the place of the next.
fn put_flagged(log: &mut [u64], i: usize, fill: u64, amount: u64) -> usize
    requires { (length log.old ≡ 1024) × (i < 512) }
    ensures value { result ≡ cond (has_flag fill) (i + 1) i }
    ensures log_after { log.new ≡ cond (has_flag fill) (sets log.old (i * 2) (fill ∷ amount ∷ [])) log.old }
{
    if fill % 4 == 0 {
        return i;
    }
    let at = i * 2;
    log[at] = fill;
    log[at + 1] = amount;
    i + 1
}

// Clears the flags of the log's k entries that an effect for a root clears: the entries that keep a flag stand in their order from the first place on, and
// the places after them hold 0. Returns how many these entries are.
pub(crate) fn unflag_places(log: &mut [u64], k: usize, root: u64, effect: Effect) -> usize
    requires { HeldLog k log.old }
    ensures { Left (unflagged_log (zeroing effect root) (entries_of k log.old)) log.new result }
{
    let mut kept: usize = 0;
    for i in 0..k {
        let at = i * 2;
        let fill = cleared(log[at], root, effect);
        let amount = log[at + 1];
        kept = put_flagged(log, kept, fill, amount);
    }
    let from = kept * 2;
    let end = k * 2;
    blank(&mut log[from..end]);
    kept
}
