// The locks in lent memory, four numbers: how they change, and what they tell.
#![tactic(auto)]

ghost use Rattle.std.specs.Prelude.{◌≡◌, ◌<◌};
ghost use Rattle.machine.specs.Effects.{lifting};
ghost use Rattle.machine.specs.Locks.{verdict_of, lifted, tripped_by, locked_out};
ghost use Rattle.machine.specs.Order.{level_named};
ghost use Rattle.machine.specs.Remaining.{standing as standing_by};
ghost use Rattle.state.specs.State.{locks_numbers};
ghost use Rattle.locks.specs.Inner.Locks.{locks_in, AreLocks, tripping};

use bits::Standing;
use machine::Effect;

// The firm's marks, 1 if it is tripped and if the user locked it out; then the words of tripped roots and of roots that the user locked out.
const FIRM_TRIPPED: usize = 0;

const FIRM_BY_USER: usize = 1;

const TRIPPED: usize = 2;

const BY_USER: usize = 3;

// The verdict on an order for a root: 1 if the firm is locked, else 2 if the root is, else 0.
pub fn verdict(locks: &[u64], root: u64) -> u64
    requires { AreLocks locks.now × (root < 64) }
    ensures { result ≡ verdict_of (locks_in locks.now) root }
{
    if (locks[FIRM_TRIPPED] == 1) | (locks[FIRM_BY_USER] == 1) {
        return 1;
    }
    if bits::marked(locks[TRIPPED], root) | bits::marked(locks[BY_USER], root) {
        return 2;
    }
    0
}

// How the roots stand.
pub fn standing(locks: &[u64]) -> Standing
    requires { AreLocks locks.now }
    ensures { result ≡ standing_by (locks_in locks.now) }
{
    bits::locked_roots(locks[TRIPPED], locks[BY_USER])
}

// The user locks a level out: 0 a root, else the firm.
pub fn lock(locks: &mut [u64], level: u64, root: u64)
    requires { AreLocks locks.old × (root < 64) }
    ensures { locks.new ≡ locks_numbers (locked_out (level_named level root) (locks_in locks.old)) }
{
    if level == 0 {
        locks[BY_USER] = bits::mark(locks[BY_USER], root);
        return;
    }
    locks[FIRM_BY_USER] = 1;
}

// The effect of an order for a root takes away the marks that it lifts.
pub fn lift(locks: &mut [u64], root: u64, effect: Effect)
    requires { AreLocks locks.old × (root < 64) }
    ensures { locks.new ≡ locks_numbers (lifted (lifting effect root) root (locks_in locks.old)) }
{
    if effect.liftfirm {
        locks[FIRM_TRIPPED] = 0;
        locks[FIRM_BY_USER] = 0;
    }
    if effect.liftroot {
        locks[TRIPPED] = bits::unmark(locks[TRIPPED], root);
        locks[BY_USER] = bits::unmark(locks[BY_USER], root);
    }
}

// A root trips, and the firm trips, where the tests say so.
pub fn trip(locks: &mut [u64], root: u64, roottrips: bool, firmtrips: bool)
    requires { AreLocks locks.old × (root < 64) }
    ensures { locks.new ≡ locks_numbers (tripped_by (tripping roottrips firmtrips) root (locks_in locks.old)) }
{
    if firmtrips {
        locks[FIRM_TRIPPED] = 1;
    }
    if roottrips {
        locks[TRIPPED] = bits::mark(locks[TRIPPED], root);
    }
}
