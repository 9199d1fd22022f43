// The tests of the parts of memory beside its rules and totals.
ghost use Rattle.std.specs.Prelude.{◌≡◌, ◌≤◌, length, ltb};
ghost use Rattle.rules.specs.Valid.{has_rate};
ghost use Rattle.given.specs.Parts.{rules_of};
ghost use Rattle.state.specs.State.{size};
ghost use Rattle.state.specs.Inner.Tests.{rules_part, front_holds, locks_hold, parts_hold};

// Whether the mark, the clock, the firm and the roots are sound.
pub(crate) fn is_front(m: &[u64]) -> bool
    requires { size ≤ length m.now }
    ensures { result ≡ front_holds m.now }
{
    (m[crate::MARK] == 1)
        & measures::is_in(m[crate::CLOCK], 0, measures::Time::MOST)
        & given::roots::is_name_number(m[crate::FIRM], 1, 4)
        & given::roots::are_roots(&m[crate::ROOTS..crate::RULES])
}

// Whether the locks are sound with so many roots: marks are 0 or 1, and no bit stands for a root beyond the last.
fn are_locks(locks: &[u64], roots: u64) -> bool
    requires { length locks.now ≡ 4 }
    ensures { result ≡ locks_hold roots locks.now }
{
    measures::is_in(locks[0], 0, 1)
        & measures::is_in(locks[1], 0, 1)
        & bits::within(locks[2], roots)
        & bits::within(locks[3], roots)
}

// Whether the locks, the log and the register are sound, with the roots and the clock of the front; there is a rate rule where the longest window is not 0.
pub(crate) fn are_parts(m: &[u64], longest: u64) -> bool
    requires { (size ≤ length m.now) × (ltb 0 longest ≡ has_rate (rules_of (rules_part m.now))) }
    ensures { result ≡ parts_hold m.now }
{
    let roots = m[crate::ROOTS];
    let entries = m[crate::LOG];
    are_locks(&m[crate::LOCKS..crate::REGISTER], roots)
        & ((0 < longest) | (entries == 0))
        & daylog::is_log(&m[crate::LOG..crate::SIZE], roots, m[crate::CLOCK])
        & register::is_register(&m[crate::REGISTER..crate::LOG], roots)
}
