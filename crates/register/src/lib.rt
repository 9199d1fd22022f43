// The register of orders sent away: its orders in their places, in the order of their sending.
#![tactic(auto)]

ghost use Rattle.std.specs.Prelude.{◌≡◌, true, not, [], ◌∷◌, ◌++◌, map, ◌≤◌, ◌<◌, length};
ghost use Rattle.laws.specs.Folds.{keep};
ghost use Rattle.machine.specs.Register.{has_identity, used_up, kept_places, is_sent, are_different};
ghost use Rattle.register.specs.Register.{register_numbers, register_in, register_holds, RegisterHeld, place_of_identity, sent_at_place};

mod places;
mod tests;
mod words;

use machine::Sent;

// How many orders the register has room for, and how many numbers its table takes: a count, then two for each place.
pub const PLACES: usize = 64;

pub const SIZE: usize = 1 + 2 * PLACES;

// The most that an identity is, and the most reports that an order asks for.
pub const IDENTITY_MOST: u64 = words::IDENTITY_MOST;

pub const REPORTS_MOST: u64 = words::REPORTS_MOST;

// Each function takes the numbers that C lends under one named fact, RegisterHeld, as docs/DECISIONS.md promises it.

// Whether the register's table holds as many orders as it says, with so many roots, no two of one identity, and 0 in the places not used.
pub fn is_register(register: &[u64], roots: u64) -> bool
    requires { length register.now ≡ 129 }
    ensures { result ≡ register_holds roots register.now }
{
    let k = register[0] as usize;
    if PLACES < k {
        return false;
    }
    tests::are_orders(register, k, roots) & tests::are_different(register, k)
}

// The place of the order of an identity, or how many orders there are if none has it.
pub fn find(register: &[u64], identity: u64) -> usize
    requires { RegisterHeld register.now }
    ensures { result ≡ place_of_identity (register_in register.now) identity }
{
    let k = register[0] as usize;
    places::place_from(register, k, 0, identity)
}

// The order at place i.
pub fn sent_in(register: &[u64], i: usize) -> Sent
    requires { RegisterHeld register.now × (i < length (register_in register.now)) }
    ensures { result ≡ sent_at_place (register_in register.now) i }
{
    let at = 1 + i * 2;
    words::sent_of(register[at], register[at + 1])
}

// The places of the log that the register keeps: as many as reports are still allowed.
pub fn kept(register: &[u64]) -> u64
    requires { RegisterHeld register.now }
    ensures { result ≡ kept_places (register_in register.now) }
{
    let k = register[0] as usize;
    let mut sum: u64 = 0;
    for i in 0..k {
        sum += words::reports_of(register[1 + i * 2]);
    }
    sum
}

// An order goes to the first free place.
pub fn enter(register: &mut [u64], sent: Sent)
    requires { RegisterHeld register.old × (length (register_in register.old) < 64) × (is_sent 64 sent ≡ true) }
    ensures { register.new ≡ register_numbers (register_in register.old ++ (sent ∷ [])) }
{
    let k = register[0];
    let at = 1 + k as usize * 2;
    register[at] = words::sent_word(sent);
    register[at + 1] = words::open_word(sent);
    register[0] = k + 1;
}

// A report of so many contracts of the order at place i: so many fewer are open, and one report fewer is allowed.
pub fn use_up(register: &mut [u64], i: usize, contracts: u64)
    requires { RegisterHeld register.old × (are_different (register_in register.old) ≡ true) × (i < length (register_in register.old)) × (contracts ≤ (sent_at_place (register_in register.old) i).contracts.0) × (0 < (sent_at_place (register_in register.old) i).reports) }
    ensures { register.new ≡ register_numbers (map (used_up (sent_at_place (register_in register.old) i).identity contracts) (register_in register.old)) }
{
    let at = 1 + i * 2;
    register[at] -= 1;
    register[at + 1] -= contracts;
}

// The order at place i leaves: those after it move up, and the place that becomes free holds 0.
pub fn close(register: &mut [u64], i: usize)
    requires { RegisterHeld register.old × (are_different (register_in register.old) ≡ true) × (i < length (register_in register.old)) }
    ensures { register.new ≡ register_numbers (keep (λ sent. not (has_identity (sent_at_place (register_in register.old) i).identity sent)) (register_in register.old)) }
{
    let k = register[0];
    let at = 1 + i * 2;
    let end = 1 + k as usize * 2;
    places::move_up(&mut register[at..end]);
    register[0] = k - 1;
}
