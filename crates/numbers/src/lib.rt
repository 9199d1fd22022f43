// Numbers: the lesser and the greater of two, one of two by a test, and a byte as a number.
#![tactic(auto)]

ghost use Rattle.std.specs.Prelude.{◌≡◌, cond, min, max};

// The lesser of two numbers.
pub fn least(a: u64, b: u64) -> u64
    ensures { result ≡ min a b }
{
    if a <= b { a } else { b }
}

// The greater of two numbers.
pub fn greatest(a: u64, b: u64) -> u64
    ensures { result ≡ max a b }
{
    if a <= b { b } else { a }
}

// One of two numbers, by a test.
pub fn pick(test: bool, a: u64, b: u64) -> u64
    ensures { result ≡ cond test a b }
{
    if test { a } else { b }
}

// A byte as a number of 64 bits.
pub fn wide(x: u8) -> u64
    ensures { result ≡ x }
{
    x as u64
}
