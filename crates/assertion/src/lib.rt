// An assertion as numbers: `variable from right -> to`, a record of four numbers, and the one number in which it is kept
// (specs/Packed.antt). Principals and variables are numbered by order of creation.
#![tactic(auto)]

ghost use Rattle.std.specs.Prelude.{◌≡◌, ◌<◌, ◌^◌};
ghost use Rattle.assertion.specs.Packed.{fields, key, pack, upper};

// The numbers of the rights.
pub const READ: u16 = 0;

pub const WRITE: u16 = 1;

pub const APPEND: u16 = 2;

pub const DELEGATE: u16 = 3;

#[derive(Clone, Copy, Default)]
pub struct Assertion {
    pub variable: u16,
    pub from: u16,
    pub right: u16,
    pub to: u16,
}

// An assertion's four numbers in one.
pub fn pack(variable: usize, from: usize, right: u16, to: usize) -> u64
    requires { (variable < 2 ^ 16) × (from < 2 ^ 16) × (to < 2 ^ 16) }
    ensures { result ≡ pack variable from right to }
{
    variable as u64 * 281474976710656 + right as u64 * 4294967296 + from as u64 * 65536 + to as u64
}

// The record that a packed assertion is.
impl From<u64> for Assertion {
    ghost from_gives = { λ packed r. r ≡ fields packed };

    fn from(packed: u64) -> Assertion {
        Assertion {
            variable: (packed / 281474976710656) as u16,
            from: (packed / 65536 % 65536) as u16,
            right: (packed / 4294967296 % 65536) as u16,
            to: (packed % 65536) as u16,
        }
    }
}

// What all packed assertions for this variable and right have in common.
pub fn key(variable: u16, right: u16) -> u64
    ensures { result ≡ key variable right }
{
    u64::from(variable) * 65536 + u64::from(right)
}

// The key of a packed assertion.
pub fn key_of(packed: u64) -> u64
    ensures { result ≡ upper packed }
{
    packed / 4294967296
}
