//! Ranges of numbers of tokens.

ghost use Rattle.std.specs.Prelude.{◌≡◌, ◌≤◌, ◌<◌, ◌+◌, ◌-◌, ◌/◌};

/// The numbers from one to another, both included.
#[derive(Clone, Copy)]
pub(crate) struct TokenRange {
    pub(crate) first: u32,
    pub(crate) last: u32,
}

/// How many numbers the range has.
pub(crate) fn numbers_in(range: TokenRange) -> usize
    requires { range.first ≤ range.last }
    ensures count { result ≡ range.last - range.first + 1 }
    ensures small { range.last < 4294967296 }
{
    (range.last - range.first) as usize + 1
}

/// How many ranges there can be once numbers were taken out of this one.
pub(crate) fn room_of(range: TokenRange) -> usize
    requires { range.first ≤ range.last }
    ensures room { result ≡ (range.last - range.first) / 2 + 1 }
    ensures small { range.last < 4294967296 }
{
    (range.last - range.first) as usize / 2 + 1
}
