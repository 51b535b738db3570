//! Numbers of 32 bits. No memory is taken for them: exactly a number past 32 bits is told as want
//! of memory.
ghost use Rattle.std.specs.Prelude.{◌≡◌, ◌+◌, ◌≤◌, ◌^◌, IfErr, IfOk};

use std::alloc::AllocError;

/// The number in 32 bits.
#[inline(always)]
pub fn number_of(number: usize) -> Result<u32, AllocError>
    ensures value { IfOk result (λ it. it ≡ number) }
    ensures past { IfErr result (λ _. 2 ^ 32 ≤ number) }
{
    match u32::try_from(number) {
        Ok(it) => Ok(it),
        Err(_) => Err(AllocError),
    }
}

/// The number that is so many after the first one, in 32 bits.
#[inline(always)]
pub fn number_after(first: usize, count: usize) -> Result<u32, AllocError>
    ensures value { IfOk result (λ it. it ≡ first + count) }
    ensures past { IfErr result (λ _. 2 ^ 32 ≤ first + count) }
{
    match first.checked_add(count) {
        Some(number) => number_of(number),
        None => Err(AllocError),
    }
}
