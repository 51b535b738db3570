//! Numbers between bounds.
ghost use Rattle.std.specs.Prelude.{◌≡◌, ℤ, ◌+ℤ◌, ◌≤ℤ◌, ◌↔◌, IsTrue, IfOk, Contains, Some};
ghost use Rattle.ba_classes.specs.Image.{IsLeastUnused, IsGreatestUnused, IsValueBetween, greater_of, lesser_of};

use std::alloc::AllocError;

// Whether the number is among those that are used.
fn is_used(used: &[i128], number: i128) -> bool
    ensures { IsTrue result ↔ Contains used.now number }
{
    used.contains(&number)
}

/// The sum of two numbers. `AllocError` where it is past 128 bits.
pub fn sum(left: i128, right: i128) -> Result<i128, AllocError>
    ensures { IfOk result (λ it. it ≡ left +ℤ right) }
{
    left.checked_add(right).ok_or(AllocError)
}

/// The difference of two numbers. `AllocError` where it is past 128 bits.
pub fn difference(left: i128, right: i128) -> Result<i128, AllocError>
    ensures { IfOk result (λ it. it +ℤ right ≡ left) }
{
    left.checked_sub(right).ok_or(AllocError)
}

/// The greater of a bound, if there is one, and a number.
pub fn greater(bound: Option<i128>, number: i128) -> Option<i128>
    ensures { result ≡ Some (greater_of bound number) }
{
    match bound {
        None => Some(number),
        Some(other) => Some(other.max(number)),
    }
}

/// The lesser of a bound, if there is one, and a number.
pub fn lesser(bound: Option<i128>, number: i128) -> Option<i128>
    ensures { result ≡ Some (lesser_of bound number) }
{
    match bound {
        None => Some(number),
        Some(other) => Some(other.min(number)),
    }
}

// The least unused number from `low` on. `AllocError` where it is past 128 bits.
fn least_unused(used: &[i128], low: i128) -> Result<i128, AllocError>
    ensures { IfOk result (IsLeastUnused used.now low) }
{
    let mut number = low;
    while is_used(used, number) {
        number = sum(number, 1)?;
    }
    Ok(number)
}

// The greatest unused number up to `high`. `AllocError` where it is past 128 bits.
fn greatest_unused(used: &[i128], high: i128) -> Result<i128, AllocError>
    ensures { IfOk result (IsGreatestUnused used.now high) }
{
    let mut number = high;
    while is_used(used, number) {
        number = difference(number, 1)?;
    }
    Ok(number)
}

/// The value of a node between its bounds, where there are any.
pub fn value_between(
    used: &[i128],
    low: Option<i128>,
    high: Option<i128>,
) -> Result<i128, AllocError>
    ensures { IfOk result (IsValueBetween used.now low high) }
{
    match (low, high) {
        (None, None) => least_unused(used, 0),
        (Some(low), None) => least_unused(used, low),
        (None, Some(high)) => greatest_unused(used, high),
        (Some(low), Some(high)) => {
            let number = least_unused(used, low)?;
            Ok(if number <= high { number } else { low })
        }
    }
}
