//! What a value is in its unit, exactly.

ghost use Rattle.std.specs.Prelude.{◌≡◌, ◌≤◌, ◌<◌, ◌^◌, ◌-ℤ◌, ◌+ℤ◌, ◌*ℤ◌, ◌<ℤ◌, true, pos, neg_ℤ, unsigned_abs, Some, None, IfOk, IfErr, if◌then◌else◌};
ghost use Rattle.std.specs.Int.{IsGcd};
ghost use Rattle.field_values.specs.representation.Limits.{FitsExtents};
ghost use Rattle.field_values.specs.Physical.{IsPhysical, are_of_items, no_physical};

/// A least and a greatest value.
#[derive(Clone, Copy, Debug, PartialEq, Eq)]
pub struct Extents {
    pub min: i64,
    pub max: i64,
}

/// A value in its unit: `numerator` / `denominator` times ten to the power of `exponent` (HID 1.11, 6.2.2.7).
///
/// The fraction is in its lowest terms, and its denominator is positive.
#[derive(Clone, Copy, Debug, PartialEq, Eq)]
pub struct Physical {
    /// Above the line, with its sign.
    pub numerator: i128,
    /// Below the line, at least 1.
    pub denominator: i128,
    /// The power of ten, the unit exponent.
    pub exponent: i64,
}

/// Why a value has no physical one.
#[derive(Clone, Copy, Debug, PartialEq, Eq)]
pub enum NoPhysical {
    /// The Logical Minimum is the Logical Maximum.
    EqualLimits,
    /// The Logical Minimum is over the Logical Maximum.
    InvertedLimits,
    /// A physical extent is over 2 ^ 32 or under -2 ^ 32; those that items declare are not.
    LargeExtents,
}

/// The physical value of a logical one: the line through the logical and the physical extents, also past their ends.
///
/// The errors: `EqualLimits` where the logical extents are equal, `InvertedLimits` where the minimum is over the maximum,
/// and then `LargeExtents` where a physical extent is over 2 ^ 32 or under -2 ^ 32; those of a descriptor are not.
pub fn physical_value(
    logical: Extents,
    physical: Extents,
    exponent: i64,
    value: i64,
) -> Result<Physical, NoPhysical>
    ensures taken { IfOk result (λ _. no_physical logical physical ≡ None) }
    ensures refused { IfErr result (λ e. no_physical logical physical ≡ Some e) }
    ensures exact { IfOk result (λ p. IsPhysical logical physical value p.numerator p.denominator) }
    ensures exponent { IfOk result (λ p. p.exponent ≡ exponent) }
{
    if logical.min == logical.max {
        return Err(NoPhysical::EqualLimits);
    }
    if logical.min > logical.max {
        return Err(NoPhysical::InvertedLimits);
    }
    if !are_of_items(physical) {
        return Err(NoPhysical::LargeExtents);
    }
    let numerator = on_line(logical, physical, value);
    Ok(reduced(numerator, logical.max.abs_diff(logical.min), exponent))
}

/// Whether extents are at most so far from 0 as those that items declare may be.
fn are_of_items(extents: Extents) -> bool
    ensures same { result ≡ are_of_items extents }
    ensures fits { result ≡ true → FitsExtents extents }
{
    extents.min.unsigned_abs() <= MOST && extents.max.unsigned_abs() <= MOST
}

/// More than how far from 0 a number of 32 bits is, signed or not.
const MOST: u64 = 1 << 32;

/// The physical value times the logical span.
fn on_line(logical: Extents, physical: Extents, value: i64) -> i128
    requires { FitsExtents physical }
    ensures line { result ≡ physical.min *ℤ (logical.max -ℤ logical.min) +ℤ (value -ℤ logical.min) *ℤ (physical.max -ℤ physical.min) }
    ensures few { unsigned_abs result ≤ 2 ^ 99 }
{
    let least = product(difference(logical.max, logical.min), physical.min);
    let above = product(difference(value, logical.min), physical.max - physical.min);
    least + above
}

/// How much one number is over another one.
fn difference(a: i64, b: i64) -> i128
    ensures difference { result ≡ a -ℤ b }
    ensures few { unsigned_abs result ≤ 2 ^ 64 }
{
    a as i128 - b as i128
}

/// A product that 128 bits hold.
fn product(a: i128, b: i64) -> i128
    requires a { unsigned_abs a ≤ 2 ^ 64 }
    requires b { unsigned_abs b ≤ 2 ^ 33 }
    ensures product { result ≡ b *ℤ a }
    ensures few { unsigned_abs result ≤ 2 ^ 97 }
{
    a * b as i128
}

/// A fraction over a positive number, in its lowest terms.
fn reduced(numerator: i128, denominator: u64, exponent: i64) -> Physical
    requires some { 0 < denominator }
    requires few { unsigned_abs numerator ≤ 2 ^ 99 }
    ensures same { result.numerator *ℤ pos denominator ≡ numerator *ℤ result.denominator }
    ensures positive { pos 0 <ℤ result.denominator }
    ensures lowest { IsGcd (unsigned_abs result.numerator) (unsigned_abs result.denominator) 1 }
    ensures exponent { result.exponent ≡ exponent }
{
    let above = numerator.unsigned_abs();
    let below = denominator as u128;
    let divisor = common_divisor(above, below);
    Physical {
        numerator: with_sign(numerator < 0, above / divisor),
        denominator: (below / divisor) as i128,
        exponent,
    }
}

/// A number with its sign.
fn with_sign(is_negative: bool, number: u128) -> i128
    requires { number ≤ 2 ^ 99 }
    ensures { result ≡ (if is_negative then neg_ℤ (pos number) else pos number) }
{
    if is_negative {
        0 - number as i128
    } else {
        number as i128
    }
}

/// The greatest number that divides both.
fn common_divisor(a: u128, b: u128) -> u128
    ensures { IsGcd a b result }
{
    let mut x = a;
    let mut y = b;
    while y != 0 {
        let rest = x % y;
        x = y;
        y = rest;
    }
    x
}
