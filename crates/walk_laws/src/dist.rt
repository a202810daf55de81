//! Distances of label rows, in little room.
ghost use Rattle.std.specs.Prelude.{◌≡◌, ◌^◌, ◌<◌, ◌≤◌, IfSome, IfNone};

use std::marker::Model;

/// A distance below 2^96, in twelve bytes, so that an [`Entry`](crate::Entry) takes sixteen. The lengths of shortest walks are
/// below 2^94. Contracts see the number.
#[derive(Clone, Copy, Debug, PartialEq, Eq)]
pub struct Dist {
    low: u32,
    middle: u32,
    high: u32,
}

impl Model for Dist {
    ghost use Rattle.std.specs.Prelude.{ℕ, ◌+◌, ◌*◌, ◌^◌, ◌/◌, ◌%◌, ◌<◌};

    ghost Value = { ℕ };

    ghost view = { λ d. d.low + d.middle * 2 ^ 32 + d.high * 2 ^ 64 };

    ghost invariant = { λ d. (d.low < 2 ^ 32) × (d.middle < 2 ^ 32) × (d.high < 2 ^ 32) };

    ghost inverse = { λ d. record { low = d % 2 ^ 32; middle = d / 2 ^ 32 % 2 ^ 32; high = d / 2 ^ 64 } };
}

impl Dist {
    /// The distance of this number.
    #[inline(always)]
    pub fn of(dist: u128) -> Dist
        requires { dist < 2 ^ 96 }
        ensures { result ≡ dist }
    {
        Dist {
            low: (dist % 4_294_967_296) as u32,
            middle: (dist / 4_294_967_296 % 4_294_967_296) as u32,
            high: (dist / 18_446_744_073_709_551_616) as u32,
        }
    }

    /// The distance of this number, which is below 2^64.
    #[inline(always)]
    pub fn of_u64(dist: u64) -> Dist
        ensures { result ≡ dist }
    {
        Dist {
            low: (dist % 4_294_967_296) as u32,
            middle: (dist / 4_294_967_296) as u32,
            high: 0,
        }
    }

    /// The number.
    #[inline(always)]
    pub fn get(self) -> u128
        ensures value { result ≡ self }
        ensures fits { result < 2 ^ 96 }
    {
        u128::from(self.low)
            + u128::from(self.middle) * 4_294_967_296
            + u128::from(self.high) * 18_446_744_073_709_551_616
    }

    /// The number, of a distance below 2^64.
    #[inline(always)]
    pub fn get_u64(self) -> u64
        requires { self < 2 ^ 64 }
        ensures { result ≡ self }
    {
        u64::from(self.low) + u64::from(self.middle) * 4_294_967_296
    }

    /// The number where it is below 2^64; else None.
    #[inline(always)]
    pub fn to_u64(self) -> Option<u64>
        ensures some { IfSome result (λ dist. dist ≡ self) }
        ensures none { IfNone result (2 ^ 64 ≤ self) }
    {
        if self.high > 0 {
            return None;
        }
        Some(u64::from(self.low) + u64::from(self.middle) * 4_294_967_296)
    }

    /// The number where it is below 2^32; else None.
    #[inline(always)]
    pub fn to_u32(self) -> Option<u32>
        ensures some { IfSome result (λ dist. dist ≡ self) }
        ensures none { IfNone result (2 ^ 32 ≤ self) }
    {
        if self.high > 0 || self.middle > 0 {
            return None;
        }
        Some(self.low)
    }
}
