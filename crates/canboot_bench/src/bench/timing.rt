//! Figures from times.

use std::rt::Clock;
use std::time::Instant;

/// How often in a second what came so often in this time.
pub fn rate_of(count: u64, nanos: u64) -> u64 {
    let rate = u128::from(count).saturating_mul(1_000_000_000) / u128::from(nanos.max(1));
    u64::try_from(rate).unwrap_or(u64::MAX)
}

/// The median; 0 where there is none.
pub fn median(values: &mut [u64]) -> u64 {
    values.sort_unstable();
    values.get(values.len() / 2).copied().unwrap_or(0)
}

/// Nanoseconds since then. `None` where the clock fails, or had failed.
pub fn nanos_since<R: Clock>(rt: &R, from: Option<Instant>) -> Option<u64> {
    let time = from?.elapsed(rt).ok()?;
    u64::try_from(time.as_nanos()).ok()
}
