//! The numbers that a scenario is made of.

ghost use Rattle.std.specs.Prelude.{◌≡◌};
ghost use Rattle.bc_gen.specs.MadeNumbers.{following, drawn_from, drift_from, delay_from};

/// By what a number is multiplied for the next one.
pub const MULTIPLIER: u64 = 6_364_136_223_846_793_005;

/// What is added for the next number.
pub const INCREMENT: u64 = 1_442_695_040_888_963_407;

/// The upper bits of a number are those from this one on.
const UPPER: u32 = 48;

/// How many drifts there are.
const DRIFTS: u64 = 20_001;

/// The greatest of them, in ppb.
const DRIFT_MAX: i64 = 10_000;

/// How many delays there are.
const DELAYS: u64 = 1000;

/// The least of them, in ns.
const DELAY_MIN: u64 = 500;

/// The number behind `x`, modulo 2^64. Does not allocate.
pub fn following(x: u64) -> u64
    ensures { result ≡ following x }
{
    x.wrapping_mul(MULTIPLIER).wrapping_add(INCREMENT)
}

/// The upper 16 bits of a number.
fn drawn_from(x: u64) -> u64
    ensures { result ≡ drawn_from x }
{
    x >> UPPER
}

/// The drift that a number gives, from -10,000 to 10,000 ppb. Does not allocate.
pub fn drift(x: u64) -> i64
    ensures { result ≡ drift_from (drawn_from x) }
{
    (drawn_from(x) % DRIFTS) as i64 - DRIFT_MAX
}

/// The delay that a number gives, from 500 to 1,499 ns. Does not allocate.
pub fn delay(x: u64) -> u64
    ensures { result ≡ delay_from (drawn_from x) }
{
    DELAY_MIN + drawn_from(x) % DELAYS
}
