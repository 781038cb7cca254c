ghost use Rattle.std.specs.Prelude.{◌≡◌, ℕ, ◌+◌, ◌-◌, ◌*◌, ◌^◌, ◌<◌, ◌≤◌, pos, negsuc, ◌≤ℤ◌, ◌<ℤ◌, ◌+ℤ◌, ◌*ℤ◌, ◌-ℤ◌};
ghost use Rattle.ptp_base.specs.Floor.{IsWithin, floor_of, ns_of, interval_of};

/// Nanoseconds times 65,536 (the TimeInterval of IEEE 1588-2019, 5.3.2, in a wider integer).
pub type Scaled = i128;

/// The last moment of a clock in ns: one less than 2^33 seconds.
pub const TIME_MAX: i64 = 8_589_934_591_999_999_999;

/// The last tick of a scenario, in ns: 100,000 seconds.
pub const TICK_MAX: u64 = 100_000_000_000_000;

/// The greatest magnitude of a frequency: 900,000,000 ppb, times 65,536.
pub const FREQ_MAX: i64 = 58_982_400_000_000;

/// The greatest whole number that times `b` is at most `a`: division that rounds towards minus
/// infinity.
pub fn floor_div(a: i128, b: i128) -> i128
    requires { pos 0 <ℤ b }
    ensures { result ≡ floor_of a b }
{
    a.div_euclid(b)
}

/// The floor of a scaled number in ns, held within `-TIME_MAX` and `TIME_MAX`.
pub fn to_ns(s: Scaled) -> i64
    ensures { result ≡ ns_of s }
{
    let ns = floor_div(s, 65536);
    if ns > TIME_MAX as i128 {
        TIME_MAX
    } else if ns < -(TIME_MAX as i128) {
        -TIME_MAX
    } else {
        ns as i64
    }
}

/// The time from one moment to another, both in ns: from -2^80 to 2^80.
pub fn time_between(from: i64, to: i64) -> Scaled
    ensures exact { result ≡ (to -ℤ from) *ℤ pos 65536 }
    ensures within { IsWithin (pos (2 ^ 80)) result }
{
    (i128::from(to) - i128::from(from)) * 65536
}

/// The interval of a logarithm in ns: 10^9 times 2 to the power `log`, from 7,812,500 to
/// 1,024,000,000,000 (IEEE 1588-2019, 7.7.2.1).
pub fn interval(log: i8) -> u64
    requires low { negsuc 6 ≤ℤ log }
    requires high { log ≤ℤ pos 10 }
    ensures { result ≡ interval_of log }
{
    if log >= 0 {
        1_000_000_000 << (log as u32)
    } else {
        1_000_000_000 >> ((-log) as u32)
    }
}
