ghost use Rattle.std.specs.Prelude.{◌≡◌, Some, pos, negsuc, nat_abs, nat_eq, ◌*ℤ◌};
ghost use Rattle.bc_history.specs.Scenario.OptionTable.{row_of, is_in_range, with_option, with_port_option, with_clock_option};
ghost use Rattle.bc_config.specs.OptionRanges.{HasRange, IsInRowRange, IsInRange};

use bc_history::{Form, Options, Scope};
use model_clock::ClockState;
use ptp_base::{DELAYS_MAX, PortConf, ROWS_MAX, TICK_MAX, TIME_MAX};
use std::marker::Model;

/// The nanoseconds of a second.
const SECOND: i128 = 1_000_000_000;

/// The greatest EUI-64 as a number.
const IDENTITY_MAX: i128 = u64::MAX as i128;

/// What the table of options says of one.
#[derive(Drop)]
pub struct OptionRow {
    /// What it is an option of.
    pub scope: Scope,
    /// Its name in a text.
    pub name: &'static [u8],
    /// How its value is written.
    pub form: Form,
    /// The least value, in ns, ppb or as the option counts.
    pub least: i128,
    /// The greatest value.
    pub most: i128,
    /// The value where a text names none.
    pub default: i128,
}

impl Model for OptionRow {
    ghost use Rattle.bc_history.specs.Scenario.OptionTable.{Row};

    ghost Value = { Row };

    ghost view = { λ r. record {
      scope = r.scope;
      name = r.name.now;
      form = r.form;
      least = r.least;
      most = r.most;
      default = r.default;
    } };
}

/// A row, with the least and the greatest value.
fn row(
    scope: Scope,
    name: &'static [u8],
    form: Form,
    range: (i128, i128),
    default: i128,
) -> OptionRow
    ensures { result ≡ record {
      scope = scope;
      name = name.now;
      form = form;
      least = range.0;
      most = range.1;
      default = default;
    } }
{
    let (least, most) = range;
    OptionRow {
        scope,
        name,
        form,
        least,
        most,
        default,
    }
}

impl OptionRow {
    /// Whether a value is in the range of the option.
    pub fn has(&self, value: i128) -> bool
        ensures { result ≡ is_in_range self.now value }
    {
        self.least <= value && value <= self.most
    }

    /// The row, with the field of its option set to the value, where it is in range.
    fn set_u8(self, field: &mut u8, value: i128) -> Option<OptionRow>
        requires { HasRange (pos 0) (pos 255) self }
        ensures row { result ≡ Some self }
        ensures field { IsInRowRange self value → field.new ≡ nat_abs value }
    {
        if self.has(value) {
            *field = value as u8;
        }
        Some(self)
    }

    /// The row, with the field of its option set to the value, where it is in range.
    fn set_u16(self, field: &mut u16, value: i128) -> Option<OptionRow>
        requires { HasRange (pos 0) (pos 65535) self }
        ensures row { result ≡ Some self }
        ensures field { IsInRowRange self value → field.new ≡ nat_abs value }
    {
        if self.has(value) {
            *field = value as u16;
        }
        Some(self)
    }

    /// The row, with the field of its option set to the value, where it is in range.
    fn set_u32(self, field: &mut u32, value: i128) -> Option<OptionRow>
        requires { HasRange (pos 0) (pos 4294967295) self }
        ensures row { result ≡ Some self }
        ensures field { IsInRowRange self value → field.new ≡ nat_abs value }
    {
        if self.has(value) {
            *field = value as u32;
        }
        Some(self)
    }

    /// The row, with the field of its option set to the value, where it is in range.
    fn set_u64(self, field: &mut u64, value: i128) -> Option<OptionRow>
        requires { HasRange (pos 0) (pos 18446744073709551615) self }
        ensures row { result ≡ Some self }
        ensures field { IsInRowRange self value → field.new ≡ nat_abs value }
    {
        if self.has(value) {
            *field = value as u64;
        }
        Some(self)
    }

    /// The row, with the field of its option set to the value, where it is in range.
    fn set_i8(self, field: &mut i8, value: i128) -> Option<OptionRow>
        requires { HasRange (negsuc 127) (pos 127) self }
        ensures row { result ≡ Some self }
        ensures field { IsInRowRange self value → field.new ≡ value }
    {
        if self.has(value) {
            *field = value as i8;
        }
        Some(self)
    }

    /// The row, with the field of its option set to the value, where it is in range.
    fn set_i16(self, field: &mut i16, value: i128) -> Option<OptionRow>
        requires { HasRange (negsuc 32767) (pos 32767) self }
        ensures row { result ≡ Some self }
        ensures field { IsInRowRange self value → field.new ≡ value }
    {
        if self.has(value) {
            *field = value as i16;
        }
        Some(self)
    }

    /// The row, with the field of its option set to the value, where it is in range.
    fn set_i64(self, field: &mut i64, value: i128) -> Option<OptionRow>
        requires { HasRange (negsuc 9223372036854775807) (pos 9223372036854775807) self }
        ensures row { result ≡ Some self }
        ensures field { IsInRowRange self value → field.new ≡ value }
    {
        if self.has(value) {
            *field = value as i64;
        }
        Some(self)
    }

    /// The row, with the field of its option set to whether the value is 1, where it is in range.
    fn set_flag(self, field: &mut bool, value: i128) -> Option<OptionRow>
        requires { HasRange (pos 0) (pos 1) self }
        ensures row { result ≡ Some self }
        ensures field { IsInRowRange self value → field.new ≡ nat_eq (nat_abs value) 1 }
    {
        if self.has(value) {
            *field = value == 1;
        }
        Some(self)
    }

    /// The row, with the field of its option set to 65,536 times the value, where it is in range.
    fn set_drift(self, field: &mut i64, value: i128) -> Option<OptionRow>
        requires { HasRange (negsuc 9999999) (pos 10000000) self }
        ensures row { result ≡ Some self }
        ensures field { IsInRowRange self value → field.new ≡ value *ℤ pos 65536 }
    {
        if self.has(value) {
            *field = (value * 65536) as i64;
        }
        Some(self)
    }
}

/// What options set: the options of the whole, those of a port and those of a clock.
#[derive(Clone, Copy)]
pub(crate) struct Settings {
    /// What the options of the whole set.
    pub(crate) options: Options,
    /// What the options of a port set.
    pub(crate) port: PortConf,
    /// What the options of a clock set.
    pub(crate) clock: ClockState,
}

/// The row of an option by its number, and the option's field set to the value, where it is in the
/// row's range. This is the table of options.
#[rattlefmt::skip]
fn table(
    o: &mut Options,
    p: &mut PortConf,
    c: &mut ClockState,
    number: usize,
    value: i128,
) -> Option<OptionRow>
    ensures row { result ≡ row_of number }
    ensures options { IsInRange number value → o.new ≡ with_option number value o.old }
    ensures port { IsInRange number value → p.new ≡ with_port_option number value p.old }
    ensures clock { IsInRange number value → c.new ≡ with_clock_option number value c.old }
{
    use Form::{Decimal, Hex, Identity, Seconds, Signed};
    use Scope::{Clock, Global, Port};
    match number {
        0 => row(Global, b"clockIdentity", Identity, (0, IDENTITY_MAX), 0x0200_00ff_fe00_0001)
            .set_u64(&mut o.clock_identity.id, value),
        1 => row(Global, b"domainNumber", Decimal, (0, 127), 0).set_u8(&mut o.domain_number, value),
        2 => row(Global, b"priority1", Decimal, (0, 255), 128).set_u8(&mut o.priority1, value),
        3 => row(Global, b"priority2", Decimal, (0, 255), 128).set_u8(&mut o.priority2, value),
        4 => row(Global, b"clockClass", Decimal, (0, 255), 248).set_u8(&mut o.clock_class, value),
        5 => row(Global, b"clockAccuracy", Hex(2), (0, 255), 0xFE)
            .set_u8(&mut o.clock_accuracy, value),
        6 => row(Global, b"offsetScaledLogVariance", Hex(4), (0, 65_535), 0xFFFF)
            .set_u16(&mut o.offset_scaled_log_variance, value),
        7 => row(Global, b"utc_offset", Decimal, (0, 32_767), 37).set_i16(&mut o.utc_offset, value),
        8 => row(Global, b"time_flags", Decimal, (0, 63), 8).set_u8(&mut o.time_flags, value),
        9 => row(Global, b"timeSource", Hex(2), (0, 255), 0xA0).set_u8(&mut o.time_source, value),
        10 => row(Global, b"boundary_clock_jbod", Decimal, (0, 1), 0)
            .set_flag(&mut o.boundary_clock_jbod, value),
        11 => row(Global, b"max_frequency", Decimal, (1, 900_000_000), 900_000_000)
            .set_u32(&mut o.max_frequency, value),
        12 => row(Global, b"step_threshold", Seconds, (0, 1_000_000_000_000_000), 0)
            .set_u64(&mut o.step_threshold, value),
        13 => row(Global, b"first_step_threshold", Seconds, (0, 1_000_000_000_000_000), 20_000)
            .set_u64(&mut o.first_step_threshold, value),
        14 => row(Global, b"servo_kp", Decimal, (0, 10_000), 700).set_u32(&mut o.servo_kp, value),
        15 => row(Global, b"servo_ki", Decimal, (0, 10_000), 300).set_u32(&mut o.servo_ki, value),
        16 => row(Global, b"delay_filter_length", Decimal, (1, DELAYS_MAX as i128), 10)
            .set_u8(&mut o.delay_filter_length, value),
        17 => row(Global, b"duration", Seconds, (0, TICK_MAX as i128), 20 * SECOND)
            .set_u64(&mut o.duration, value),
        18 => row(Global, b"window", Seconds, (1_000_000, 1_000 * SECOND), 125_000_000)
            .set_u64(&mut o.window, value),
        19 => row(Global, b"follow_interval", Seconds, (10_000_000, 1_000 * SECOND), SECOND)
            .set_u64(&mut o.follow_interval, value),
        20 => row(Global, b"subscribe_duration", Seconds, (0, TICK_MAX as i128), 180 * SECOND)
            .set_u64(&mut o.subscribe_duration, value),
        21 => row(Global, b"subscribe_renew", Seconds, (0, TICK_MAX as i128), 60 * SECOND)
            .set_u64(&mut o.subscribe_renew, value),
        22 => row(Global, b"seat_rows", Decimal, (1, ROWS_MAX as i128), 65_536)
            .set_u32(&mut o.seat_rows, value),
        23 => row(Port, b"logAnnounceInterval", Signed, (-7, 10), 1)
            .set_i8(&mut p.log_announce, value),
        24 => row(Port, b"logSyncInterval", Signed, (-7, 10), 0).set_i8(&mut p.log_sync, value),
        25 => row(Port, b"logMinDelayReqInterval", Signed, (-7, 10), 0)
            .set_i8(&mut p.log_delay, value),
        26 => row(Port, b"announceReceiptTimeout", Decimal, (2, 255), 3)
            .set_u8(&mut p.receipt, value),
        27 => row(Clock, b"time", Decimal, (0, TIME_MAX as i128), 0).set_i64(&mut c.time, value),
        28 => row(Clock, b"drift", Signed, (-10_000_000, 10_000_000), 0)
            .set_drift(&mut c.drift, value),
        _ => None,
    }
}

impl Settings {
    /// The row of an option by its number, and the option set to the value, where it is in the
    /// row's range.
    pub(crate) fn set(&mut self, number: usize, value: i128) -> Option<OptionRow>
        ensures row { result ≡ row_of number }
        ensures options { IsInRange number value →
            self.new.options ≡ with_option number value self.old.options }
        ensures port { IsInRange number value →
            self.new.port ≡ with_port_option number value self.old.port }
        ensures clock { IsInRange number value →
            self.new.clock ≡ with_clock_option number value self.old.clock }
    {
        table(
            &mut self.options,
            &mut self.port,
            &mut self.clock,
            number,
            value,
        )
    }
}
