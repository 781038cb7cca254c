//! The text of scenario 1 against what an independent script makes of the same rules.

use crate::text;
use std::test::Fail;

/// How the text begins, by the script.
const FRONT: &[u8] = b"[global]
boundary_clock_jbod 1
duration 640
[clock 0]
time 0
drift -2266
[clock 1]
time 0
drift 3383
[clock 2]
time 0
drift -7512
";

/// Its records from 2.1 s to 3.5 s, by the script.
const RECORDS: &[u8] = b"
2100000000 1 0b12004000000008000000000000000000000000000a00fffe000100000100010501000000000000000000000025007f06214e5d80000a00fffe000100000020
2300000000 1 0012002c00000000000000000000000000000000000a00fffe0001000001000000000000000003ea11e19dd6
3300000000 1 0012002c00000000000000000000000000000000000a00fffe0001000001000100000000000003eb11e19dd6
3500000000 1 0912003600000000000000000000000000000000000a00fffe0001000001000003000000000003eb05f5e62a020000fffe0000010001
";

/// Its last record, by the script.
const BACK: &[u8] = b"
639300000000 32 0012002c00000000000000000000000000000000000a00fffe00011f00010011000000000000066711e19e6b
";

/// How many octets and lines it has, by the script.
const LENGTH: usize = 171_336;

const LINES: usize = 1492;

#[test]
fn the_first_scenario_is_made(rt: HostRuntime) -> Result<(), Fail> {
    let made = text(rt.alloc(), 1)?;
    let made = made.items();
    assert_eq!(rt; made.len(), LENGTH);
    assert_eq!(rt; made.iter().filter(|octet| **octet == b'\n').count(), LINES);
    assert!(rt; made.starts_with(FRONT));
    assert!(rt; made.windows(RECORDS.len()).any(|piece| piece == RECORDS));
    assert!(rt; made.ends_with(BACK));
    Ok(())
}
