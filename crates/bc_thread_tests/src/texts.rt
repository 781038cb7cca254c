//! The scenarios of the tests, and what they ask of entries.
use bc_config::scenario;
use bc_history::{Input, Scenario};
use std::alloc::Global;
use std::test::Fail;

/// Two ports that hear nothing become masters at 6 s.
pub const SILENT: &str = "[global]\nduration 6\n[port 1]\n[port 2]\n[records]\n";

/// What a master tells port 1 that is 50,000 ns ahead and 1,000 ns away: four Announces, four Syncs, and
/// the answer to the first Delay_Req.
pub const RECORDS: &str = "[records]
1000000000 1 0b12004000000008000000000000000000000000000a00fffe000001000100000501000000000000000000000025008006214e5d80000a00fffe000001000020
3000000000 1 0b12004000000008000000000000000000000000000a00fffe000001000100010501000000000000000000000025008006214e5d80000a00fffe000001000020
3500000000 1 0012002c00000000000000000000000000000000000a00fffe0000010001000000000000000000031dce2468
4100000000 1 0912003600000000000000000000000000000000000a00fffe0000010001000003000000000000040000c738020000fffe0000010001
4500000000 1 0012002c00000000000000000000000000000000000a00fffe0000010001000100000000000000041dce2468
5000000000 1 0b12004000000008000000000000000000000000000a00fffe000001000100020501000000000000000000000025008006214e5d80000a00fffe000001000020
5500000000 1 0012002c00000000000000000000000000000000000a00fffe0000010001000200000000000000051dce2468
6500000000 1 0012002c00000000000000000000000000000000000a00fffe0000010001000300000000000000061dce2468
7000000000 1 0b12004000000008000000000000000000000000000a00fffe000001000100030501000000000000000000000025008006214e5d80000a00fffe000001000020
";

/// The scenario that a text stands for.
pub fn scenario_of(alloc: Global, text: &str) -> Result<Scenario, Fail> {
    let octets = text.as_bytes();
    if octets.len() >= 4_294_967_295 {
        return Err(Fail::new("too long"));
    }
    match scenario(alloc, octets) {
        Ok(s) => Ok(s),
        Err(_) => Err(Fail::new("no scenario")),
    }
}

/// Whose entry it is, 0 where it is no port's, and its tick in ns of the scenario.
pub fn port_and_tick(input: &Input) -> (u16, u64) {
    match input {
        Input::Frame { port, tick, .. }
        | Input::Timed { port, tick, .. }
        | Input::Down { port, tick }
        | Input::Up { port, tick }
        | Input::Report { port, tick, .. } => (*port, *tick),
        Input::Turn { tick, .. } | Input::Sampled { tick, .. } | Input::Query { tick, .. } => {
            (0, *tick)
        }
    }
}
