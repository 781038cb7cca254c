ghost use Rattle.std.specs.Prelude.{◌≡◌};

use bc_history::{Entries, Logs, Run};

/// The run of entries and of the clocks' logs, both with the oldest first. Does not allocate.
pub fn assemble(entries: Entries, logs: Logs) -> Run
    ensures { result ≡ record { entries = entries; logs = logs } }
{
    Run { entries, logs }
}
