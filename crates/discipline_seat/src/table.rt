ghost use Rattle.std.specs.Prelude.{◌≡◌, ◌+◌, ◌*◌, ◌<◌, ◌≤◌, All, length};
ghost use Rattle.ptp_base.specs.declared.limits.TheConstants.{CLOCKS_MAX};
ghost use Rattle.model_clock.specs.Clock.{IsClock};

use crate::steps::Words;
use model_clock::ClockState;

/// The clocks of a run, each with its log, for threads that share them. A clock has one word,
/// which shows the stamp in force and the length of the log and changes in single steps, and a
/// row of three words for each change that its log may have. Who steps holds a seat: the hub one,
/// and each port and each clock's follower one, which is its pass. Contracts see the number of
/// rows and the clocks' openings.
#[derive(Drop)]
pub struct Seats {
    pub(crate) table: Words,
    pub(crate) rows: u32,
    pub(crate) openings: Vec<ClockState>,
    ghost no_slots: { table.shared.table_id.slots ≡ 0 },
    ghost sized: { table.shared.table_id.words
        ≡ table.shared.key.clocks + table.shared.key.clocks * rows * 3 },
    ghost counted: { length openings.items ≡ table.shared.key.clocks },
    ghost openings_are: { table.shared.key.openings.items ≡ openings.items },
    ghost some_clock: { 0 < table.shared.key.clocks },
    ghost few_clocks: { table.shared.key.clocks ≤ CLOCKS_MAX },
    ghost few_rows: { rows < 262144 },
    ghost rows_are: { rows ≡ table.shared.key.rows },
    ghost clocks_are: { All IsClock openings.items },
}
