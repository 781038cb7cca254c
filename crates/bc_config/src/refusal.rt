ghost use Rattle.std.specs.Prelude.{◌≡◌, true, false, OnOk, IfErr};
ghost use Rattle.bc_config.specs.declared.refusal.LineError.TheVariants.{Fault, NoMemory as NoRoom};

use ptp_base::NoMemory;
use text_io::Reason;

/// Why a text gave no scenario.
#[derive(Clone, Copy, Debug, PartialEq, Eq)]
pub enum Refusal {
    /// The least faulty line, counted from 1, and what is wrong first with it. A text that has no
    /// port is faulty behind its last line.
    Line { line: u32, reason: Reason },
    /// Memory ran out.
    NoMemory,
}

/// Why a line was not taken.
#[derive(Clone, Copy, Debug, PartialEq, Eq)]
pub(crate) enum LineError {
    /// What is wrong first with it.
    Fault(Reason),
    /// Memory ran out.
    NoMemory,
}

impl From<NoMemory> for LineError {
    ghost from_gives = { λ _ e. e ≡ NoRoom };

    fn from(_e: NoMemory) -> LineError {
        LineError::NoMemory
    }
}

/// Refuses a line for a reason, if what would be wrong with it is so.
pub(crate) fn refuse_if(wrong: bool, reason: Reason) -> Result<(), LineError>
    ensures ok { OnOk result (wrong ≡ false) }
    ensures err { IfErr result (λ e. (wrong ≡ true) × (e ≡ Fault reason)) }
{
    if wrong {
        Err(LineError::Fault(reason))
    } else {
        Ok(())
    }
}
