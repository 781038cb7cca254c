ghost use Rattle.std.specs.Prelude.{◌≡◌, ℕ, List};
ghost use Rattle.bc_history.specs.declared.entry.Run.{Run};
ghost use Rattle.bc_history.specs.Run.FormedRuns.{IsFormedRun};
ghost use Rattle.bc_history.specs.Run.Transcript.{text_of};
ghost use Rattle.transcript.specs.TypedRuns.{IsTypedRun};
ghost use Rattle.transcript.specs.TranscriptFaults.{IsTextOf, IsFirstFault};

/// A text shows one run whole at most.
pub fn texts_are_of_one_run()
    ensures { (text : List ℕ) (run other : Run) → IsTextOf text run → IsTextOf text other →
        run ≡ other }
{}

/// The text of a run that it shows whole has no fault: reading it refuses no line.
pub fn runs_are_read()
    ensures { (run : Run) (line : ℕ) → IsFormedRun run → IsTypedRun run →
        ¬ (IsFirstFault (text_of run) line) }
{}

/// A text has one first fault at most.
pub fn faults_are_one()
    ensures { (text : List ℕ) (line other : ℕ) → IsFirstFault text line →
        IsFirstFault text other → line ≡ other }
{}
