ghost use Rattle.std.specs.Prelude.{◌≡◌};
ghost use Rattle.bc_history.specs.Run.World.{Ended, Finished, status_after};
ghost use Rattle.run_legal.specs.Runs.LegalRuns.{IsLegal, IsOpen, IsWindowed};
ghost use Rattle.run_legal.specs.Runs.LegalExamples.{steers, steered, unread, out_of_turn, unordered, misread, oversteered, misreported, foreseen, unnamed, unfinished, never_steps, changed_before, two_hear, forgotten, follows, followed, followed_to_the_end, untold, backwards};

/// A port that hears a master and steps its clock: the World's run is legal and windowed.
pub fn steers_legally()
    ensures ends { status_after steers 12 ≡ Ended (Finished steered) }
    ensures legal { IsLegal steers steered }
    ensures windowed { IsWindowed steers steered }
{}

/// Two clocks, the second of which has a follower that samples: the World's run is legal. Without the
/// turn of the first clock's follower it is open.
pub fn follows_legally()
    ensures is_open { IsOpen follows followed }
    ensures ends { status_after follows 17 ≡ Ended (Finished followed_to_the_end) }
    ensures legal { IsLegal follows followed_to_the_end }
{}

/// Runs in each of which one thing is wrong, so that they are not open: a frame without a reading,
/// which follows nothing besides; an input out of turn; an order that the log lacks; a wrong
/// reading; a wrong action; a change that the log lacks; and numbers of one actor that do not rise,
/// a follower that knew less than its turn, a reading that knew less than the entries before it, an
/// order that was known before it was made.
pub fn each_item_is_judged()
    ensures formed { ¬ (IsOpen steers unread) }
    ensures history { ¬ (IsOpen steers out_of_turn) }
    ensures lawful { ¬ (IsOpen steers unordered) }
    ensures readings { ¬ (IsOpen steers misread) }
    ensures actions { ¬ (IsOpen steers oversteered) }
    ensures outcomes { ¬ (IsOpen steers misreported) }
    ensures rising { ¬ (IsOpen never_steps changed_before) }
    ensures told { ¬ (IsOpen follows untold) }
    ensures read { ¬ (IsOpen two_hear forgotten) }
    ensures ordered { ¬ (IsOpen steers foreseen) }
{}

/// Runs that are not legal: a change is named by no outcome, or an input is due.
pub fn nothing_is_left_out()
    ensures named { ¬ (IsLegal steers unnamed) }
    ensures finished { ¬ (IsLegal steers unfinished) }
{}

/// Entries whose windows fall.
pub fn windows_are_judged()
    ensures { ¬ (IsWindowed steers backwards) }
{}
