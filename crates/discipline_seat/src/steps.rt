ghost use Rattle.std.specs.Prelude.{◌≡◌, ℕ};

use crate::view::{Setup, View};
use atomic_table::{Join, Play, Seat, Split, Table, TableRule};
use ptp_profile::LogEntry;
use std::alloc::Global;
use std::marker::{Brand, PhantomData};

/// The rule of the seats: what holds of the table between any two steps.
pub struct Law;

impl TableRule<LogEntry, View, Setup> for Law {
    ghost use Rattle.discipline_seat.specs.Rule.SeatRule.{SeatRule};
    ghost use Rattle.discipline_seat.specs.Rule.SeatView.{view_at_opening};

    ghost holds = { λ k. SeatRule k.rows k.clocks k.openings.items };

    ghost first = { λ k. view_at_opening k.clocks k.ports k.openings.items };
}

/// What a look puts at the end of a story, by the clock and its log. Each call picks it.
pub trait Answer {
    ghost use Rattle.std.specs.Prelude.{ℕ};
    ghost use Rattle.discipline_seat.specs.Rule.SeatLog.{SeatLog};
    ghost use Rattle.discipline_seat.specs.Rule.Story.{Story};

    // The most rows that the table has for a clock.
    ghost rows: { ℕ };

    // What the look says of a clock and its log.
    ghost says: { ℕ → SeatLog → Story };
}

impl Answer for Brand {
    ghost use Rattle.std.specs.Prelude.{[]};

    ghost rows = { 0 };

    ghost says = { λ _ _. [] };
}

/// A look at a seat word.
pub struct Look<A: Answer> {
    answer: PhantomData<A>,
}

impl<A: Answer> Play<LogEntry, View> for Look<A> {
    ghost use Rattle.discipline_seat.specs.Rule.SeatStep.{look_tells};

    ghost then = { look_tells A.rows A.says };
}

/// An exchange: it makes a change where the word is the one that was expected, and is else a look.
pub struct Adjust;

impl Play<LogEntry, View> for Adjust {
    ghost use Rattle.discipline_seat.specs.Rule.SeatStep.{exchange_tells};

    ghost then = { exchange_tells };
}

/// An addition that makes an order. Nobody else makes any, so it is never tried again.
pub struct Appoint;

impl Play<LogEntry, View> for Appoint {
    ghost use Rattle.discipline_seat.specs.Rule.SeatStep.{order_tells};

    ghost then = { order_tells };
}

/// A word of the row behind what was seen is stored.
pub struct Write;

impl Play<LogEntry, View> for Write {
    ghost use Rattle.discipline_seat.specs.Rule.SeatStep.{store_tells};

    ghost then = { store_tells };
}

/// What a word of a row is. Each call picks it.
pub trait Wanted {
    ghost use Rattle.std.specs.Prelude.{ℕ};

    ghost word: { ℕ };
}

impl Wanted for Brand {
    ghost word = { 0 };
}

/// A word of a row is loaded.
pub struct Fetch<W: Wanted> {
    wanted: PhantomData<W>,
}

impl<W: Wanted> Play<LogEntry, View> for Fetch<W> {
    ghost use Rattle.discipline_seat.specs.Rule.SeatStep.{load_tells};

    ghost then = { load_tells W.word };
}

/// A look after a join: it tells that what the two had seen is of one log and one story.
pub struct Tell;

impl Play<LogEntry, View> for Tell {
    ghost use Rattle.discipline_seat.specs.Rule.SeatStep.{join_tells};

    ghost then = { join_tells };
}

/// A note of what a seat knows, which nobody owns.
pub struct Note;

impl Split<View> for Note {
    ghost use Rattle.discipline_seat.specs.Rule.SeatView.{note_of};

    ghost left = { λ v. v };

    ghost right = { note_of };
}

/// The hub's seat takes in a note of a pass.
pub struct Hear;

impl Join<View> for Hear {
    ghost use Rattle.discipline_seat.specs.Rule.SeatView.{after_hearing, spent_view};

    ghost both = { after_hearing };

    ghost spent = { spent_view };
}

/// A pass takes in a note of the hub's seat.
pub struct Learn;

impl Join<View> for Learn {
    ghost use Rattle.discipline_seat.specs.Rule.SeatView.{after_learning, spent_view};

    ghost both = { after_learning };

    ghost spent = { spent_view };
}

/// The hub's seat makes a pass.
pub struct Deal;

impl Split<View> for Deal {
    ghost use Rattle.discipline_seat.specs.Rule.SeatView.{after_split, new_pass_view};

    ghost left = { after_split };

    ghost right = { new_pass_view };
}

/// A pass is taken in for good.
pub struct Gather;

impl Join<View> for Gather {
    ghost use Rattle.discipline_seat.specs.Rule.SeatView.{after_closing, spent_view};

    ghost both = { after_closing };

    ghost spent = { spent_view };
}

/// What is put at the end of a story. Each call picks it.
pub trait Said {
    ghost use Rattle.std.specs.Prelude.{ℕ, List};

    ghost page: { List ℕ };
}

impl Said for Brand {
    ghost use Rattle.std.specs.Prelude.{[]};

    ghost page = { [] };
}

/// A note of a pass whose story grows by a page.
pub struct Put<P: Said> {
    page: PhantomData<P>,
}

impl<P: Said> Split<View> for Put<P> {
    ghost use Rattle.discipline_seat.specs.Rule.SeatView.{note_of, with_page};

    ghost left = { λ v. with_page v P.page };

    ghost right = { λ v. note_of (with_page v P.page) };
}

pub type Words = Table<LogEntry, View, Setup, Law, Global>;

pub type Place = Seat<LogEntry, View>;
