ghost use Rattle.std.specs.Prelude.{◌≡◌};
ghost use Rattle.seat_word.specs.PackedWord.{IsWord, packed};

/// The greatest number of an entry that a word has room for.
pub const NUMBER_MAX: u32 = 524_287;

/// What a seat shows of a clock: the stamp in force, how many entries its log has, and which of them
/// changed it last.
#[derive(Clone, Copy, Debug, PartialEq, Eq)]
pub struct Word {
    /// The generation of the last order, at most `GENERATION_MAX`; 0 before the first.
    pub gener: u32,
    /// The controller of the last order; 0 for nobody.
    pub ctrl: u8,
    /// How many entries the log has, at most `NUMBER_MAX`.
    pub number: u32,
    /// The number of the last change, at most `NUMBER_MAX`; 0 before the first.
    pub row: u32,
}

/// A word as one number: from its highest bit on 18 bits of the generation, 8 of the controller, 19 of
/// the number and 19 of the row. Each fits its bits. Does not allocate.
pub fn pack(w: Word) -> u64
    requires fits { IsWord w }
    ensures { result ≡ packed w }
{
    let stamp = u64::from(w.gener) * 256 + u64::from(w.ctrl);
    (stamp * 524_288 + u64::from(w.number)) * 524_288 + u64::from(w.row)
}

/// The word that a number is. Each number is one word, and each word is one number. Does not allocate.
pub fn unpack(w: u64) -> Word
    ensures fits { IsWord result }
    ensures packed { packed result ≡ w }
    ensures only { (word : Word) → IsWord word → packed word ≡ w → result ≡ word }
{
    Word {
        gener: (w >> 46) as u32,
        ctrl: ((w >> 38) & 255) as u8,
        number: ((w >> 19) & 524_287) as u32,
        row: (w & 524_287) as u32,
    }
}
