ghost use Rattle.std.specs.Prelude.{◌≡◌};
ghost use Rattle.seat_word.specs.PackedWord.{IsWord};

use crate::*;
use ptp_base::GENERATION_MAX;

#[test]
fn a_word_has_its_fields_from_the_top(rt: HostRuntime) {
    let word = Word {
        gener: 3,
        ctrl: 129,
        number: 5,
        row: 4,
    };
    assert_eq!(rt; pack(word), 0x0000_e040_0028_0004);
    assert_eq!(rt; unpack(0x0000_e040_0028_0004), word);
}

#[test]
fn the_least_and_the_greatest_word(rt: HostRuntime) {
    let least = Word {
        gener: 0,
        ctrl: 0,
        number: 0,
        row: 0,
    };
    assert_eq!(rt; pack(least), 0);
    assert_eq!(rt; unpack(0), least);
    let greatest = Word {
        gener: GENERATION_MAX,
        ctrl: 255,
        number: NUMBER_MAX,
        row: NUMBER_MAX,
    };
    assert_eq!(rt; pack(greatest), 0xffff_ffff_ffff_ffff);
    assert_eq!(rt; unpack(0xffff_ffff_ffff_ffff), greatest);
}
