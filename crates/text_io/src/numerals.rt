ghost use Rattle.std.specs.Prelude.{◌≡◌, ◌≤◌, ◌<◌, ◌^◌, length, IfSome};
ghost use Rattle.std.specs.List.{position};
ghost use Rattle.text_io.specs.Numerals.{numeral_of, number_of, signed_of, hex_of, whole_of, fraction_of, is_point, seconds_of, identity_of};

/// 1 to `most` digits of a radix, and nothing else.
fn numeral(word: &[u8], radix: u32, most: usize) -> Option<u128>
    requires least { 2 ≤ radix }
    requires greatest { radix ≤ 36 }
    requires room { radix ^ most ≤ 2 ^ 128 }
    ensures value { result ≡ numeral_of radix most word.now }
    ensures bound { IfSome result (λ n. n < radix ^ length word.now) }
    ensures short { IfSome result (λ _. length word.now ≤ most) }
{
    if word.is_empty() || word.len() > most {
        return None;
    }
    let mut value = 0;
    for octet in word {
        let digit = char::from(*octet).to_digit(radix)?;
        value = value * u128::from(radix) + u128::from(digit);
    }
    Some(value)
}

/// A number: 1 to 20 decimal digits, leading zeros allowed.
pub fn number(word: &[u8]) -> Option<u128>
    ensures value { result ≡ number_of word.now }
    ensures bound { IfSome result (λ n. n < 10 ^ 20) }
{
    numeral(word, 10, 20)
}

/// A number, or a number behind a minus sign.
pub fn signed(word: &[u8]) -> Option<i128>
    ensures { result ≡ signed_of word.now }
{
    if word.starts_with(b"-") {
        number(&word[1..]).map(|n| -(n as i128))
    } else {
        number(word).map(|n| n as i128)
    }
}

/// `0x`, and 1 to `most` hex digits of either case, where `most` is at most 16.
pub fn hex_number(word: &[u8], most: usize) -> Option<u64>
    requires { most ≤ 16 }
    ensures { result ≡ hex_of most word.now }
{
    if word.starts_with(b"0x") {
        let n = numeral(&word[2..], 16, most)?;
        Some(n as u64)
    } else {
        None
    }
}

/// The digits behind the point of seconds, 1 to 9 of them, in ns.
fn fraction(digits: &[u8]) -> Option<u128>
    ensures value { result ≡ fraction_of digits.now }
    ensures bound { IfSome result (λ n. n < 10 ^ 9) }
{
    let n = numeral(digits, 10, 9)?;
    Some(n * 10u128.pow(9 - digits.len() as u32))
}

/// Whole seconds in ns.
fn whole(word: &[u8]) -> Option<u128>
    ensures value { result ≡ whole_of word.now }
    ensures bound { IfSome result (λ n. n < 10 ^ 29) }
{
    Some(number(word)? * 1_000_000_000)
}

/// Where the first point of a word stands.
fn point(word: &[u8]) -> Option<usize>
    ensures value { result ≡ position is_point word.now }
    ensures bound { IfSome result (λ k. k < length word.now) }
{
    word.iter().position(|octet| *octet == b'.')
}

/// Seconds in ns: a number, or a number, a point and 1 to 9 digits.
pub fn seconds(word: &[u8]) -> Option<u128>
    ensures value { result ≡ seconds_of word.now }
    ensures bound { IfSome result (λ n. n < 2 ^ 127) }
{
    match point(word) {
        None => whole(word),
        Some(k) => Some(whole(&word[..k])? + fraction(&word[k + 1..])?),
    }
}

/// A clock's identity: six, four and six hex digits of either case, with points between.
pub fn identity(word: &[u8]) -> Option<u64>
    ensures { result ≡ identity_of word.now }
{
    if word.len() != 18 || word[6] != b'.' || word[11] != b'.' {
        return None;
    }
    let a = numeral(&word[..6], 16, 6)?;
    let b = numeral(&word[7..11], 16, 4)?;
    let c = numeral(&word[12..], 16, 6)?;
    Some((a * 1_099_511_627_776 + b * 16_777_216 + c) as u64)
}
