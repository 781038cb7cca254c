ghost use Rattle.std.specs.Prelude.{◌≡◌, Some};
ghost use Rattle.transcript.specs.WordReaders.{with_digit, natural_of, number_of, negated, positive, integer_of, signed_of, scaled_of};

/// One digit more.
fn with_digit(so_far: Option<u128>, octet: u8) -> Option<u128>
    ensures { result ≡ with_digit so_far octet }
{
    let value = so_far?;
    if !octet.is_ascii_digit() {
        return None;
    }
    value.checked_mul(10)?.checked_add(u128::from(octet - b'0'))
}

/// The number that decimal digits stand for.
fn natural(word: &[u8]) -> Option<u128>
    ensures { result ≡ natural_of word.now }
{
    word.iter()
        .fold(Some(0), |so_far, octet| with_digit(so_far, *octet))
}

/// A number of 8 bits.
pub fn number8(word: &[u8]) -> Option<u8>
    ensures { result ≡ number_of 8 word.now }
{
    u8::try_from(natural(word)?).ok()
}

/// A number of 16 bits.
pub fn number16(word: &[u8]) -> Option<u16>
    ensures { result ≡ number_of 16 word.now }
{
    u16::try_from(natural(word)?).ok()
}

/// A number of 32 bits.
pub fn number32(word: &[u8]) -> Option<u32>
    ensures { result ≡ number_of 32 word.now }
{
    u32::try_from(natural(word)?).ok()
}

/// A number of 64 bits.
pub fn number64(word: &[u8]) -> Option<u64>
    ensures { result ≡ number_of 64 word.now }
{
    u64::try_from(natural(word)?).ok()
}

/// A number behind a minus sign.
fn negated(magnitude: u128) -> Option<i128>
    ensures { result ≡ negated (Some magnitude) }
{
    let below = i128::try_from(magnitude.checked_sub(1)?).ok()?;
    Some(-1 - below)
}

/// A number with no sign.
fn positive(magnitude: u128) -> Option<i128>
    ensures { result ≡ positive (Some magnitude) }
{
    i128::try_from(magnitude).ok()
}

/// A signed number of 128 bits.
pub fn signed128(word: &[u8]) -> Option<i128>
    ensures { result ≡ integer_of word.now }
{
    if word.starts_with(b"-") {
        negated(natural(&word[1..])?)
    } else {
        positive(natural(word)?)
    }
}

/// A signed number of 64 bits.
pub fn signed64(word: &[u8]) -> Option<i64>
    ensures { result ≡ signed_of 63 word.now }
{
    i64::try_from(signed128(word)?).ok()
}

/// A whole number of ppb, as ppb times 65,536.
pub fn scaled(word: &[u8]) -> Option<i64>
    ensures { result ≡ scaled_of word.now }
{
    signed64(word)?.checked_mul(65536)
}
