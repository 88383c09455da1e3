ghost use Rattle.std.specs.Prelude.{◌≡◌, ℕ, ℤ, pos, negsuc, ◌+◌, ◌-◌, ◌*◌, ◌^◌, ◌<◌, ◌≤◌, ◌≤ℤ◌, false, List, ◌++◌, IsTrue, IfOk, IsOkAnd, SomeIff, unsigned_abs, decimal};
ghost use Rattle.std.specs.Fmt.{signed_decimal};
ghost use Rattle.std.specs.Char.{is_ascii_digit};
ghost use Rattle.carol_text.specs.Reading.{Reads, word_at};
ghost use Rattle.carol_text.specs.Number.{starts_with_digit, digits_after, number_at, unsigned_at, below_zero_at, integer_at};

use crate::bad_byte::BadByte;

/// The bytes after `word`, which has to stand at the front.
pub fn expect<'a>(bytes: &'a [u8], word: &[u8]) -> Result<&'a [u8], BadByte>
    ensures found { IfOk result (λ x. bytes.now ≡ word.now ++ x.now) }
    ensures only { (rest : List ℕ) → bytes.now ≡ word.now ++ rest
        → IsOkAnd result (λ x. x.now ≡ rest) }

    // The first byte that differs from the word is bad.
    ensures exact { Reads (λ x. x.now) result (word_at word.now bytes.now) }
{
    after_word(bytes, word)
}

fn after_word<'a>(bytes: &'a [u8], word: &[u8]) -> Result<&'a [u8], BadByte>
    ensures { Reads (λ x. x.now) result (word_at word.now bytes.now) }
{
    for (at, expected) in word.iter().enumerate() {
        if at == bytes.len() {
            return Err(BadByte { left: 0 });
        }
        if bytes[at] != *expected {
            return Err(BadByte {
                left: bytes.len() - at,
            });
        }
    }
    let (_, rest) = bytes.split_at(word.len());
    Ok(rest)
}

/// The number of at most `most` at the front, in decimal without a leading zero, and the bytes
/// after it: after a zero that begins the text, or after the last digit.
pub fn number(bytes: &[u8], most: u64) -> Result<(u64, &[u8]), BadByte>
    ensures found { IfOk result (λ x. (x.0 ≤ most) × (bytes.now ≡ decimal x.0 ++ x.1.now)) }
    ensures only { (n : ℕ) (rest : List ℕ) → n ≤ most → starts_with_digit rest ≡ false
        → bytes.now ≡ decimal n ++ rest → IsOkAnd result (λ x. (x.0 ≡ n) × (x.1.now ≡ rest)) }

    // A first byte that is no digit is bad, and so is the digit with which the number passes
    // `most`.
    ensures exact { Reads (λ x. (x.0, x.1.now)) result (number_at most bytes.now) }
{
    let (value, rest) = wide_number(bytes, u128::from(most))?;
    Ok((value as u64, rest))
}

/// As `number`, for numbers of up to 128 bits.
pub fn wide_number(bytes: &[u8], most: u128) -> Result<(u128, &[u8]), BadByte>
    ensures found { IfOk result (λ x. (x.0 ≤ most) × (bytes.now ≡ decimal x.0 ++ x.1.now)) }
    ensures only { (n : ℕ) (rest : List ℕ) → n ≤ most → starts_with_digit rest ≡ false
        → bytes.now ≡ decimal n ++ rest → IsOkAnd result (λ x. (x.0 ≡ n) × (x.1.now ≡ rest)) }
    ensures exact { Reads (λ x. (x.0, x.1.now)) result (number_at most bytes.now) }
{
    front_number(bytes, most)
}

fn front_number(bytes: &[u8], most: u128) -> Result<(u128, &[u8]), BadByte>
    ensures { Reads (λ x. (x.0, x.1.now)) result (number_at most bytes.now) }
{
    if bytes.is_empty() {
        return Err(BadByte { left: 0 });
    }
    if !bytes[0].is_ascii_digit() {
        return Err(BadByte { left: bytes.len() });
    }
    if bytes[0] == b'0' {
        let (_, rest) = bytes.split_at(1);
        return Ok((0, rest));
    }
    digits(bytes, most)
}

// The number that the digits at the front make.
fn digits(bytes: &[u8], most: u128) -> Result<(u128, &[u8]), BadByte>
    ensures { Reads (λ x. (x.0, x.1.now)) result (digits_after most 0 bytes.now) }
{
    let mut value: u128 = 0;
    for (at, byte) in bytes.iter().enumerate() {
        let (_, rest) = bytes.split_at(at);
        if !byte.is_ascii_digit() {
            return Ok((value, rest));
        }
        value = match with_digit(value, *byte, most) {
            Some(next) => next,
            None => return Err(BadByte { left: rest.len() }),
        };
    }
    Ok((value, &[]))
}

// The number with one more digit at its end, if it is at most `most`.
fn with_digit(value: u128, digit: u8, most: u128) -> Option<u128>
    requires { IsTrue (is_ascii_digit digit) }
    ensures { SomeIff result (10 * value + (digit - 48) ≤ most) (10 * value + (digit - 48)) }
{
    let next = value
        .checked_mul(10)?
        .checked_add(u128::from(digit - b'0'))?;
    if next <= most { Some(next) } else { None }
}

/// The whole number from `lowest` to `highest` at the front, in decimal with a minus directly
/// before a negative one, and the bytes after it.
pub fn integer(bytes: &[u8], lowest: i64, highest: i64) -> Result<(i64, &[u8]), BadByte>
    requires lowest { lowest ≤ℤ pos 0 }
    requires highest { pos 0 ≤ℤ highest }
    ensures found { IfOk result
        (λ x. (lowest ≤ℤ x.0) × (x.0 ≤ℤ highest) × (bytes.now ≡ signed_decimal x.0 ++ x.1.now)) }
    ensures only { (z : ℤ) (rest : List ℕ) → lowest ≤ℤ z → z ≤ℤ highest
        → starts_with_digit rest ≡ false
        → bytes.now ≡ signed_decimal z ++ rest
        → IsOkAnd result (λ x. (x.0 ≡ z) × (x.1.now ≡ rest)) }

    // The zero after a minus is bad, and else what `number` says is.
    ensures exact { Reads (λ x. (x.0, x.1.now)) result
        (integer_at (unsigned_abs lowest) (unsigned_abs highest) bytes.now) }
{
    let (value, rest) = wide_integer(bytes, i128::from(lowest), i128::from(highest))?;
    Ok((value as i64, rest))
}

/// As `integer`, for whole numbers of up to 128 bits.
pub fn wide_integer(bytes: &[u8], lowest: i128, highest: i128) -> Result<(i128, &[u8]), BadByte>
    requires lowest { lowest ≤ℤ pos 0 }
    requires highest { pos 0 ≤ℤ highest }
    ensures found { IfOk result
        (λ x. (lowest ≤ℤ x.0) × (x.0 ≤ℤ highest) × (bytes.now ≡ signed_decimal x.0 ++ x.1.now)) }
    ensures only { (z : ℤ) (rest : List ℕ) → lowest ≤ℤ z → z ≤ℤ highest
        → starts_with_digit rest ≡ false
        → bytes.now ≡ signed_decimal z ++ rest
        → IsOkAnd result (λ x. (x.0 ≡ z) × (x.1.now ≡ rest)) }
    ensures exact { Reads (λ x. (x.0, x.1.now)) result
        (integer_at (unsigned_abs lowest) (unsigned_abs highest) bytes.now) }
{
    front_integer(bytes, lowest.unsigned_abs(), highest.unsigned_abs())
}

fn front_integer(bytes: &[u8], deepest: u128, highest: u128) -> Result<(i128, &[u8]), BadByte>
    requires deepest { deepest ≤ 2 ^ 127 }
    requires highest { highest < 2 ^ 127 }
    ensures { Reads (λ x. (x.0, x.1.now)) result (integer_at deepest highest bytes.now) }
{
    if bytes.is_empty() || bytes[0] != b'-' {
        return not_signed(bytes, highest);
    }
    let (_, size) = bytes.split_at(1);
    below_zero(size, deepest)
}

fn not_signed(bytes: &[u8], highest: u128) -> Result<(i128, &[u8]), BadByte>
    requires { highest < 2 ^ 127 }
    ensures { Reads (λ x. (x.0, x.1.now)) result (unsigned_at highest bytes.now) }
{
    let (size, rest) = wide_number(bytes, highest)?;
    Ok((size as i128, rest))
}

// The number whose minus was read already.
fn below_zero(bytes: &[u8], deepest: u128) -> Result<(i128, &[u8]), BadByte>
    requires { deepest ≤ 2 ^ 127 }
    ensures { Reads (λ x. (x.0, x.1.now)) result (below_zero_at deepest bytes.now) }
{
    let (size, rest) = wide_number(bytes, deepest)?;
    if size == 0 {
        return Err(BadByte { left: bytes.len() });
    }
    Ok((negated(size), rest))
}

fn negated(size: u128) -> i128
    requires positive { 0 < size }
    requires fits { size ≤ 2 ^ 127 }
    ensures { result ≡ negsuc (size - 1) }
{
    -1 - (size - 1) as i128
}
