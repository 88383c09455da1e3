ghost use Rattle.std.specs.Prelude.{◌≡◌, ◌+◌, ◌<◌, ◌≤◌, length, IfSome, MatchOption};
ghost use Rattle.carol_audit.specs.Lines.{IsFirstFalseLine, next_number, parting};

/// The number, from 1, of the first line in which the text differs from the right one; a line that
/// one of them lacks differs, and so does a last one that lacks its line feed. None exactly where
/// the texts are equal.
pub fn first_false_line(right: &[u8], text: &[u8]) -> Option<u32>
    requires { length text.now < 4_294_967_295 }
    ensures tells { MatchOption result (right.now ≡ text.now)
        (IsFirstFalseLine right.now text.now) }
    ensures within { IfSome result (λ number. number ≤ 1 + length text.now) }
{
    parting_line(right, text)
}

// The number of the line in which the texts part.
fn parting_line(right: &[u8], text: &[u8]) -> Option<u32>
    requires { length text.now < 4_294_967_295 }
    ensures found { result ≡ parting 1 right.now text.now }
    ensures within { IfSome result (λ number. number ≤ 1 + length text.now) }
{
    let mut number = 1;
    let (mut one, mut other) = (right, text);
    while let Some((byte, more)) = one.split_first() {
        match other.split_first() {
            Some((same, rest)) if same == byte => other = rest,
            _ => return Some(number),
        }
        number = next_number(number, *byte);
        one = more;
    }
    if other.is_empty() { None } else { Some(number) }
}

// The number of the line that the byte behind this one stands in.
fn next_number(number: u32, byte: u8) -> u32
    requires { number < 4_294_967_295 }
    ensures { result ≡ next_number number byte }
{
    if byte == b'\n' { number + 1 } else { number }
}
