//! Lines, fields and numbers of a text.

ghost use Rattle.std.specs.Prelude.{◌≡◌, ◌≢◌, ◌<◌, ◌+◌, ℕ, ◌∷◌, [], length, slice_index, MatchOption, IfSome, ◌==◌};
ghost use Rattle.std.specs.Prelude.{◌≤◌};
ghost use Rattle.text_readings.specs.Readings.{lines_of};
ghost use Rattle.std.specs.Str.{bytes_eq};
ghost use Rattle.std.specs.Str.Parse.{starts_with_minus};
ghost use Rattle.text_readings.specs.PointLines.{after_minus};
ghost use Rattle.text_readings.specs.Scanning.{far, digits, number, fields_of};

// More than any number that has a place in a file.
const FAR: u64 = 1 << 40;

// The first place of the byte.
fn find_byte(bytes: &[u8], wanted: u8) -> Option<usize>
    ensures found { MatchOption result ((k : ℕ) → k < length bytes.now → slice_index bytes.now k ≢ wanted)
        (λ i. (i < length bytes.now) × (slice_index bytes.now i ≡ wanted)) }
    ensures before { MatchOption result (⊥ → ⊥) (λ i. (k : ℕ) → k < i → slice_index bytes.now k ≢ wanted) }
{
    for (i, b) in bytes.iter().enumerate() {
        if *b == wanted {
            return Some(i);
        }
    }
    None
}

/// Is the line this word?
pub fn reads(line: &[u8], word: &[u8]) -> bool
    ensures { result ≡ bytes_eq line.now word.now }
{
    line == word
}

/// The first line, without its line feed, and what follows it; none where no byte is left.
pub fn first_line(bytes: &[u8]) -> Option<(&[u8], &[u8])>
    ensures lines { MatchOption result (lines_of bytes.now ≡ [])
        (λ x. lines_of bytes.now ≡ x.0.now ∷ lines_of x.1.now) }
    ensures shorter { MatchOption result (⊥ → ⊥) (λ x. length x.1.now < length bytes.now) }
{
    if bytes.is_empty() {
        return None;
    }
    match find_byte(bytes, b'\n') {
        Some(end) => Some((&bytes[..end], &bytes[end + 1..])),
        None => Some((bytes, &bytes[bytes.len()..])),
    }
}

/// The first field of a line, up to its first space, and what follows the space.
pub fn first_field(line: &[u8]) -> (&[u8], Option<&[u8]>)
    ensures { MatchOption result.1 (fields_of line.now ≡ result.0.now ∷ [])
        (λ rest. fields_of line.now ≡ result.0.now ∷ fields_of rest.now) }
{
    match find_byte(line, b' ') {
        Some(end) => (&line[..end], Some(&line[end + 1..])),
        None => (line, None),
    }
}

// The value of digits, or `FAR` where it is more.
fn digits_of(text: &[u8]) -> Option<u64>
    ensures value { result ≡ digits text.now }
    ensures bound { IfSome result (λ n. n ≤ far) }
{
    if text.is_empty() {
        return None;
    }
    let mut value = 0;
    for b in text {
        if !b.is_ascii_digit() {
            return None;
        }
        value = (value * 10 + u64::from(*b - b'0')).min(FAR);
    }
    Some(value)
}

// Has the number a minus, and what follows it?
fn sign_of(text: &[u8]) -> (bool, &[u8])
    ensures minus { result.0 ≡ starts_with_minus text.now }
    ensures rest { result.1.now ≡ after_minus text.now }
{
    if !text.is_empty() && text[0] == b'-' {
        (true, &text[1..])
    } else {
        (false, text)
    }
}

/// The value of a number: an optional `-` and one or more digits, leading zeros among them. A value above 2^40, or
/// below 0, is given as 2^40. None where the text is no number.
pub fn number_of(text: &[u8]) -> Option<u64>
    ensures value { result ≡ number text.now }
    ensures bound { IfSome result (λ n. n ≤ far) }
{
    let (is_negative, digits) = sign_of(text);
    let value = digits_of(digits)?;
    Some(if is_negative && value > 0 { FAR } else { value })
}
