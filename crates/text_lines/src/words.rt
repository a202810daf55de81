ghost use Rattle.std.specs.Prelude.{◌≡◌, ◌+◌, ◌*◌, ◌^◌, ◌<◌, ◌≤◌, ℕ, min, true, false, Some, List, [], ◌∷◌, ◌++◌, length, take, drop, slice_index, IsTrue, IfSome, IfNone};
ghost use Rattle.std.specs.Char.{is_ascii_digit};
ghost use Rattle.text_lines.specs.Words.{is_blank, word_if_any, words_after, words_of, is_skipped, number_of_word, IsFirstNumber};

/// The first word of a line and what is after it; None where the line has no word.
pub fn first_word(line: &[u8]) -> Option<(&[u8], &[u8])>
    ensures found { IfSome result (λ r. words_of line.now ≡ r.0.now ∷ words_of r.1.now) }
    ensures some { IfSome result (λ r. 0 < length r.0.now) }
    ensures none { IfNone result (words_of line.now ≡ []) }
{
    let rest = skip_blanks(line);
    if rest.is_empty() {
        return None;
    }
    Some(rest.split_at(word_len(rest)))
}

/// The number that the first word of a line is, as `number` tells it, and what is after that word; None where the line has
/// no word.
pub fn first_number(line: &[u8]) -> Option<(Option<u128>, &[u8])>
    ensures found { IfSome result (λ r. IsFirstNumber (words_of line.now) r.0 (words_of r.1.now)) }
    ensures none { IfNone result (words_of line.now ≡ []) }
{
    let rest = skip_blanks(line);
    let (value, len) = leading_digits(rest);
    if len > 0 && ends_word(rest, len) {
        return Some((Some(u128::from(value)), &rest[len..]));
    }
    let (word, after) = first_word(rest)?;
    Some((number(word), after))
}

/// Whether a line is blank or a comment.
pub fn is_skipped_line(line: &[u8]) -> bool
    ensures { result ≡ is_skipped (words_of line.now) }
{
    let rest = skip_blanks(line);
    rest.is_empty() || rest[0] == b'c'
}

/// Whether the word with which a line begins ends before a place, as far as the byte there tells.
fn ends_word(line: &[u8], place: usize) -> bool
    requires { place ≤ length line.now }
    ensures { IsTrue result → place < length line.now → is_blank (slice_index line.now place) ≡ true }
{
    place == line.len() || is_blank_byte(line[place])
}

/// The digits with which a line begins, 19 of them at most: the number that they are, and how many they are.
fn leading_digits(line: &[u8]) -> (u64, usize)
    ensures within { result.1 ≤ length line.now }
    ensures words { words_after (take result.1 line.now) (drop result.1 line.now) ≡ words_of line.now }
    ensures number { 0 < result.1 → number_of_word (take result.1 line.now) ≡ Some result.0 }
{
    let end = line.len().min(19);
    let mut value = 0u64;
    let mut len = 0;
    while len < end && is_digit_byte(line[len]) {
        value = value * 10 + u64::from(line[len] - b'0');
        len += 1;
    }
    (value, len)
}

fn is_digit_byte(byte: u8) -> bool
    ensures { result ≡ is_ascii_digit byte }
{
    b'0' <= byte && byte <= b'9'
}

/// A number with one digit more, or 2^64 where that is greater.
fn with_digit(value: u128, digit: u8) -> u128
    requires { digit < 10 }
    ensures { result ≡ min (value * 10 + digit) (2 ^ 64) }
{
    let longer = value.saturating_mul(10).saturating_add(u128::from(digit));
    longer.min(1 << 64)
}

/// A line from its first byte on that is no blank.
fn skip_blanks(line: &[u8]) -> &[u8]
    ensures same { words_of result.now ≡ words_of line.now }
    ensures word { 0 < length result.now → is_blank (slice_index result.now 0) ≡ false }
{
    let mut begin = 0;
    while begin < line.len() && is_blank_byte(line[begin]) {
        begin += 1;
    }
    &line[begin..]
}

/// How long the word is with which a line begins.
fn word_len(line: &[u8]) -> usize
    ensures within { result ≤ length line.now }
    ensures words { words_of line.now ≡ word_if_any (take result line.now) ++ words_of (drop result line.now) }
    ensures ends { result < length line.now → is_blank (slice_index line.now result) ≡ true }
{
    let mut len = 0;
    while len < line.len() && !is_blank_byte(line[len]) {
        len += 1;
    }
    len
}

fn is_blank_byte(byte: u8) -> bool
    ensures { result ≡ is_blank byte }
{
    byte == b' ' || byte == b'\t'
}

/// The number that a word is, or 2^64 where it is greater; None where the word is no number.
fn number(word: &[u8]) -> Option<u128>
    ensures { result ≡ number_of_word word.now }
{
    if word.is_empty() {
        return None;
    }
    let mut value = 0u128;
    for byte in word {
        if !is_digit_byte(*byte) {
            return None;
        }
        value = with_digit(value, *byte - b'0');
    }
    Some(value)
}
