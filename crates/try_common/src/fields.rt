// The fields of a line, and the numbers in them.

ghost use Rattle.std.specs.Prelude.{◌≤◌};

// Field k, counted from 0; a blank stands between two. It is empty where there are fewer.
pub fn field(line: &[u8], k: usize) -> &[u8] {
    line.split(|byte| *byte == b' ').nth(k).unwrap_or(&[])
}

// The number with one more decimal digit. What is no digit, or would make a number of more than 19 digits, is passed over.
fn more(n: usize, byte: u8) -> usize {
    if byte.is_ascii_digit() && n < 1000000000000000000 {
        10 * n + (byte - b'0') as usize
    } else {
        n
    }
}

// The number that a text's digits make.
pub fn number_of(text: &[u8]) -> usize {
    text.iter().fold(0, |n, byte| more(n, *byte))
}

// The number in field k, 0 where there is none.
pub fn number(line: &[u8], k: usize) -> usize {
    number_of(field(line, k))
}

// The same where it is at most `most`, else `most`.
pub fn number_within(line: &[u8], k: usize, most: usize) -> usize
    ensures { result ≤ most }
{
    number(line, k).min(most)
}

// The same as a byte.
pub fn byte(line: &[u8], k: usize) -> u8 {
    u8::try_from(number(line, k)).unwrap_or(u8::MAX)
}
