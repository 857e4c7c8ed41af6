// The bytes of an RFC 4180 file of digits, a code sheet or another: which may stand in it, where it ends, and how far a field goes. In specs/ also how such a file
// is written, and that it is read back.

#![tactic(auto)]

ghost use Rattle.std.specs.Prelude.{◌≡◌, true, false, ◌+◌, ◌≤◌, length, take, drop, get_or};
ghost use Rattle.code.specs.Definitions.Sheets.{is_digit, value_of, bad_bytes, body};
ghost use Rattle.csv_records.specs.Fields.{bad_byte, leading};

pub fn is_digit(b: u8) -> bool
    ensures { result ≡ is_digit b }
{
    matches!(b, b'0'..=b'9' | b'A'..=b'F')
}

// The symbol that a digit stands for.
pub fn value_of(b: u8) -> u8
    requires { is_digit b ≡ true }
    ensures { result ≡ value_of b }
{
    if b <= b'9' { b - b'0' } else { b - b'A' + 10 }
}

// Whether a byte is wrong where it stands: after a CR only LF is right, elsewhere a digit, a comma or a CR.
fn bad_byte(cr: bool, b: u8) -> bool
    ensures { result ≡ bad_byte cr b }
{
    if cr {
        b != b'\n'
    } else {
        !(is_digit(b) || b == b',' || b == b'\r')
    }
}

// Refusal 2 of document 01.
#[tactic(auto, using(crate::specs::Fields::bad_steps))]
pub fn bad_bytes(s: &[u8]) -> bool
    ensures { result ≡ bad_bytes false s.now }
{
    let mut cr = false;
    for b in s {
        if bad_byte(cr, *b) {
            return true;
        }
        cr = *b == b'\r';
    }
    cr
}

// How long the file is without a final CR LF.
#[tactic(auto, using(crate::specs::Fields::body_ways))]
pub fn body_len(s: &[u8]) -> usize
    ensures { (take result s.now ≡ body s.now) × (result ≤ length s.now) }
{
    match s {
        [body @ .., b'\r', b'\n'] => body.len(),
        _ => s.len(),
    }
}

// Where the digits that begin at `at` end.
pub fn field_end(s: &[u8], at: usize) -> usize
    requires { at ≤ length s.now }
    ensures { (result ≡ at + length (leading (drop at s.now))) × (result ≤ length s.now) }
{
    at + s[at..].iter().take_while(|b| is_digit(**b)).count()
}

// The byte at a position, 0 past the end.
pub fn byte_at(s: &[u8], at: usize) -> u8
    ensures { result ≡ get_or s.now at 0 }
{
    s.get(at).copied().unwrap_or(0)
}
