// Bytes and numbers.
ghost use Rattle.std.specs.Prelude.{◌≡◌, ◌≤◌, min, length};
ghost use Rattle.text.specs.Bytes.{place, number_of, digits_from};

// Where the first `b` of a text stands, or its length.
pub fn find(s: &[u8], b: u8) -> usize
    ensures { result ≡ place b s.now }
{
    s.iter().position(|x| *x == b).unwrap_or(s.len())
}

// A field read as a number: 1 to 10 digits, no leading zero but `0` itself. So it fits 64 bits. By hand: the library's `parse` takes signs
// and leading zeros.
#[tactic(auto, unfolding(crate::specs::Bytes::number_of))]
pub fn read_number(s: &[u8]) -> Option<usize>
    ensures { result ≡ number_of s.now }
{
    if s.is_empty() || 10 < s.len() {
        return None;
    }
    if 1 < s.len() && s[0] == b'0' {
        return None;
    }
    digits(s)
}

fn digits(s: &[u8]) -> Option<usize>
    requires { length s.now ≤ 10 }
    ensures { result ≡ digits_from 0 s.now }
{
    let mut v: usize = 0;
    for b in s {
        if !b.is_ascii_digit() {
            return None;
        }
        v = v * 10 + usize::from(*b - b'0');
    }
    Some(v)
}

// The number, or the greatest of 32 bits: the library's conversion under one name and promise for its callers.
pub fn capped(n: usize) -> u32
    ensures { result ≡ min 4294967295 n }
{
    u32::try_from(n).unwrap_or(u32::MAX)
}
