// Numbers of ASCII digits, at most a bound. (01: Board, mc; annotations, "read as mc's digits")
ghost use Rattle.std.specs.Prelude.{◌≡◌, ◌+◌, ◌*◌, ◌-◌, ◌<◌, min};
ghost use Rattle.lin_spec.specs.Board.{is_digit, after_plus, number_in};

// The text without a plus sign at its front.
fn after_plus(s: &[u8]) -> &[u8]
    ensures { result.now ≡ after_plus s.now }
{
    s.strip_prefix(b"+").unwrap_or(s)
}

// Whether a byte is a digit of ASCII.
pub fn is_digit(b: u8) -> bool
    ensures { result ≡ is_digit b }
{
    b.is_ascii_digit()
}

// The number n with a digit behind it, or top where that is less.
fn with_digit(n: u64, b: u8, top: u64) -> u64
    requires { (n < 4294967297) × (48 < b + 1) }
    ensures { result ≡ min (n * 10 + (b - 48)) top }
{
    (n * 10 + (b - b'0') as u64).min(top)
}

// One or more digits after an optional plus sign, whose number is at most the bound.
pub fn read_number(s: &[u8], bound: u32) -> Option<u32>
    ensures { result ≡ number_in bound s.now }
{
    let t = after_plus(s);
    if t.len() == 0 {
        return None;
    }
    let top = bound as u64 + 1;
    let mut n: u64 = 0;
    for &b in t {
        if !is_digit(b) {
            return None;
        }
        n = with_digit(n, b, top);
    }
    if n < top {
        return Some(n as u32);
    }
    None
}
