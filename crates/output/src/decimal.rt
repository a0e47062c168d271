// Numbers in decimal, put into a lent output, and how many digits they have. (01: Program linlist; Writer, mc)
ghost use Rattle.std.specs.Prelude.{◌≡◌, length};
ghost use Rattle.lin_spec.specs.Decimal.{decimal};
ghost use Rattle.output.specs.Put.{Room, Put};

// How many digits a number has.
pub fn decimal_len(n: u64) -> u64
    ensures { result ≡ length (decimal n) }
{
    let mut k = 1;
    let mut rest = n;
    while 10 <= rest {
        rest = rest / 10;
        k += 1;
    }
    k
}

// Puts the digits of a number, the last one first.
pub fn put_decimal(out: &mut [u8], at: usize, n: u64) -> usize
    requires { Room out.old at (decimal n) }
    ensures { Put out.old at (decimal n) out.new result }
{
    let end = at + decimal_len(n) as usize;
    let mut o = end;
    let mut rest = n;
    while 10 <= rest {
        o -= 1;
        out[o] = b'0' + (rest % 10) as u8;
        rest = rest / 10;
    }
    out[at] = b'0' + rest as u8;
    end
}
