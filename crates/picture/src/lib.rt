// The picture of a usual P line: a quick test in front of the exact judge of a line, which tells most rows of a file.
#![tactic(auto)]

ghost use Rattle.std.specs.Prelude.{◌≡◌, ◌≤◌};
ghost use Rattle.laws.specs.Tests.{every_below};
ghost use Rattle.picture.specs.Picture.{fits_at, usual};

// The pictures of 32 columns: in each may stand a byte from `low` to `high`, or after a blank one of `also` and `sign`.
struct Pictures<'a> {
    low: &'a [u8; 32],
    high: &'a [u8; 32],
    also: &'a [u8; 32],
    sign: &'a [u8; 32],
}

// Whether 32 columns of a line, the first of them the one after `at` + 1, fit their pictures. A flag to the end, and no way out, lets LLVM take sixteen
// columns at once; it does so where they are a multiple of 32.
fn fits(line: &[u8; 80], at: usize, pictures: &Pictures) -> bool
    requires { at ≤ 47 }
    ensures { let p = pictures.now in
        result ≡ every_below 32 (fits_at p.low.now p.high.now p.also.now p.sign.now line.now at) }
{
    let mut ok = true;
    for i in 0..32 {
        let (p, q) = (line[at + i], line[at + i + 1]);
        let usual = (pictures.low[i] <= q) & (q <= pictures.high[i]);
        let after_blank = (p == b' ') & ((q == pictures.also[i]) | (q == pictures.sign[i]));
        ok = (usual | after_blank) & ok;
    }
    ok
}

// Whether a line is a P line of the usual kind: columns 2 to 33, 34 to 65 and 49 to 80 by their pictures. Such a line has no fault; what is unusual is
// judged field by field.
pub fn is_usual(line: &[u8; 80]) -> bool
    ensures result { result ≡ usual line.now }
{
    let front = fits(
        line,
        0,
        &Pictures {
            low: b"A00 000000.000000 000000.000000 ",
            high: b"Z99 999999.999999 999999.999999 ",
            also: b"A00      0.000000      0.000000 ",
            sign: b"A00 -----0.000000 -----0.000000 ",
        },
    );
    let middle = fits(
        line,
        32,
        &Pictures {
            low: b"000000.000000 000000.000000 00 0",
            high: b"999999.999999 999999.999999 99 9",
            also: b"     0.000000      0.000000     ",
            sign: b"-----0.000000 -----0.000000     ",
        },
    );
    let last = fits(
        line,
        47,
        &Pictures {
            low: b"00000.000000 00 00 00 000  P   P",
            high: b"99999.999999 99 99 99 999  P   P",
            also: b"    0.000000                    ",
            sign: b"----0.000000              E   M ",
        },
    );
    let zero = (line[2] == b'0') & (line[3] == b'0');
    (line[0] == b'P') & (!zero & (front & (middle & last)))
}
