// What several layers share: the test of two bounds, the smaller of two counts and the filling of blanks, beside the laws of specs/ and proofs/.
#![tactic(auto)]

ghost use Rattle.std.specs.Prelude.{◌≡◌, min, length};
ghost use Rattle.laws.specs.Tests;
ghost use Rattle.laws.specs.Texts.{blanks};

// Whether a number lies between two others, both counted in: 12 within 1 to 12 does, 13 does not.
pub fn within(low: u64, high: u64, n: u64) -> bool
    ensures result { result ≡ Tests.within low high n }
{
    (low..=high).contains(&n)
}

// The smaller of two counts.
pub fn fewer(a: usize, b: usize) -> usize
    ensures result { result ≡ min a b }
{
    a.min(b)
}

// Blanks in every place that is lent.
pub fn fill_blanks(out: &mut [u8])
    ensures lent { out.new ≡ blanks (length out.old) }
{
    out.fill(b' ');
}
