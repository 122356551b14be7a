// A line and its LF laid at the front of the lent output.
ghost use Rattle.std.specs.Prelude.{◌≡◌, ◌≤◌, [], ◌∷◌, ◌++◌, List, ℕ, length};
ghost use Rattle.layout.specs.Line.{Lays};
ghost use Rattle.draw.specs.Calls.{Takes, Leaves};

// The line of `n` bytes that `put` leaves, with its LF, laid at the front of `out`, where there is room, and its length in any case.
pub(crate) fn lay_ended<F: FnOnce(&mut [u8])>(n: usize, out: &mut [u8], put: F) -> usize
    requires short { n ≤ 80 }
    requires callable { Takes F.FnOnce put n }
    ensures { (line : List ℕ) → length line ≡ n → Leaves F.FnOnce put n line → Lays (line ++ (10 ∷ [])) out.old result out.new }
{
    if n >= out.len() {
        return n + 1;
    }
    put(&mut out[..n]);
    out[n] = b'\n';
    n + 1
}
