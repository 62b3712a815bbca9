// Rows of eight samples inside a plane: in bytes where sums fit in them, else in 16-bit words.
// The parameters (dst, to, src, w, at, n) stay apart (Kept): a struct of a list, its width and an index would be made twice, for dst and for src, with w in both
// and a clause that the two are equal. So in plane_rows, plane_fours and plane_bytes::eights. The clauses stay (Kept) as their heads say.
ghost use Rattle.std.specs.Prelude.{◌≡◌, true, ℕ, ◌+◌, ◌*◌, ◌≤◌, ◌<◌, length};
ghost use Rattle.filter_rows.specs.Sums.{InRange};
ghost use Rattle.plane_taps.specs.Plain.{AllLow};
ghost use Rattle.plane_taps.specs.Steps.{taps_in};
ghost use Rattle.plane_taps.specs.Reach.{Around};
ghost use Rattle.plane_rows.specs.Rows.{Stored};
ghost use Rattle.plane_bytes.specs.Eights.{AllByte};
ghost use Rattle.plane_block.specs.Inside.{Sided, Weighted, Bytes};

use filter_rows::Strength;
use plane_bytes::eights;

// Whether both strengths filter and their sums fit in bytes.
fn in_bytes(depth: u8, f: Strength, g: Strength) -> bool
    ensures { result ≡ true → Bytes depth f.s f.sh g.s g.sh }
{
    depth == 8 && f.s != 0 && g.s != 0 && f.s <= 15 && g.s <= 4 && f.sh < 8 && g.sh < 8
}

// Filters n rows of eight from index `at` of the plane on into the destination, from index `to` on; both are w wide.
pub fn eight_wide(
    dst: &mut [u16],
    to: usize,
    src: &[u16],
    w: usize,
    at: usize,
    n: usize,
    dir: usize,
    depth: u8,
    f: Strength,
    g: Strength,
)
    requires all_low { AllLow src.now × (w ≤ 4096) × Sided n × (dir < 8) × InRange f × InRange g × Weighted f g × (depth ≡ 8 → AllByte src.now) }
    requires rows_inside { (i : ℕ) → i < n → Around (length src.now) (at + i * w) 8 (taps_in w dir) × (to + i * w + 8 ≤ length dst.old) }
    ensures { Stored src.now dst.old dst.new w at to (taps_in w dir) f g 8 n }
{
    if in_bytes(depth, f, g) {
        let t = plane_taps::steps::taps(dir, w, 1);
        // Kept as two calls: with the count `n / 2` applying took 1.06 times as long (luma), 1.07 times (chroma).
        if n == 8 {
            eights::rows(dst, to, src, w, at, 4, t, f, g);
            return;
        }
        eights::rows(dst, to, src, w, at, 2, t, f, g);
        return;
    }
    plane_rows::rows(dst, to, src, w, at, n, dir, f, g);
}
