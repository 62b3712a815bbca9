// Taps and their opposites, straight from a list of samples: of one sample, and of sixteen.
// The parameters (src, w, k) stay apart (Kept): src and w are a plane without its height, and a struct with k in it would be made anew for each offset.
ghost use Rattle.std.specs.Prelude.{◌≡◌, ◌+◌, ◌-◌, ◌*◌, ◌/◌, ◌≤◌, length};
ghost use Rattle.filter_rows.specs.Pairs.{pair_of};
ghost use Rattle.plane_taps.specs.Reach.{Reached, Along};
ghost use Rattle.plane_taps.specs.Runs.{Wide, run_by, on_by, back_by};

use filter_limits::Pair;

// The tap at an offset from k, and the opposite one.
pub fn load(src: &[u16], k: usize, o: usize) -> Pair
    requires { Reached (length src.now) k o }
    ensures { result ≡ pair_of src.now k o }
{
    Pair {
        on: src[k.wrapping_add(o)],
        back: src[k.wrapping_sub(o)],
    }
}

// Sixteen samples from k on, N of each row, four or eight.
// Kept by index: by copy_from_slice a block of rows of four took twice as long, by array::from_fn a sixth longer.
pub fn gather<const N: usize>(src: &[u16], w: usize, k: usize) -> [u16; 16]
    requires { Wide N × (k + ((16 / N - 1) * w + N) ≤ length src.now) × (w ≤ 4096) }
    ensures { result ≡ run_by N src.now w k }
{
    let mut v = [0u16; 16];
    for i in 0..16 / N {
        let at = k + i * w;
        let to = i * N;
        for j in 0..N {
            v[to + j] = src[at + j];
        }
    }
    v
}

// Their taps at an offset.
pub fn ahead<const N: usize>(src: &[u16], w: usize, k: usize, o: usize) -> [u16; 16]
    requires { Wide N × Along (length src.now) k ((16 / N - 1) * w + N) o × (w ≤ 4096) }
    ensures { result ≡ on_by N src.now w k o }
{
    gather::<N>(src, w, k.wrapping_add(o))
}

// Their taps at the opposite of an offset.
// Kept beside `ahead`: as one function six calls would read `ahead(src, w, k, t.p0.wrapping_neg())` in place of `behind(src, w, k, t.p0)`.
pub fn behind<const N: usize>(src: &[u16], w: usize, k: usize, o: usize) -> [u16; 16]
    requires { Wide N × Along (length src.now) k ((16 / N - 1) * w + N) o × (w ≤ 4096) }
    ensures { result ≡ back_by N src.now w k o }
{
    gather::<N>(src, w, k.wrapping_sub(o))
}
