// The window of a block as five strips: each tap of the block's samples, in order, is one run of entries.
#![tactic(auto)]

ghost use Rattle.std.specs.Prelude.{◌⊎◌, ◌≡◌, ◌≤◌};
ghost use Rattle.trial_strips.specs.Strips.{Strips};

// The strips of a block that is four or eight wide: strip x has the window's columns from x on, n rows of w entries one after the other; then strip x + 1.
// Kept by index, strip by strip and row by row: with chunks_exact_mut for both the luma trial measured 1.06 times the time,
// with copy_from_slice of a row, or of four entries, 1.20 to 1.27.
pub fn strips(win: &[u16; 144], w: usize, n: usize) -> [u16; 480]
    requires { ((w ≡ 4) ⊎ (w ≡ 8)) × (n ≤ 12) }
    ensures { Strips win.now w n result }
{
    let mut out = [0u16; 480];
    for x in 0..5usize {
        for i in 0..n {
            let to = (x * n + i) * w;
            let from = i * 12 + x;
            for (j, sample) in win[from..from + 4].iter().enumerate() {
                out[to + j] = *sample;
            }
            if w == 8 {
                for (j, sample) in win[from + 4..from + 8].iter().enumerate() {
                    out[to + 4 + j] = *sample;
                }
            }
        }
    }
    out
}
