// The visible part of a plane as the bytes of a file's samples.
ghost use Rattle.std.specs.Prelude.{◌≤◌, ◌<◌, ◌≡◌, length};
ghost use Rattle.still_pgm.specs.Sizes.{step_of, padded};
ghost use Rattle.still_pgm.specs.Planes.{stored, file_byte};

use crate::format::Format;

// The first bytes of the samples, as many as there is room for: rows of `width` samples, `step` bytes each, out of a plane whose rows are `pitch` long.
// Kept by place: a byte's number says its sample and which byte of that it is; row by row and sample by sample there are three counts in place of one.
pub fn encode_rows(out: &mut [u8], plane: &[u16], width: usize, pitch: usize, step: usize)
    requires room { length out.old ≤ 1572864 }
    requires sides { (0 < width) × (pitch ≤ 4096) }
    requires bytes { (0 < step) × (step ≤ 2) }
    ensures { out.new ≡ stored (file_byte plane.now width pitch step) (length out.old) out.old }
{
    for (k, byte) in out.iter_mut().enumerate() {
        let sample = k / step;
        let at = sample / width * pitch + sample % width;
        let [high, low] = plane.get(at).copied().unwrap_or(0).to_be_bytes();
        *byte = if k % step + 1 == step { low } else { high };
    }
}

// The first bytes of the samples, as many as there is room for: the rows of the picture out of its padded plane.
pub fn encode(out: &mut [u8], plane: &[u16], f: &Format)
    requires room { length out.old ≤ 1572864 }
    ensures { out.new ≡ stored (file_byte plane.now f.now.header.width (padded f.now.header.width) (step_of f.now.header.maximum)) (length out.old) out.old }
{
    encode_rows(out, plane, f.header.width, f.pitch(), f.step());
}
