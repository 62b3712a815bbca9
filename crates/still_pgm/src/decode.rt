// The padded plane of a file: past the last column and row of the picture the nearest sample repeats.
ghost use Rattle.std.specs.Prelude.{◌*◌, ◌^◌, ◌≤◌, ◌<◌, ◌≡◌, true, cond, length, replicate, Some, None, is_none, IfOk, MatchResult};
ghost use Rattle.still_pgm.specs.Faults.{fault_in};
ghost use Rattle.still_pgm.specs.Sizes.{is_taken, padded};
ghost use Rattle.still_pgm.specs.Planes.{stored, sample_at, padded_sample, decoded_plane};

use crate::format::{Fault, Format};
use crate::header::Header;
use crate::sizes;
use std::alloc::{AllocError, Global};

// The sample that so many precede: one byte, or two with the high one first.
#[tactic(auto, unfolding(crate::specs::Planes::sample_at))]
fn sample_at(samples: &[u8], step: usize, k: usize) -> u16
    requires { k ≤ 2 ^ 32 }
    ensures { result ≡ sample_at samples.now step k }
{
    if step == 1 {
        return u16::from(samples.get(k).copied().unwrap_or(0));
    }
    let high = samples.get(2 * k).copied().unwrap_or(0);
    let low = samples.get(2 * k + 1).copied().unwrap_or(0);
    u16::from_be_bytes([high, low])
}

// Each sample of a plane whose rows are `pitch` long.
// Kept by place: a sample's row and column, each limited to the picture's last, say which sample of the file it is; row by row there are two counts in place of one.
fn fill(plane: &mut [u16], pitch: usize, samples: &[u8], h: Header)
    requires pitch_nonzero { 0 < pitch }
    requires sides_taken { is_taken h.width h.height ≡ true }
    ensures { plane.new ≡ stored (padded_sample samples.now h pitch) (length plane.old) plane.old }
{
    let step = sizes::step_of(h.maximum);
    for (k, sample) in plane.iter_mut().enumerate() {
        let row = (k / pitch).min(h.height - 1);
        let column = (k % pitch).min(h.width - 1);
        *sample = sample_at(samples, step, row * h.width + column);
    }
}

// Puts the padded plane of a header and of the bytes behind it at the start of a plane, which needs no memory;
// or says what is wrong with them, and leaves the plane as it is.
pub fn decode_into(plane: &mut [u16], header: Header, samples: &[u8]) -> Result<(), Fault>
    requires { 786432 ≤ length plane.old }
    ensures value { MatchResult result (λ _. None ≡ fault_in (length samples.now) header) (λ e. Some e ≡ fault_in (length samples.now) header) }
    ensures plane_after { plane.new ≡ cond (is_none (fault_in (length samples.now) header)) (decoded_plane samples.now header plane.old) plane.old }
{
    let format = Format::of(header, samples.len())?;
    let pitch = format.pitch();
    fill(&mut plane[..pitch * format.rows()], pitch, samples, header);
    Ok(())
}

// The padded plane of a format and the bytes of its samples.
pub fn decode(alloc: Global, f: Format, samples: &[u8]) -> Result<Vec<u16>, AllocError>
    ensures { IfOk result (λ v. v.items ≡ decoded_plane samples.now f.header (replicate (padded f.header.width * padded f.header.height) 0)) }
{
    let pitch = f.pitch();
    let mut plane = vec![in alloc; 0; pitch * f.rows()]?;
    fill(plane.as_mut_slice(), pitch, samples, f.header);
    Ok(plane)
}
