// The skip flags, and the directions in turn.
ghost use Rattle.std.specs.Prelude.{◌≡◌, IfOk, vec_len};

use std::alloc::{AllocError, Global};

pub const BLOCKS: usize = 153;

// Two blocks of eleven are skipped.
pub fn skips(alloc: Global) -> Result<Vec<u8>, AllocError>
    ensures { IfOk result (λ v. vec_len v ≡ BLOCKS) }
{
    (0..BLOCKS)
        .map(|block| u8::from((block % 11 * 7 + 3) % 11 < 2))
        .collect(alloc)
}

// Each of the eight directions in turn.
pub fn directions_in_turn(alloc: Global) -> Result<Vec<u8>, AllocError>
    ensures { IfOk result (λ v. vec_len v ≡ BLOCKS) }
{
    (0..BLOCKS).map(|block| (block % 8) as u8).collect(alloc)
}
