// The call for the direction of a block.
// Kept as parameters: C passes numbers and lists one by one.
ghost use Rattle.std.specs.Prelude.{◌≡◌};
ghost use Rattle.cdef_spec.specs.Answers.{number_of};
ghost use Rattle.cdef_spec.specs.BlockCalls.{direction_outcome};
ghost use Rattle.cdef_c.specs.Values.{value_or};

use cdef_spec::Plane;

// The direction and the variance of the 8 by 8 block at (x, y).
#[unsafe(no_mangle)]
pub extern "C" fn quern_direction(
    plane: &[u16],
    width: usize,
    height: usize,
    x: usize,
    y: usize,
    depth: u8,
    direction: &mut u8,
    variance: &mut u32,
) -> u32
    ensures code { result ≡ number_of (direction_outcome (record { samples = plane.now; width = width; height = height }) depth y x) }
    ensures direction_value { direction.exit.now
        ≡ (value_or (record { direction = direction.entry.now; variance = variance.old })
        (direction_outcome (record { samples = plane.now; width = width; height = height }) depth y x)).direction }
    ensures variance_after { variance.new
        ≡ (value_or (record { direction = direction.entry.now; variance = variance.old })
        (direction_outcome (record { samples = plane.now; width = width; height = height }) depth y x)).variance }
{
    let plane = Plane {
        samples: plane,
        width,
        height,
    };
    match cdef_blocks::direction::direction(&plane, x, y, depth) {
        Ok(found) => {
            *direction = found.direction;
            *variance = found.variance;
            0
        }
        Err(refusal) => u32::from(refusal),
    }
}
