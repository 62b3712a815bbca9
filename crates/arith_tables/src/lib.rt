// The standard's tables, each as a function (a constant array would be built anew at each use); the divisors of the direction cost, computed.
// Kept as numbers with their bounds: one direction and one length, each read by one `match` or one division; a type of eight directions would be matched to a number first.
#![tactic(auto)]

ghost use Rattle.std.specs.Prelude.{◌≡◌, ◌/◌, ◌≤◌, ◌<◌};
ghost use Rattle.cdef_spec.specs.Standard.{chroma_direction};

// What the direction cost multiplies the squared sum of a line of n samples by. That it is the standard's Div_Table[n] is `DivisorIsStandard` (specs/Divisor.antt).
pub fn divisor(n: u32) -> u32
    requires { (1 ≤ n) × (n ≤ 8) }
    ensures { result ≡ 840 / n }
{
    840 / n
}

// Cdef_Uv_Dir: 4:4:4 and 4:2:0 keep the luma direction; 4:2:2 and 4:4:0 have a row each.
pub fn chroma_direction(sub_x: u8, sub_y: u8, dir: u8) -> u8
    requires { (sub_x < 2) × (sub_y < 2) × (dir < 8) }
    ensures { result ≡ chroma_direction sub_x sub_y dir }
{
    if sub_x == sub_y {
        return dir;
    }
    if sub_x == 1 {
        return match dir {
            0 => 7,
            1 => 0,
            2 => 2,
            3 => 4,
            4 => 5,
            _ => 6,
        };
    }
    match dir {
        0 => 1,
        4 => 3,
        5 => 4,
        6 => 6,
        7 => 0,
        _ => 2,
    }
}
