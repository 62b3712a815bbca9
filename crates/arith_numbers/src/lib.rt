// The difference of two samples, squares, and blocks whose samples fill runs of sixteen.
#![tactic(auto)]

ghost use Rattle.std.specs.Prelude.{◌≡◌, true, ◌≤◌, ◌<◌, pos, ◌-ℤ◌};
ghost use Rattle.cdef_spec.specs.Standard.{square};
ghost use Rattle.cdef_spec.specs.Distance.{squared_difference};
ghost use Rattle.arith_numbers.specs.Packed.{Packed};

// (a - b)². The remainder changes nothing; from it the compiler sees that the number is small.
pub fn squared_difference(a: u16, b: u16) -> u32
    requires { (a < 4096) × (b < 4096) }
    ensures { result ≡ squared_difference a b }
{
    let d = (a.abs_diff(b) % 4096) as u32;
    d * d
}

// a - b as an i16. Kept beside `abs_diff`, which loses the sign, and `wrapping_sub`, which may wrap: of samples below 16,384 the contract says that the difference is the true one.
pub fn difference(a: u16, b: u16) -> i16
    requires { (a < 16384) × (b < 16384) }
    ensures { result ≡ pos a -ℤ pos b }
{
    (a as i16) - (b as i16)
}

// The square of a difference or of a line sum.
pub fn square_of(v: i16) -> u32
    ensures { result ≡ square v }
{
    let w = v as i32;
    (w * w) as u32
}

// Whether a block's samples fill runs of sixteen, in rows of four or of eight.
// Kept as a clause, sides of at most 8: they are a block's sides, and `Block` is what a caller passes, whose sides may be any numbers before question 5 is asked.
pub fn packs(w: usize, h: usize) -> bool
    requires { (w ≤ 8) × (h ≤ 8) }
    ensures { result ≡ true → Packed w h }
{
    w % 4 == 0 && w != 0 && w * h % 16 == 0
}
