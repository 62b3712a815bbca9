// The square root of the weighted distance by itself, for the runs against the reference.
ghost use Rattle.std.specs.Prelude.{◌≡◌, false, cond, ◌&&◌};
ghost use Rattle.std.specs.Float.{inf};
ghost use Rattle.std.specs.Float.Ieee.{le, lt};
ghost use Rattle.cdef_spec.specs.Root.{least_normal, root_of};

// The f64 nearest to the square root of v; v itself where v is not a finite number above 0 or is subnormal.
#[unsafe(no_mangle)]
pub extern "C" fn quern_root(v: f64) -> f64
    ensures { result ≡ cond (le least_normal v && lt v (inf false)) (root_of v) v }
{
    if f64::from_bits(0x10_0000_0000_0000) <= v && v < f64::INFINITY {
        return arith_root::root(v);
    }
    v
}
