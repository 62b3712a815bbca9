// A plane whose samples are as many as its sides say.

ghost use Rattle.std.specs.Prelude.{◌≡◌, ◌*◌, ◌≤◌, length};

// width * height samples, row by row; no side is above 4,096.
#[derive(Clone, Copy)]
pub struct FullPlane<'a> {
    pub samples: &'a [u16],
    pub width: usize,
    pub height: usize,
    pub ghost full: { length samples.now ≡ width * height },
    pub ghost sides: { (width ≤ 4096) × (height ≤ 4096) },
}
