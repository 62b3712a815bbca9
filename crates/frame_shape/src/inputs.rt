// What the cores of the frame calls are given: a checked picture with its planes.
ghost use Rattle.cdef_spec.specs.Lent.{picture_in, plane_in_full};
ghost use Rattle.frame_shape.specs.Shape.{Sampled, Seen, InForce};

use crate::checked::ListedPicture;
use cdef_spec::full::FullPlane;
use cdef_spec::{SignalledDamping, Visible};

// What filtering any block takes but its pair: the picture, the plane that every tap is read from, and the figure in force.
#[derive(Clone, Copy)]
pub struct FilterInput<'a> {
    pub listed: ListedPicture<'a>,
    pub plane: FullPlane<'a>,
    pub damping: SignalledDamping,
    pub ghost sampled: { Sampled (picture_in listed.shaped.picture) (plane_in_full plane) },
    pub ghost in_force: { InForce damping },
}

// What comparing with an original takes too: that plane, and the visible size.
#[derive(Clone, Copy)]
pub struct CompareInput<'a> {
    pub filter: FilterInput<'a>,
    pub original: FullPlane<'a>,
    pub visible: Visible,
    pub ghost original_sampled: { Sampled (picture_in filter.listed.shaped.picture) (plane_in_full original) },
    pub ghost seen: { Seen (picture_in filter.listed.shaped.picture) visible },
}
