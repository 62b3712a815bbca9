// The pictures.
use crate::picture::{Directions, Layout, Picture};

pub const PICTURES: [Picture; 7] = [
    Picture {
        title: "luma",
        layout: Layout::Luma,
        depth: 8,
        grain: 0,
        directions: Directions::Found,
    },
    Picture {
        title: "luma",
        layout: Layout::Luma,
        depth: 10,
        grain: 1,
        directions: Directions::Found,
    },
    Picture {
        title: "chroma 4:2:0",
        layout: Layout::Chroma { sx: 1, sy: 1 },
        depth: 8,
        grain: 2,
        directions: Directions::Found,
    },
    Picture {
        title: "chroma 4:2:2",
        layout: Layout::Chroma { sx: 1, sy: 0 },
        depth: 10,
        grain: 3,
        directions: Directions::Found,
    },
    Picture {
        title: "chroma 4:4:0",
        layout: Layout::Chroma { sx: 0, sy: 1 },
        depth: 8,
        grain: 4,
        directions: Directions::Found,
    },
    Picture {
        title: "chroma 4:4:4",
        layout: Layout::Chroma { sx: 0, sy: 0 },
        depth: 10,
        grain: 5,
        directions: Directions::Found,
    },
    Picture {
        title: "chroma 4:4:0, each direction in turn",
        layout: Layout::Chroma { sx: 0, sy: 1 },
        depth: 10,
        grain: 6,
        directions: Directions::EachInTurn,
    },
];

// Two that are tried with no damping stated.
pub const UNSTATED: [Picture; 2] = [
    Picture {
        title: "luma",
        layout: Layout::Luma,
        depth: 10,
        grain: 1,
        directions: Directions::EachInTurn,
    },
    Picture {
        title: "chroma 4:4:4",
        layout: Layout::Chroma { sx: 0, sy: 0 },
        depth: 10,
        grain: 1,
        directions: Directions::EachInTurn,
    },
];
