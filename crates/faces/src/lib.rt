// docs/RULES.md, The mesh: faces, sides, and the ring of a vertex. A vertex's place in a face is a side number s = 3 f + k, as in crate `rules`.
#![tactic(auto)]

pub mod face;
pub mod rings;
pub mod sides;
pub mod walks;
