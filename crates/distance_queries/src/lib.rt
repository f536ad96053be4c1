// Queries by the distance from a vertex, for brush tools: the vertices within a reach, and the nearest vertex with a positive amount.
#![tactic(auto)]

pub mod checked;
pub mod nearest;
pub mod within;

pub use nearest::nearest_vertex;
pub use within::vertices_within;
