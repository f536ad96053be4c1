// Weights as a paint tool holds them, 32-bit floats from 0 to 1, turned into amounts in grains and back.
#![tactic(auto)]

pub mod amounts;
mod filling;
pub mod weight;
pub mod weights;

pub use amounts::to_amounts;
pub use weights::to_weights;
