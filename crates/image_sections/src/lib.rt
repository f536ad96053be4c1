// The sections of an image: what they can hold, and their bytes.
#![tactic(auto)]

pub mod held; // whether sections can hold given numbers
pub mod write; // the sections, put into a lent buffer
