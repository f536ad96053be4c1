// Why a call refuses: documents 01 and 02, "What is refused".
#![tactic(auto)]

ghost use Rattle.std.specs.Prelude.{◌≡◌, ◌<◌};
ghost use Rattle.refusals.specs.Refusals.{number};

use std::error::Error;
use std::fmt;

// Each check of the table is a variant, and its number the discriminant.
#[derive(Clone, Copy, Debug, PartialEq, Eq)]
pub enum Refusal {
    Vertices = 1,
    Tables = 2,
    Edges = 3,
    Lengths = 4,
    Unconnected = 5,
    Total = 6,
    UnequalTotals = 7,
    Parents = 8,
    TreeEdges = 9,
    Chains = 10,
    ImageSize = 11,
    Sections = 12,
    Layout = 13,
    Sequence = 14,
    Weights = 15,
    Grains = 16,
    Start = 17,
}

impl Refusal {
    // The number in the table.
    pub fn number(self) -> u32
        ensures { (result ≡ number self) × (result < 24) }
    {
        self as u32
    }
}

impl From<Refusal> for u32 {
    ghost from_gives = { λ r k. k ≡ number r };

    fn from(refusal: Refusal) -> u32 {
        refusal.number()
    }
}

impl fmt::Display for Refusal {
    fn fmt<W: fmt::Write>(&self, f: &mut fmt::Formatter<W>) -> fmt::Result {
        f.write_str(match self {
            Refusal::Vertices => "the number of vertices is 0 or above 64",
            Refusal::Tables => "there are more than 512 edges, or a table has the wrong length",
            Refusal::Edges =>
                "an edge has ends that are no rising pair of vertices, or is out of order",
            Refusal::Lengths => "an edge has a length above 65535",
            Refusal::Unconnected => "some vertex cannot be reached from vertex 0",
            Refusal::Total => "a total is above 16777216",
            Refusal::UnequalTotals => "the two totals differ",
            Refusal::Parents =>
                "the root or a parent is no vertex, the root has another parent, or a second vertex is its own parent",
            Refusal::TreeEdges => "a vertex and its parent share no edge",
            Refusal::Chains => "a chain of parents misses the root",
            Refusal::ImageSize => "the image has under 36 or over 65536 bytes",
            Refusal::Sections => "a section of the image is out of order or out of bounds",
            Refusal::Layout =>
                "byte 1 of the image is not 0, a section has the wrong length, or a number is too large for an image",
            Refusal::Sequence =>
                "the reel is shorter than its directory, or an image in it is out of order or out of bounds",
            Refusal::Weights =>
                "a weight is below 0, above 1 or no number, or an amount is above 16777216",
            Refusal::Grains => "a weight is no whole number of grains",
            Refusal::Start => "the start is no vertex",
        })
    }
}

impl Error for Refusal {}
