// A sequence of images in bytes: their count, a directory, and the images (document 02 calls it a reel).
#![tactic(auto)]

ghost use Rattle.std.specs.Prelude.{◌≡◌, true, ◌≤◌, ◌<◌, length};
ghost use Rattle.image_sequence.specs.Sequence.{image_count, image_at, sequence_ok};

use directory::{end, offset, pairs_ok};
use little_endian::read::get_two;

// Where the directory starts.
const PAIRS: usize = 2;

// The number of images.
pub fn image_count(reel: &[u8]) -> usize
    requires { 2 ≤ length reel.now }
    ensures { (result ≡ image_count reel.now) × (result < 65536) }
{
    get_two(reel, 0) as usize
}

// Check 14.
#[tactic(auto, unfolding(crate::specs::Sequence::sequence_ok))]
pub fn sequence_ok(reel: &[u8]) -> bool
    ensures { result ≡ sequence_ok reel.now }
{
    if reel.len() < 2 {
        return false;
    }
    let count = image_count(reel);
    let directory_end = PAIRS + 8 * count;
    if reel.len() < directory_end {
        return false;
    }
    pairs_ok(reel, PAIRS, directory_end, count)
}

// Image i of a sequence that check 14 accepts.
pub fn image_at(reel: &[u8], i: usize) -> &[u8]
    requires { (sequence_ok reel.now ≡ true) × (i < image_count reel.now) }
    ensures { result.now ≡ image_at reel.now i }
{
    let start = offset(reel, PAIRS, i);
    let end = end(reel, PAIRS, i);
    &reel[start..end]
}
