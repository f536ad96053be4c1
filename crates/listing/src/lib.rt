// The listing of an image, written into a lent buffer.
#![tactic(auto)]

ghost use Rattle.listing.specs.Listing.{Listed};

use image_answer::answer_image;
use listing_lines::{write_best, write_evaluated, write_refused};

// Writes the text that is printed for an image, and returns how long it is.
pub fn write_listing(image: &[u8], out: &mut [u8; 131072]) -> usize
    ensures { Listed image.now out.old result out.new }
{
    let mut potential = [0i32; 64];
    let mut plan = [0u32; 4096];
    // room for the record of 64 vertices
    let found = match answer_image(image, 16717, &mut potential, &mut plan) {
        Ok(found) => found,
        Err(refusal) => return write_refused(refusal.number(), out),
    };
    if found.given {
        return write_evaluated(found.tree.n, found.cost, found.moves as u64, &plan, out);
    }
    write_best(found.cost, out)
}
