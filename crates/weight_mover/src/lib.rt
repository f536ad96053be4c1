// The exported entry, which answers an image by its record.
#![tactic(auto)]

ghost use Rattle.std.specs.Prelude.{◌≡◌, true, ◌≤◌, length};
ghost use Rattle.refusals.specs.Refusals.{number_of};
ghost use Rattle.image.specs.Image.{vertex_count};
ghost use Rattle.image_answer.specs.Steps.Answered.{Spacious};
ghost use Rattle.weight_mover.specs.Run.{Ran};

use host_record::write_record;
use image_answer::answer_image;
use refusals::Refusal;

// Whether an image has so few vertices that a small table has room for the plan.
fn is_small(image: &[u8]) -> bool
    ensures { result ≡ true → vertex_count image.now ≤ 16 }
{
    !image.is_empty() && image[0] <= 16
}

// Answers an image by its record, with a lent table for the plan.
fn run(image: &[u8], plan: &mut [u32], buffer: &mut [u8]) -> Result<(), Refusal>
    requires { Spacious image.now (length plan.old) }
    ensures { Ran image.now buffer.old (number_of result) buffer.new }
{
    let mut potential = [0i32; 64];
    let found = answer_image(image, buffer.len(), &mut potential, plan)?;
    write_record(
        found.cost,
        found.moves,
        found.tree,
        &potential,
        plan,
        buffer,
    );
    Ok(())
}

// Answers an image by its record: 0, or a refusal number and the buffer as it came. The number is the C interface's.
#[unsafe(no_mangle)]
pub extern "C" fn mover_run(image: &[u8], buffer: &mut [u8]) -> u32
    ensures { Ran image.now buffer.old result buffer.new }
{
    let outcome = if is_small(image) {
        run(image, &mut [0u32; 256], buffer)
    } else {
        run(image, &mut [0u32; 4096], buffer)
    };
    match outcome {
        Ok(()) => 0,
        Err(refusal) => refusal.number(),
    }
}
