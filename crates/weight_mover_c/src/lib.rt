// The exported entry, for C.
#![tactic(auto)]

ghost use Rattle.weight_mover.specs.Run.{Ran};

// Answers an image by its record: 0, or a refusal number and the buffer as it came.
#[unsafe(no_mangle)]
pub extern "C" fn mover_run(image: &[u8], buffer: &mut [u8]) -> u32
    ensures { Ran image.now buffer.old result buffer.new }
{
    weight_mover::mover_run(image, buffer)
}
