// The report on a sequence of images.
ghost use Rattle.std.specs.Prelude.{◌≡◌, leb, length};
ghost use Rattle.arithmetic.specs.Table.{tab, written};
ghost use Rattle.sequence_report.specs.Report.{images_with, Reported};

// How many images have each number, in the first 24 places of `tally`; how many are accepted, what these cost, and the first with the greatest cost.
#[unsafe(no_mangle)]
pub extern "C" fn mover_report(
    reel: &[u8],
    tally: &mut [u32],
    accepted: &mut u32,
    sum: &mut u64,
    greatest: &mut u64,
    first: &mut usize,
) -> u32
    ensures reported { Reported reel.now (leb 24 (length tally.old)) result accepted.new sum.new greatest.new first.new }
    ensures tally { tally.new ≡ written result (tab 24 (images_with reel.now)) tally.old }
{
    match sequence_report::report_into(reel, tally) {
        Ok(totals) => {
            *accepted = totals.accepted;
            *sum = totals.sum;
            *greatest = totals.greatest;
            *first = totals.first;
            0
        }
        Err(refusal) => {
            *accepted = 0;
            *sum = 0;
            *greatest = 0;
            *first = 0;
            refusal.number()
        }
    }
}
