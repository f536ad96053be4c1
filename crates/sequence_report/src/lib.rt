// The report on a sequence of images: how many are accepted or refused under each number, and what they cost.
#![tactic(auto)]

pub mod figures; // what is returned

ghost use Rattle.std.specs.Prelude.{◌≡◌, true, ◌+◌, ◌<◌, leb, length, IfOk};
ghost use Rattle.refusals.specs.Refusals.{number_of};
ghost use Rattle.arithmetic.specs.Table.{tab, written};
ghost use Rattle.image_sequence.specs.Sequence.{image_count, sequence_ok};
ghost use Rattle.sequence_report.specs.Report.{images_with, Reported};
ghost use Rattle.sequence_report.specs.Outcome.{accepted_of, sum_of, greatest_of, first_of, totals_of};
ghost use Rattle.sequence_report.specs.Steps.Told.{Told};

use cost_sheet::{PLACES, Sheet, write_tally};
use figures::{Report, Totals};
use image_answer::answer_image;
use image_sequence::{image_at, image_count, sequence_ok};
use refusals::Refusal;

// Room for the record of any image: that of 64 vertices.
const RECORD: usize = 16717;

// The sheet with image i more.
fn add_image(
    sheet: Sheet,
    reel: &[u8],
    i: usize,
    potential: &mut [i32; 64],
    plan: &mut [u32; 4096],
) -> Sheet
    requires { (sequence_ok reel.now ≡ true) × (i < image_count reel.now) × (i < 65536) × Told reel.now i sheet }
    ensures { Told reel.now (i + 1) result }
{
    match answer_image(image_at(reel, i), RECORD, potential, plan) {
        Ok(answer) => sheet.with(i, 0, answer.cost),
        Err(refusal) => sheet.with(i, refusal.number(), 0),
    }
}

// The sheet of all images.
fn sheet_of(reel: &[u8]) -> Sheet
    requires { sequence_ok reel.now ≡ true }
    ensures { Told reel.now (image_count reel.now) result }
{
    let mut potential = [0i32; 64];
    let mut plan = [0u32; 4096];
    let mut sheet = Sheet::new();
    for i in 0..image_count(reel) {
        sheet = add_image(sheet, reel, i, &mut potential, &mut plan);
    }
    sheet
}

// The report on a sequence of images in bytes, with the counts in a lent table: 14, or 2 if the table is too short.
pub fn report_into(reel: &[u8], tally: &mut [u32]) -> Result<Totals, Refusal>
    ensures fact { Reported reel.now (leb 24 (length tally.old)) (number_of result)
        (accepted_of result) (sum_of result) (greatest_of result) (first_of result) }
    ensures tally { tally.new ≡ written (number_of result) (tab 24 (images_with reel.now)) tally.old }
{
    if !sequence_ok(reel) {
        return Err(Refusal::Sequence);
    }
    if tally.len() < PLACES {
        return Err(Refusal::Tables);
    }
    let sheet = sheet_of(reel);
    let counts = sheet.tally;
    write_tally(counts, tally);
    Ok(Totals {
        accepted: counts[0],
        sum: sheet.sum,
        greatest: sheet.greatest,
        // the definition `first_greatest` and the C interface have the number of images where none is accepted
        first: sheet.first.unwrap_or(image_count(reel)),
    })
}

// The same with the counts by value.
pub fn report(reel: &[u8]) -> Result<Report, Refusal>
    ensures fact { let told = totals_of result in Reported reel.now true (number_of result)
        (accepted_of told) (sum_of told) (greatest_of told) (first_of told) }
    ensures tally { IfOk result (λ r. r.tally ≡ tab 24 (images_with reel.now)) }
{
    let mut tally = [0u32; 24];
    let totals = report_into(reel, &mut tally)?;
    Ok(Report {
        accepted: totals.accepted,
        tally,
        sum: totals.sum,
        greatest: totals.greatest,
        first: totals.first,
    })
}
