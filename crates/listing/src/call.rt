// The public call `listing`.
ghost use Rattle.std.specs.Prelude.{◌≡◌, IfOk};
ghost use Rattle.ladder.specs.PlanFile.{plan_in};
ghost use Rattle.ladder.specs.Refusals.{listing_refusal};
ghost use Rattle.loose.specs.PlanOf.{plan_of};
ghost use Rattle.refusal.specs.Answers.{refusal_of, answer_or};
ghost use Rattle.listing.specs.Promise.{ListingPromise};

use loose::Plan;
use planfile::held_plan;
use refusal::Refusal;
use refuse::{shape, unless};
use text::{LONGEST_TEXT, Lines};

// The longest file that is listed.
pub const LONGEST_FILE: usize = 4096;

// The plan that a file holds, where it is listed. Refuses 10 for a long file, 3 for another buffer, then as unpack.
#[tactic(auto, using(crate::proofs::Judged::listing_row, refusal::proofs::Laws::then_refused, refusal::proofs::Laws::then_passed))]
fn listed_plan<'a>(file: &'a [u8], text: &[u8]) -> Result<Plan<'a>, Refusal>
    ensures refusal { refusal_of result ≡ listing_refusal file.now text.now }
    ensures plan { IfOk result (λ p. plan_of p ≡ plan_in file.now) }
{
    unless(file.len() <= LONGEST_FILE, Refusal::Big)?;
    shape(text.len(), LONGEST_TEXT as u64)?;
    held_plan(file)
}

// Puts the lines of a file's plan, of any bytes, at the start of a buffer of exactly 8,589 bytes, and answers how many bytes these are; those
// past them are as they came. Where it refuses (10, 3, then as unpack), all are.
#[tactic(auto, using(crate::proofs::Kept::kept_refused))]
pub fn listing(file: &[u8], text: &mut [u8]) -> Result<usize, Refusal>
    ensures { ListingPromise file.now text.old (refusal_of result) (answer_or 0 result) text.new }
{
    let plan = listed_plan(file, text)?;
    let mut lines = Lines::new();
    lines.plan_lines(&plan);
    let listed = lines.text();
    let length = listed.len();
    text[..length].copy_from_slice(listed);
    Ok(length)
}
