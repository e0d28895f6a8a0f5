// The public call `pack`: a plan written as a file, with nothing before its body.
ghost use Rattle.std.specs.Prelude.{◌≡◌, ◌-◌, ◌%◌, ◌^◌, ◌<◌, length};
ghost use Rattle.ladder.specs.PlanFile.{file_of};
ghost use Rattle.ladder.specs.Refusals.{pack_refusal};
ghost use Rattle.loose.specs.PlanOf.{plan_of};
ghost use Rattle.refusal.specs.Answers.{refusal_of};
ghost use Rattle.planfile.specs.Promise.{PackPromise};

use crate::trailer::trailer_of;
use judge::loose_refusal;
use loose::Plan;
use refusal::Refusal;
use refuse::{file_length, shape};

// A byte without its lowest n bits.
fn cleared(byte: u8, n: usize) -> u8
    requires { n < 8 }
    ensures { result ≡ byte - byte % 2 ^ n }
{
    byte - byte % (1u8 << n)
}

// Copies bytes. By hand: with the library's `copy_from_slice`, of slices that are lent, the archive for C would need `memmove` from outside.
fn copy(from: &[u8], to: &mut [u8])
    requires { length to.old ≡ length from.now }
    ensures { to.new ≡ from.now }
{
    for (i, byte) in to.iter_mut().enumerate() {
        *byte = from[i];
    }
}

// Start order, bits with 0 for filling, and the trailer.
#[tactic(auto, using(crate::proofs::Laid::sizes))]
fn write_file(plan: &Plan, file: &mut [u8])
    requires { 0 ≡ pack_refusal (plan_of plan.now) file.old }
    ensures { file.new ≡ file_of (plan_of plan.now) }
{
    let d = plan.start.len();
    let bytes = plan.bits.len();
    let filling = 8 * bytes - plan.l as usize * d;
    let (start, rest) = file.split_at_mut(d);
    let (bits, trailer) = rest.split_at_mut(bytes);
    copy(plan.start, start);
    copy(plan.bits, bits);
    bits[bytes - 1] = cleared(bits[bytes - 1], filling);
    trailer.copy_from_slice(&trailer_of(plan, d + bytes));
}

// The refusal of pack: 1, 2, 3, 5, 6.
fn pack_refusal(plan: &Plan, file: &[u8]) -> Result<(), Refusal>
    ensures { refusal_of result ≡ pack_refusal (plan_of plan.now) file.now }
{
    loose_refusal(plan, |d, l| shape(file.len(), file_length(d, l)))
}

// Writes a plan into a file of exactly d + ceil(l * d / 8) + 12 bytes. Where it refuses (1, 2, 3, 5, 6), the file is as it came.
#[tactic(auto, using(crate::proofs::Kept::pack_refused, crate::proofs::Kept::pack_accepted))]
pub fn pack(plan: &Plan, file: &mut [u8]) -> Result<(), Refusal>
    ensures { PackPromise (plan_of plan.now) file.old (refusal_of result) file.new }
{
    pack_refusal(plan, file)?;
    write_file(plan, file);
    Ok(())
}
