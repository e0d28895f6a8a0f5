// The plan file: pack, unpack, the body's place, and the listing.
ghost use Rattle.ladder.specs.Plan.{plan_lent};
ghost use Rattle.planfile.specs.Promise.{PackPromise, UnpackPromise};
ghost use Rattle.listing.specs.Promise.{ListingPromise};
ghost use Rattle.capi.specs.Answers.{unpacked};
ghost use Rattle.capi.specs.Promise.{BodyPlacePromise};

use plan::{Plan, TRAILER_SIZE, Unpacked};
use refusal::parts;

// Writes the file of a plan.
#[unsafe(no_mangle)]
pub extern "C" fn immarduzh_pack(
    d: u64,
    l: u64,
    start: &[u8],
    bits: &[u8],
    row: u64,
    file: &mut [u8],
) -> u64
    ensures { PackPromise (plan_lent d l start.now bits.now row) file.old result file.new }
{
    let plan = Plan {
        d,
        l,
        start,
        bits,
        row,
    };
    parts(plan::pack(&plan, file), ()).0
}

// Writes the numbers of a plan file.
#[unsafe(no_mangle)]
pub extern "C" fn immarduzh_unpack(file: &[u8], d: &mut u64, l: &mut u64, row: &mut u64) -> u64
    ensures { UnpackPromise file.now result (unpacked d.new l.new row.new) }
{
    let none = Unpacked { d: 0, l: 0, row: 0 };
    let (refusal, said) = parts(plan::unpack(file), none);
    *d = said.d;
    *l = said.l;
    *row = said.row;
    refusal
}

// Writes the place and the length of the body within a plan file: it ends where the trailer begins.
#[unsafe(no_mangle)]
pub extern "C" fn immarduzh_body(file: &[u8], offset: &mut u64, length: &mut u64) -> u64
    ensures { BodyPlacePromise file.now result offset.new length.new }
{
    let size = plan::body(file).len();
    *length = size as u64;
    match plan::unpack(file) {
        Ok(_) => {
            *offset = (file.len() - TRAILER_SIZE - size) as u64;
            plan::OK
        }
        Err(refusal) => {
            *offset = 0;
            refusal.number()
        }
    }
}

// Writes the text that lists a plan file, and its length.
#[unsafe(no_mangle)]
pub extern "C" fn immarduzh_listing(file: &[u8], text: &mut [u8], length: &mut u64) -> u64
    ensures { ListingPromise file.now text.old result length.new text.new }
{
    let (refusal, size) = parts(plan::listing(file, text), 0);
    *length = size as u64;
    refusal
}
