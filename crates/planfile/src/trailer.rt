// The trailer at the end of a file: its fields stand in the last 12 bytes, the mark in the last four.
ghost use Rattle.std.specs.Prelude.{◌≡◌, ◌∷◌, ◌++◌, ◌≤◌, ◌<◌, ◌&&◌, IfOk, leb, length};
ghost use Rattle.ladder.specs.PlanFile.{trailer_size, mark_in, two_bytes, four_bytes, mark};
ghost use Rattle.ladder.specs.Refusals.{same_numbers, trailer};
ghost use Rattle.refusal.specs.Answers.{refusal_of};
ghost use Rattle.planfile.specs.Inner.{TrailerSays};

use crate::unpacking::Unpacked;
use loose::Plan;
use refusal::Refusal;
use refuse::{TRAILER_SIZE, unless};

// The four bytes that a plan file ends with.
const MARK: [u8; 4] = *b"dmul";

// A file with what its trailer says.
#[derive(Clone, Copy)]
pub struct Trailer<'a> {
    pub file: &'a [u8],
    pub says: Unpacked,
    pub distance: u64,
    pub ghost read: { TrailerSays file.now says.d says.l says.row distance },
}

// The fields of the last 12 bytes, numbers low byte first.
#[tactic(auto, unfolding(ladder::specs::PlanFile::trailer_size))]
fn fields(file: &[u8]) -> Trailer<'_>
    requires { trailer_size ≤ length file.now }
    ensures { result.file ≡ file.entry }
{
    let trailer = &file[file.len() - TRAILER_SIZE..];
    let l = u16::from_le_bytes([trailer[2], trailer[3]]);
    let distance = u32::from_le_bytes([trailer[4], trailer[5], trailer[6], trailer[7]]);
    Trailer {
        file,
        says: Unpacked {
            d: u64::from(trailer[0]),
            l: u64::from(l),
            row: u64::from(trailer[1]),
        },
        distance: u64::from(distance),
    }
}

// Whether a file has room for a trailer, and ends with the mark.
#[tactic(auto, using(crate::proofs::Marks::same_bytes), unfolding(ladder::specs::PlanFile::trailer_size, ladder::specs::PlanFile::mark_in, ladder::specs::PlanFile::mark))]
fn marked(file: &[u8]) -> bool
    ensures { result ≡ leb trailer_size (length file.now) && same_numbers (mark_in file.now) mark }
{
    file.len() >= TRAILER_SIZE && file.ends_with(&MARK)
}

// Reads the trailer of a file: 9 for a file that is shorter or does not end with the mark.
#[tactic(auto, unfolding(ladder::specs::Refusals::trailer))]
pub fn read_trailer(file: &[u8]) -> Result<Trailer<'_>, Refusal>
    ensures refusal { refusal_of result ≡ trailer file.now }
    ensures same { IfOk result (λ t. t.file ≡ file.entry) }
{
    unless(marked(file), Refusal::Trailer)?;
    Ok(fields(file))
}

// The trailer of a plan's file, whose body has `distance` bytes.
#[tactic(auto, unfolding(ladder::specs::PlanFile::two_bytes, ladder::specs::PlanFile::four_bytes, ladder::specs::PlanFile::mark))]
pub fn trailer_of(plan: &Plan, distance: usize) -> [u8; TRAILER_SIZE]
    requires { (plan.now.d < 256) × ((plan.now.row < 256) × ((plan.now.l < 65536) × (distance < 65536))) }
    ensures { result ≡ plan.now.d ∷ plan.now.row ∷ two_bytes plan.now.l ++ four_bytes distance ++ mark }
{
    let [l0, l1] = (plan.l as u16).to_le_bytes();
    let [n0, n1, n2, n3] = (distance as u32).to_le_bytes();
    [
        plan.d as u8,
        plan.row as u8,
        l0,
        l1,
        n0,
        n1,
        n2,
        n3,
        MARK[0],
        MARK[1],
        MARK[2],
        MARK[3],
    ]
}
