// Whether bytes are a plan file: the trailer, then the plan that it tells of.
ghost use Rattle.std.specs.Prelude.{◌≡◌, ◌+◌, ◌≤◌, ◌&&◌, IfOk, eqb, leb, length};
ghost use Rattle.ladder.specs.PlanFile.{trailer_size, body_length, distance_in, plan_in};
ghost use Rattle.ladder.specs.Refusals.{distance, plan_refusal, unpack_refusal};
ghost use Rattle.loose.specs.PlanOf.{plan_of};
ghost use Rattle.refusal.specs.Answers.{refusal_of};
ghost use Rattle.refuse.specs.Inner.{InRange};
ghost use Rattle.planfile.specs.Inner.{BodyCut};

use crate::trailer::{Trailer, read_trailer};
use crate::unpacking::Unpacked;
use judge::read_refusal;
use loose::Plan;
use refusal::Refusal;
use refuse::{TRAILER_SIZE, bits_length, unless};

impl<'a> Trailer<'a> {
    // The body, which ends where the trailer begins.
    pub fn body(&self) -> &'a [u8]
        requires { distance_in self.now.file.now + trailer_size ≤ length self.now.file.now }
        ensures { BodyCut self.now.file.now self.now.file.ref_ptr result.now result.ref_ptr }
    {
        let to = self.file.len() - TRAILER_SIZE;
        &self.file[to - self.distance as usize..to]
    }

    // The plan that the file holds.
    fn plan(&self) -> Plan<'a>
        requires { 0 ≡ distance self.now.file.now }
        ensures { plan_of result ≡ plan_in self.now.file.now }
    {
        let Unpacked { d, l, row } = self.says;
        let (start, bits) = self.body().split_at(d as usize);
        Plan {
            d,
            l,
            start,
            bits,
            row,
        }
    }

    // The back distance is the body's length, and as many bytes stand before the trailer.
    fn is_far(&self) -> bool
        requires { InRange self.now.says.d self.now.says.l }
        ensures { result ≡ eqb self.now.distance (body_length self.now.says.d self.now.says.l)
            && leb (self.now.distance + trailer_size) (length self.now.file.now) }
    {
        self.distance == self.says.d + bits_length(self.says.d, self.says.l)
            && self.distance + TRAILER_SIZE as u64 <= self.file.len() as u64
    }

    // Number 9 of the back distance.
    #[tactic(auto, using(crate::proofs::Held::distance_read))]
    fn distance_refusal(&self) -> Result<(), Refusal>
        requires { InRange self.now.says.d self.now.says.l }
        ensures { refusal_of result ≡ distance self.now.file.now }
    {
        unless(self.is_far(), Refusal::Trailer)
    }

    // The refusal of the plan: 1; 2; 9 for the distance; 5; 6.
    #[tactic(auto, using(crate::proofs::Held::plan_row, refusal::proofs::Laws::then_refused, refusal::proofs::Laws::then_passed))]
    fn plan_refusal(&self) -> Result<(), Refusal>
        ensures { refusal_of result ≡ plan_refusal (plan_in self.now.file.now) (distance self.now.file.now) }
    {
        refuse::range(self.says.d, self.says.l)?;
        self.distance_refusal()?;
        read_refusal(&self.plan())
    }
}

// What the trailer of a plan file says. Refuses 9 for short or mark; 1; 2; 9 for the distance; 5; 6.
#[tactic(auto, unfolding(ladder::specs::Refusals::unpack_refusal), using(refusal::proofs::Laws::then_refused, refusal::proofs::Laws::then_passed))]
pub fn judged(file: &[u8]) -> Result<Trailer<'_>, Refusal>
    ensures refusal { refusal_of result ≡ unpack_refusal file.now }
    ensures same { IfOk result (λ t. t.file ≡ file.entry) }
{
    let trailer = read_trailer(file)?;
    trailer.plan_refusal()?;
    Ok(trailer)
}

// The plan that a file holds, in the file's own bytes. Refuses as unpack.
pub fn held_plan(file: &[u8]) -> Result<Plan<'_>, Refusal>
    ensures refusal { refusal_of result ≡ unpack_refusal file.now }
    ensures plan { IfOk result (λ p. plan_of p ≡ plan_in file.now) }
{
    let trailer = judged(file)?;
    Ok(trailer.plan())
}
