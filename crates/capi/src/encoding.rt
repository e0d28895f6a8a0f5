// Encode.
ghost use Rattle.encode.specs.Promise.{EncodePromise};

use refusal::parts;

// Writes the start order and the bits of the plan of d scalars of l bits, and its row.
#[unsafe(no_mangle)]
pub extern "C" fn immarduzh_encode(
    d: u64,
    l: u64,
    scalars: &[u64],
    start: &mut [u8],
    bits: &mut [u8],
    row: &mut u64,
) -> u64
    ensures { EncodePromise d l scalars.now start.old bits.old result row.new start.new bits.new }
{
    let (refusal, reached) = parts(plan::encode(d, l, scalars, start, bits), 0);
    *row = reached;
    refusal
}
