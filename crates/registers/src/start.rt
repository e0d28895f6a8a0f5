// The start registers of a run.
ghost use Rattle.std.specs.Prelude.{◌≡◌, suc, pred, map, length, take};
ghost use Rattle.ladder.specs.Registers.{start_registers};
ghost use Rattle.registers.specs.Inner.{Startable};

use crate::modular::Modulus;
use crate::words::Registers;

// Register 0 is 0; for each place of the start order comes the register before it plus the element of the column that stands there.
pub fn start_registers(m: Modulus, start: &[u8], elements: &[u64]) -> Registers
    requires { Startable m start.now elements.now }
    ensures { take (suc (length start.now)) result.words ≡ start_registers m elements.now (map pred start.now) }
{
    let mut words = [0u64; 9];
    for (k, column) in start.iter().enumerate() {
        let j = *column as usize - 1;
        words[k + 1] = m.add(words[k], elements[j]);
    }
    Registers { words }
}
