// The shift that brings a value to its top bits.
ghost use Rattle.std.specs.Prelude.{◌*◌, ◌<◌};
ghost use Rattle.defs.specs.Kinds.{degree};
ghost use Rattle.defs.specs.Cells.{bound};
ghost use Rattle.defs.specs.Parts.{Shifts};

use values::{Power, Value};

// By how much the root goes back, which is the shift for each factor of the power: as much as the leading zeros have room for.
// What it asks its two callers ask again: a type for such a value, with its constructor, would be longer than the lines.
pub(crate) fn back_of<K: Power, N: Value>(n: N) -> u32
    requires some { 0 < N.number n }
    requires more_than_a_byte { 0 < bound K.kind N.width }
    ensures { Shifts K.kind N.width (N.number n) (degree K.kind * result) result }
{
    n.fitted().leading_zeros() / K::DEGREE
}
