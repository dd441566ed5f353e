// Where a fix-up starts.
ghost use Rattle.std.specs.Prelude.{◌≡◌, ◌≤◌};
ghost use Rattle.defs.specs.Cells.{bound};
ghost use Rattle.defs.specs.Parts.{Starts};

mod at16;
mod at32;
mod at64;
mod at8;

use values::{Power, Value};

// The start S of each value that has its top bits: a formula of its own for each type and power.
pub trait Start<K: Power>: Value {
    // The least value that has its top bits.
    fn bound() -> Self
        ensures { Self.number result ≡ bound K.kind Self.width };

    fn start(self) -> Self::Root
        requires { bound K.kind Self.width ≤ Self.number self }
        ensures { Starts K.kind Self.width (Self.number self) (Self.Root.number result) };
}
