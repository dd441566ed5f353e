// The guesses that the entries stand for.
ghost use Rattle.std.specs.Prelude.{◌≡◌, ◌<◌, get_or};
ghost use Rattle.defs.specs.Tables.{entry};
ghost use Rattle.defs.specs.Starts.Letters.{guess};

use crate::{RCBRT_TAB, RSQRT_TAB};
use values::{Cube, Power, Square};

// Element i of a list of bytes, and 0 past its end.
fn at(bytes: &[u8], i: usize) -> u8
    ensures { result ≡ get_or bytes.now i 0 }
{
    bytes.get(i).copied().unwrap_or_default()
}

// A power whose first guesses have a table.
pub trait Table: Power {
    // Entry i of its table, and 0 past the table's end.
    fn entry(i: usize) -> u8
        ensures { result ≡ entry Self.kind i };
}

impl Table for Square {
    #[tactic(auto, unfolding(defs::specs::Tables::rsqrt_tab))]
    fn entry(i: usize) -> u8 {
        at(&RSQRT_TAB, i)
    }
}

impl Table for Cube {
    #[tactic(auto, unfolding(defs::specs::Tables::rcbrt_tab))]
    fn entry(i: usize) -> u8 {
        at(&RCBRT_TAB, i)
    }
}

// 256 and entry i of the power's table, a number of nine bits; 256 past the table's end.
pub fn guess<K: Table>(i: usize) -> u32
    ensures { (result ≡ guess K.kind i) × (result < 512) }
{
    256 + K::entry(i) as u32
}
