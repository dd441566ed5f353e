// The list of the Rust's answers: runs of 32 bytes, lowest byte first (oracle/README.md).
ghost use Rattle.std.specs.Prelude.{◌<◌};

use bytes::Buf;
use std::fmt;
use values::Kind;

// The type of a value.
#[derive(Clone, Copy, Debug, PartialEq, Eq)]
pub(crate) enum Width {
    U8,
    U16,
    U32,
    U64,
}

impl Width {
    pub(crate) const ALL: [Width; 4] = [Width::U8, Width::U16, Width::U32, Width::U64];

    fn of_bits(bits: u8) -> Option<Width> {
        match bits {
            8 => Some(Width::U8),
            16 => Some(Width::U16),
            32 => Some(Width::U32),
            64 => Some(Width::U64),
            _ => None,
        }
    }

    // Its place in `ALL`.
    pub(crate) fn row(self) -> usize
        ensures { result < 4 }
    {
        match self {
            Width::U8 => 0,
            Width::U16 => 1,
            Width::U32 => 2,
            Width::U64 => 3,
        }
    }
}

impl fmt::Display for Width {
    fn fmt<W: fmt::Write>(&self, f: &mut fmt::Formatter<W>) -> fmt::Result {
        f.write_str(match self {
            Width::U8 => "u8",
            Width::U16 => "u16",
            Width::U32 => "u32",
            Width::U64 => "u64",
        })
    }
}

// `count` values from `value` on that share root, start and steps, with rests that rise by one.
#[derive(Clone, Copy)]
pub(crate) struct Run {
    pub(crate) value: u64,
    pub(crate) rest: u64,
    pub(crate) root: u64,
    pub(crate) start: u64,
    pub(crate) count: u64,
    pub(crate) kind: Kind,
    // none where no type has the width that the list says
    pub(crate) width: Option<Width>,
    pub(crate) steps: u64,
}

// Every degree but 2 is taken for that of cubes.
fn kind_of_degree(degree: u8) -> Kind {
    if degree == 2 {
        Kind::Square
    } else {
        Kind::Cube
    }
}

// The fields stand in the order of the bytes.
impl From<[u8; 32]> for Run {
    fn from(bytes: [u8; 32]) -> Run {
        let mut rest: &[u8] = &bytes;
        Run {
            value: rest.get_u64_le(),
            rest: rest.get_u64_le(),
            root: rest.get_u32_le() as u64,
            start: rest.get_u32_le() as u64,
            count: rest.get_u16_le() as u64,
            kind: kind_of_degree(rest.get_u8()),
            width: Width::of_bits(rest.get_u8()),
            steps: rest.get_u8() as u64,
        }
    }
}
