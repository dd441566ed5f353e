// The kind of a root where it is read. Where it is known when a call is compiled it is a `Power`.
ghost use Rattle.std.specs.Prelude.{◌≡◌};
ghost use Rattle.defs.specs.Kinds.{degree};
ghost use Rattle.values.specs.Kinds.{kind_of};

use std::fmt;

#[derive(Clone, Copy, Debug, PartialEq, Eq)]
pub enum Kind {
    Square,
    Cube,
}

impl Kind {
    // How many factors its power has.
    pub fn degree(self) -> u32
        ensures { result ≡ degree (kind_of self) }
    {
        match self {
            Kind::Square => 2,
            Kind::Cube => 3,
        }
    }
}

impl fmt::Display for Kind {
    fn fmt<W: fmt::Write>(&self, f: &mut fmt::Formatter<W>) -> fmt::Result {
        f.write_str(match self {
            Kind::Square => "square",
            Kind::Cube => "cube",
        })
    }
}
