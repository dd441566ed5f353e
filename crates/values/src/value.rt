// The types of a value whose root is taken, each with the type of its root.
ghost use Rattle.std.specs.Prelude.{◌≡◌, refl};
ghost use Rattle.defs.specs.Kinds.{Width, u8, u16, u32, u64, bits_of, root_bits};

use crate::word::Word;

// An impl says for its type what each law asks, and none may be a macro's: so there are four.
pub trait Value: Word {
    type Root: Word;

    ghost width: { Width };

    // The number of a root as a value.
    fn of_root(root: Self::Root) -> Self
        ensures { Self.number result ≡ Self.Root.number root };

    ghost bits_law: { Self.bits ≡ bits_of width };

    ghost root_bits_law: { Self.Root.bits ≡ root_bits width };
}

impl Value for u8 {
    type Root = u8;

    ghost width = { u8 };

    fn of_root(root: u8) -> u8 {
        root
    }

    ghost bits_law = { refl };

    ghost root_bits_law = { refl };
}

impl Value for u16 {
    type Root = u8;

    ghost width = { u16 };

    fn of_root(root: u8) -> u16 {
        root as u16
    }

    ghost bits_law = { refl };

    ghost root_bits_law = { refl };
}

impl Value for u32 {
    type Root = u16;

    ghost width = { u32 };

    fn of_root(root: u16) -> u32 {
        root as u32
    }

    ghost bits_law = { refl };

    ghost root_bits_law = { refl };
}

impl Value for u64 {
    type Root = u32;

    ghost width = { u64 };

    fn of_root(root: u32) -> u64 {
        root as u64
    }

    ghost bits_law = { refl };

    ghost root_bits_law = { refl };
}
