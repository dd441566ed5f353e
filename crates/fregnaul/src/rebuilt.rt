// Rebuilding a value from root and rest: refusals 5 and 6.
ghost use Rattle.defs.specs.Kinds.{square, cube, u8, u16, u32, u64};
ghost use Rattle.defs.specs.Rebuild.{Rebuilt};
ghost use Rattle.fregnaul.specs.InC.{Valued};

use refusals::Refusal;

// C has no type parameters, so each width has a struct of its own: a refusal's number, or 0, beside the value, or 0.
#[repr(C)]
#[derive(Clone, Copy)]
pub struct Rebuilt8 {
    pub refusal: u8,
    pub value: u8,
}

#[repr(C)]
#[derive(Clone, Copy)]
pub struct Rebuilt16 {
    pub refusal: u8,
    pub value: u16,
}

#[repr(C)]
#[derive(Clone, Copy)]
pub struct Rebuilt32 {
    pub refusal: u8,
    pub value: u32,
}

#[repr(C)]
#[derive(Clone, Copy)]
pub struct Rebuilt64 {
    pub refusal: u8,
    pub value: u64,
}

impl From<Result<u8, Refusal>> for Rebuilt8 {
    ghost from_gives = { λ rebuilt answer. Valued rebuilt answer.refusal answer.value };

    fn from(rebuilt: Result<u8, Refusal>) -> Rebuilt8 {
        match rebuilt {
            Ok(value) => Rebuilt8 { refusal: 0, value },
            Err(refusal) => Rebuilt8 {
                refusal: refusal.number(),
                value: 0,
            },
        }
    }
}

impl From<Result<u16, Refusal>> for Rebuilt16 {
    ghost from_gives = { λ rebuilt answer. Valued rebuilt answer.refusal answer.value };

    fn from(rebuilt: Result<u16, Refusal>) -> Rebuilt16 {
        match rebuilt {
            Ok(value) => Rebuilt16 { refusal: 0, value },
            Err(refusal) => Rebuilt16 {
                refusal: refusal.number(),
                value: 0,
            },
        }
    }
}

impl From<Result<u32, Refusal>> for Rebuilt32 {
    ghost from_gives = { λ rebuilt answer. Valued rebuilt answer.refusal answer.value };

    fn from(rebuilt: Result<u32, Refusal>) -> Rebuilt32 {
        match rebuilt {
            Ok(value) => Rebuilt32 { refusal: 0, value },
            Err(refusal) => Rebuilt32 {
                refusal: refusal.number(),
                value: 0,
            },
        }
    }
}

impl From<Result<u64, Refusal>> for Rebuilt64 {
    ghost from_gives = { λ rebuilt answer. Valued rebuilt answer.refusal answer.value };

    fn from(rebuilt: Result<u64, Refusal>) -> Rebuilt64 {
        match rebuilt {
            Ok(value) => Rebuilt64 { refusal: 0, value },
            Err(refusal) => Rebuilt64 {
                refusal: refusal.number(),
                value: 0,
            },
        }
    }
}

#[unsafe(no_mangle)]
pub extern "C" fn fregnaul_rebuild_square_u8(root: u8, rest: u8) -> Rebuilt8
    ensures { Rebuilt square u8 root rest result.refusal result.value }
{
    rebuild::square(root, rest).into()
}

#[unsafe(no_mangle)]
pub extern "C" fn fregnaul_rebuild_cube_u8(root: u8, rest: u8) -> Rebuilt8
    ensures { Rebuilt cube u8 root rest result.refusal result.value }
{
    rebuild::cube(root, rest).into()
}

#[unsafe(no_mangle)]
pub extern "C" fn fregnaul_rebuild_square_u16(root: u8, rest: u16) -> Rebuilt16
    ensures { Rebuilt square u16 root rest result.refusal result.value }
{
    rebuild::square(root, rest).into()
}

#[unsafe(no_mangle)]
pub extern "C" fn fregnaul_rebuild_cube_u16(root: u8, rest: u16) -> Rebuilt16
    ensures { Rebuilt cube u16 root rest result.refusal result.value }
{
    rebuild::cube(root, rest).into()
}

#[unsafe(no_mangle)]
pub extern "C" fn fregnaul_rebuild_square_u32(root: u16, rest: u32) -> Rebuilt32
    ensures { Rebuilt square u32 root rest result.refusal result.value }
{
    rebuild::square(root, rest).into()
}

#[unsafe(no_mangle)]
pub extern "C" fn fregnaul_rebuild_cube_u32(root: u16, rest: u32) -> Rebuilt32
    ensures { Rebuilt cube u32 root rest result.refusal result.value }
{
    rebuild::cube(root, rest).into()
}

#[unsafe(no_mangle)]
pub extern "C" fn fregnaul_rebuild_square_u64(root: u32, rest: u64) -> Rebuilt64
    ensures { Rebuilt square u64 root rest result.refusal result.value }
{
    rebuild::square(root, rest).into()
}

#[unsafe(no_mangle)]
pub extern "C" fn fregnaul_rebuild_cube_u64(root: u32, rest: u64) -> Rebuilt64
    ensures { Rebuilt cube u64 root rest result.refusal result.value }
{
    rebuild::cube(root, rest).into()
}
