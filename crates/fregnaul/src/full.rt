// Full calls: root, rest, start and steps.
ghost use Rattle.defs.specs.Kinds.{square, cube, u8, u16, u32, u64};
ghost use Rattle.defs.specs.Answers.{Full};
ghost use Rattle.fregnaul.specs.InC.{Same};

use roots::RootRem;

// C takes no type parameter, so that each width has a struct of its own.
#[repr(C)]
#[derive(Clone, Copy)]
pub struct RootRem8 {
    pub root: u8,
    pub rest: u8,
    pub start: u8,
    pub steps: u8,
}

impl From<RootRem<u8, u8>> for RootRem8 {
    ghost from_gives = { λ a c. Same a c.root c.rest c.start c.steps };

    fn from(a: RootRem<u8, u8>) -> RootRem8 {
        RootRem8 {
            root: a.root,
            rest: a.rest,
            start: a.start,
            steps: a.steps,
        }
    }
}

#[repr(C)]
#[derive(Clone, Copy)]
pub struct RootRem16 {
    pub root: u8,
    pub rest: u16,
    pub start: u8,
    pub steps: u8,
}

impl From<RootRem<u16, u8>> for RootRem16 {
    ghost from_gives = { λ a c. Same a c.root c.rest c.start c.steps };

    fn from(a: RootRem<u16, u8>) -> RootRem16 {
        RootRem16 {
            root: a.root,
            rest: a.rest,
            start: a.start,
            steps: a.steps,
        }
    }
}

#[repr(C)]
#[derive(Clone, Copy)]
pub struct RootRem32 {
    pub root: u16,
    pub rest: u32,
    pub start: u16,
    pub steps: u16,
}

impl From<RootRem<u32, u16>> for RootRem32 {
    ghost from_gives = { λ a c. Same a c.root c.rest c.start c.steps };

    fn from(a: RootRem<u32, u16>) -> RootRem32 {
        RootRem32 {
            root: a.root,
            rest: a.rest,
            start: a.start,
            steps: a.steps,
        }
    }
}

#[repr(C)]
#[derive(Clone, Copy)]
pub struct RootRem64 {
    pub root: u32,
    pub rest: u64,
    pub start: u32,
    pub steps: u32,
}

impl From<RootRem<u64, u32>> for RootRem64 {
    ghost from_gives = { λ a c. Same a c.root c.rest c.start c.steps };

    fn from(a: RootRem<u64, u32>) -> RootRem64 {
        RootRem64 {
            root: a.root,
            rest: a.rest,
            start: a.start,
            steps: a.steps,
        }
    }
}

#[unsafe(no_mangle)]
pub extern "C" fn fregnaul_sqrt_rem_u8(n: u8) -> RootRem8
    ensures { Full square u8 n result.root result.rest result.start result.steps }
{
    RootRem8::from(roots::sqrt_rem(n))
}

#[unsafe(no_mangle)]
pub extern "C" fn fregnaul_cbrt_rem_u8(n: u8) -> RootRem8
    ensures { Full cube u8 n result.root result.rest result.start result.steps }
{
    RootRem8::from(roots::cbrt_rem(n))
}

#[unsafe(no_mangle)]
pub extern "C" fn fregnaul_sqrt_rem_u16(n: u16) -> RootRem16
    ensures { Full square u16 n result.root result.rest result.start result.steps }
{
    RootRem16::from(roots::sqrt_rem(n))
}

#[unsafe(no_mangle)]
pub extern "C" fn fregnaul_cbrt_rem_u16(n: u16) -> RootRem16
    ensures { Full cube u16 n result.root result.rest result.start result.steps }
{
    RootRem16::from(roots::cbrt_rem(n))
}

#[unsafe(no_mangle)]
pub extern "C" fn fregnaul_sqrt_rem_u32(n: u32) -> RootRem32
    ensures { Full square u32 n result.root result.rest result.start result.steps }
{
    RootRem32::from(roots::sqrt_rem(n))
}

#[unsafe(no_mangle)]
pub extern "C" fn fregnaul_cbrt_rem_u32(n: u32) -> RootRem32
    ensures { Full cube u32 n result.root result.rest result.start result.steps }
{
    RootRem32::from(roots::cbrt_rem(n))
}

#[unsafe(no_mangle)]
pub extern "C" fn fregnaul_sqrt_rem_u64(n: u64) -> RootRem64
    ensures { Full square u64 n result.root result.rest result.start result.steps }
{
    RootRem64::from(roots::sqrt_rem(n))
}

#[unsafe(no_mangle)]
pub extern "C" fn fregnaul_cbrt_rem_u64(n: u64) -> RootRem64
    ensures { Full cube u64 n result.root result.rest result.start result.steps }
{
    RootRem64::from(roots::cbrt_rem(n))
}
