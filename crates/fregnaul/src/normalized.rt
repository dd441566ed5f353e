// Normalised calls: refusal 1 below the bound.
ghost use Rattle.defs.specs.Kinds.{square, cube, u16, u32, u64};
ghost use Rattle.defs.specs.Answers.{Normalised};
ghost use Rattle.fregnaul.specs.InC.{Numbered};

use refusals::Refusal;
use roots::RootRem;

// C takes no type parameter and no enum beside a value: a refusal is its number, with zeros. 0 is none.
#[repr(C)]
#[derive(Clone, Copy, Default)]
pub struct NormalizedRootRem16 {
    pub refusal: u8,
    pub root: u8,
    pub rest: u16,
    pub start: u8,
    pub steps: u8,
}

impl From<Result<RootRem<u16, u8>, Refusal>> for NormalizedRootRem16 {
    ghost from_gives = { λ a c. Numbered a c.refusal c.root c.rest c.start c.steps };

    fn from(answered: Result<RootRem<u16, u8>, Refusal>) -> NormalizedRootRem16 {
        match answered {
            Ok(answer) => NormalizedRootRem16 {
                refusal: 0,
                root: answer.root,
                rest: answer.rest,
                start: answer.start,
                steps: answer.steps,
            },
            Err(refusal) => NormalizedRootRem16 {
                refusal: refusal.number(),
                ..NormalizedRootRem16::default()
            },
        }
    }
}

#[repr(C)]
#[derive(Clone, Copy, Default)]
pub struct NormalizedRootRem32 {
    pub refusal: u8,
    pub root: u16,
    pub rest: u32,
    pub start: u16,
    pub steps: u16,
}

impl From<Result<RootRem<u32, u16>, Refusal>> for NormalizedRootRem32 {
    ghost from_gives = { λ a c. Numbered a c.refusal c.root c.rest c.start c.steps };

    fn from(answered: Result<RootRem<u32, u16>, Refusal>) -> NormalizedRootRem32 {
        match answered {
            Ok(answer) => NormalizedRootRem32 {
                refusal: 0,
                root: answer.root,
                rest: answer.rest,
                start: answer.start,
                steps: answer.steps,
            },
            Err(refusal) => NormalizedRootRem32 {
                refusal: refusal.number(),
                ..NormalizedRootRem32::default()
            },
        }
    }
}

#[repr(C)]
#[derive(Clone, Copy, Default)]
pub struct NormalizedRootRem64 {
    pub refusal: u8,
    pub root: u32,
    pub rest: u64,
    pub start: u32,
    pub steps: u32,
}

impl From<Result<RootRem<u64, u32>, Refusal>> for NormalizedRootRem64 {
    ghost from_gives = { λ a c. Numbered a c.refusal c.root c.rest c.start c.steps };

    fn from(answered: Result<RootRem<u64, u32>, Refusal>) -> NormalizedRootRem64 {
        match answered {
            Ok(answer) => NormalizedRootRem64 {
                refusal: 0,
                root: answer.root,
                rest: answer.rest,
                start: answer.start,
                steps: answer.steps,
            },
            Err(refusal) => NormalizedRootRem64 {
                refusal: refusal.number(),
                ..NormalizedRootRem64::default()
            },
        }
    }
}

#[unsafe(no_mangle)]
pub extern "C" fn fregnaul_normalized_sqrt_rem_u16(n: u16) -> NormalizedRootRem16
    ensures { Normalised square u16 n result.refusal result.root result.rest result.start result.steps }
{
    NormalizedRootRem16::from(roots::normalized_sqrt_rem(n))
}

#[unsafe(no_mangle)]
pub extern "C" fn fregnaul_normalized_cbrt_rem_u16(n: u16) -> NormalizedRootRem16
    ensures { Normalised cube u16 n result.refusal result.root result.rest result.start result.steps }
{
    NormalizedRootRem16::from(roots::normalized_cbrt_rem(n))
}

#[unsafe(no_mangle)]
pub extern "C" fn fregnaul_normalized_sqrt_rem_u32(n: u32) -> NormalizedRootRem32
    ensures { Normalised square u32 n result.refusal result.root result.rest result.start result.steps }
{
    NormalizedRootRem32::from(roots::normalized_sqrt_rem(n))
}

#[unsafe(no_mangle)]
pub extern "C" fn fregnaul_normalized_cbrt_rem_u32(n: u32) -> NormalizedRootRem32
    ensures { Normalised cube u32 n result.refusal result.root result.rest result.start result.steps }
{
    NormalizedRootRem32::from(roots::normalized_cbrt_rem(n))
}

#[unsafe(no_mangle)]
pub extern "C" fn fregnaul_normalized_sqrt_rem_u64(n: u64) -> NormalizedRootRem64
    ensures { Normalised square u64 n result.refusal result.root result.rest result.start result.steps }
{
    NormalizedRootRem64::from(roots::normalized_sqrt_rem(n))
}

#[unsafe(no_mangle)]
pub extern "C" fn fregnaul_normalized_cbrt_rem_u64(n: u64) -> NormalizedRootRem64
    ensures { Normalised cube u64 n result.refusal result.root result.rest result.start result.steps }
{
    NormalizedRootRem64::from(roots::normalized_cbrt_rem(n))
}
