// Roots alone. In C each width and kind is a function of its own name, here and in the files beside.
ghost use Rattle.defs.specs.Kinds.{square, cube};
ghost use Rattle.defs.specs.Roots.{IsRoot};

#[unsafe(no_mangle)]
pub extern "C" fn fregnaul_sqrt_u8(n: u8) -> u8
    ensures { IsRoot square n result }
{
    roots::sqrt(n)
}

#[unsafe(no_mangle)]
pub extern "C" fn fregnaul_cbrt_u8(n: u8) -> u8
    ensures { IsRoot cube n result }
{
    roots::cbrt(n)
}

#[unsafe(no_mangle)]
pub extern "C" fn fregnaul_sqrt_u16(n: u16) -> u8
    ensures { IsRoot square n result }
{
    roots::sqrt(n)
}

#[unsafe(no_mangle)]
pub extern "C" fn fregnaul_cbrt_u16(n: u16) -> u8
    ensures { IsRoot cube n result }
{
    roots::cbrt(n)
}

#[unsafe(no_mangle)]
pub extern "C" fn fregnaul_sqrt_u32(n: u32) -> u16
    ensures { IsRoot square n result }
{
    roots::sqrt(n)
}

#[unsafe(no_mangle)]
pub extern "C" fn fregnaul_cbrt_u32(n: u32) -> u16
    ensures { IsRoot cube n result }
{
    roots::cbrt(n)
}

#[unsafe(no_mangle)]
pub extern "C" fn fregnaul_sqrt_u64(n: u64) -> u32
    ensures { IsRoot square n result }
{
    roots::sqrt(n)
}

#[unsafe(no_mangle)]
pub extern "C" fn fregnaul_cbrt_u64(n: u64) -> u32
    ensures { IsRoot cube n result }
{
    roots::cbrt(n)
}
