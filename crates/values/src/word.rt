// A machine word as contracts see it: the number that it is. What holds of every word's operations is said here once.
ghost use Rattle.std.specs.Prelude.{◌≡◌, ◌+◌, ◌-◌, ◌*◌, ◌/◌, ◌%◌, ◌^◌, ◌<◌, ◌≤◌, ◌==◌, ℕ, Some, refl};
ghost use Rattle.std.specs.Ordering.{nat_cmp};
ghost use Rattle.std.specs.Int.Count.{count_leading_zeros};

use std::ops::{Add, AddAssign, Mul, Shl, Shr, Sub, SubAssign};

// A word of some bits, whose operations are exact where the answer fits. An impl says for its type what each law asks, and none may be a
// macro's: so there are four.
pub trait Word: Copy
    + Drop
    + PartialOrd
    + Add<Self, Output = Self>
    + AddAssign<Self>
    + Sub<Self, Output = Self>
    + SubAssign<Self>
    + Mul<Self, Output = Self>
    + Shl<u32, Output = Self>
    + Shr<u32, Output = Self> {
    // How many bits it has.
    ghost bits: { ℕ };

    // The number that it is.
    ghost number: { Self → ℕ };

    // A byte's number as a word.
    fn of(byte: u8) -> Self
        ensures { number result ≡ byte };

    // The same word, of which it is then known that it fits its bits: a law can't say that, since it speaks of any number.
    fn fitted(self) -> Self
        ensures same { result ≡ self }
        ensures fits { number self < 2 ^ bits };

    fn leading_zeros(self) -> u32
        ensures { result ≡ count_leading_zeros bits (number self) };

    // Its number at 64 bits, the most that a word has.
    fn wide(self) -> u64
        ensures same { result ≡ number self }
        ensures fits { result < 2 ^ bits };

    // The word of a number at 64 bits that fits.
    fn narrowed(wide: u64) -> Self
        requires { wide < 2 ^ bits }
        ensures { number result ≡ wide };

    // The number of the greatest word.
    fn top() -> u64
        ensures { result + 1 ≡ 2 ^ bits };

    ghost eq_law: { (a b : Self) → Self.eq a b ≡ (number a == number b) };

    ghost order_law: { (a b : Self) → Self.partial_cmp a b ≡ Some (nat_cmp (number a) (number b)) };

    ghost can_add_law: { (a b : Self) → number a + number b < 2 ^ bits → Self.can_add a b };

    ghost add_law: { (a b r : Self) → Self.add_gives a b r → number r ≡ number a + number b };

    ghost can_add_assign_law: { (a b : Self) → number a + number b < 2 ^ bits → Self.can_add_assign a b };

    ghost add_assign_law: { (a b r : Self) → Self.add_assign_gives a b r → number r ≡ number a + number b };

    ghost can_sub_law: { (a b : Self) → number b ≤ number a → Self.can_sub a b };

    ghost sub_law: { (a b r : Self) → Self.sub_gives a b r → number r ≡ number a - number b };

    ghost can_sub_assign_law: { (a b : Self) → number b ≤ number a → Self.can_sub_assign a b };

    ghost sub_assign_law: { (a b r : Self) → Self.sub_assign_gives a b r → number r ≡ number a - number b };

    ghost can_mul_law: { (a b : Self) → number a * number b < 2 ^ bits → Self.can_mul a b };

    ghost mul_law: { (a b r : Self) → Self.mul_gives a b r → number r ≡ number a * number b };

    ghost can_shl_law: { (a : Self) (k : ℕ) → k < bits → Self.can_shl a k };

    ghost shl_law: { (a r : Self) (k : ℕ) → Self.shl_gives a k r → number r ≡ number a * 2 ^ k % 2 ^ bits };

    ghost can_shr_law: { (a : Self) (k : ℕ) → k < bits → Self.can_shr a k };

    ghost shr_law: { (a r : Self) (k : ℕ) → Self.shr_gives a k r → number r ≡ number a / 2 ^ k };
}

impl Word for u8 {
    ghost bits = { 8 };

    ghost number = { λ x. x };

    fn of(byte: u8) -> u8 {
        byte
    }

    fn fitted(self) -> u8 {
        self
    }

    fn leading_zeros(self) -> u32 {
        u8::leading_zeros(self)
    }

    fn wide(self) -> u64 {
        self as u64
    }

    fn narrowed(wide: u64) -> u8 {
        wide as u8
    }

    fn top() -> u64 {
        u8::MAX as u64
    }

    ghost eq_law = { λ a b. refl };

    ghost order_law = { λ a b. refl };

    ghost can_add_law = { λ a b h. h };

    ghost add_law = { λ a b r h. h };

    ghost can_add_assign_law = { λ a b h. h };

    ghost add_assign_law = { λ a b r h. h };

    ghost can_sub_law = { λ a b h. h };

    ghost sub_law = { λ a b r h. h };

    ghost can_sub_assign_law = { λ a b h. h };

    ghost sub_assign_law = { λ a b r h. h };

    ghost can_mul_law = { λ a b h. h };

    ghost mul_law = { λ a b r h. h };

    ghost can_shl_law = { λ a k h. h };

    ghost shl_law = { λ a r k h. h };

    ghost can_shr_law = { λ a k h. h };

    ghost shr_law = { λ a r k h. h };
}

impl Word for u16 {
    ghost bits = { 16 };

    ghost number = { λ x. x };

    fn of(byte: u8) -> u16 {
        byte as u16
    }

    fn fitted(self) -> u16 {
        self
    }

    fn leading_zeros(self) -> u32 {
        u16::leading_zeros(self)
    }

    fn wide(self) -> u64 {
        self as u64
    }

    fn narrowed(wide: u64) -> u16 {
        wide as u16
    }

    fn top() -> u64 {
        u16::MAX as u64
    }

    ghost eq_law = { λ a b. refl };

    ghost order_law = { λ a b. refl };

    ghost can_add_law = { λ a b h. h };

    ghost add_law = { λ a b r h. h };

    ghost can_add_assign_law = { λ a b h. h };

    ghost add_assign_law = { λ a b r h. h };

    ghost can_sub_law = { λ a b h. h };

    ghost sub_law = { λ a b r h. h };

    ghost can_sub_assign_law = { λ a b h. h };

    ghost sub_assign_law = { λ a b r h. h };

    ghost can_mul_law = { λ a b h. h };

    ghost mul_law = { λ a b r h. h };

    ghost can_shl_law = { λ a k h. h };

    ghost shl_law = { λ a r k h. h };

    ghost can_shr_law = { λ a k h. h };

    ghost shr_law = { λ a r k h. h };
}

impl Word for u32 {
    ghost bits = { 32 };

    ghost number = { λ x. x };

    fn of(byte: u8) -> u32 {
        byte as u32
    }

    fn fitted(self) -> u32 {
        self
    }

    fn leading_zeros(self) -> u32 {
        u32::leading_zeros(self)
    }

    fn wide(self) -> u64 {
        self as u64
    }

    fn narrowed(wide: u64) -> u32 {
        wide as u32
    }

    fn top() -> u64 {
        u32::MAX as u64
    }

    ghost eq_law = { λ a b. refl };

    ghost order_law = { λ a b. refl };

    ghost can_add_law = { λ a b h. h };

    ghost add_law = { λ a b r h. h };

    ghost can_add_assign_law = { λ a b h. h };

    ghost add_assign_law = { λ a b r h. h };

    ghost can_sub_law = { λ a b h. h };

    ghost sub_law = { λ a b r h. h };

    ghost can_sub_assign_law = { λ a b h. h };

    ghost sub_assign_law = { λ a b r h. h };

    ghost can_mul_law = { λ a b h. h };

    ghost mul_law = { λ a b r h. h };

    ghost can_shl_law = { λ a k h. h };

    ghost shl_law = { λ a r k h. h };

    ghost can_shr_law = { λ a k h. h };

    ghost shr_law = { λ a r k h. h };
}

impl Word for u64 {
    ghost bits = { 64 };

    ghost number = { λ x. x };

    fn of(byte: u8) -> u64 {
        byte as u64
    }

    fn fitted(self) -> u64 {
        self
    }

    fn leading_zeros(self) -> u32 {
        u64::leading_zeros(self)
    }

    fn wide(self) -> u64 {
        self
    }

    fn narrowed(wide: u64) -> u64 {
        wide
    }

    fn top() -> u64 {
        u64::MAX
    }

    ghost eq_law = { λ a b. refl };

    ghost order_law = { λ a b. refl };

    ghost can_add_law = { λ a b h. h };

    ghost add_law = { λ a b r h. h };

    ghost can_add_assign_law = { λ a b h. h };

    ghost add_assign_law = { λ a b r h. h };

    ghost can_sub_law = { λ a b h. h };

    ghost sub_law = { λ a b r h. h };

    ghost can_sub_assign_law = { λ a b h. h };

    ghost sub_assign_law = { λ a b r h. h };

    ghost can_mul_law = { λ a b h. h };

    ghost mul_law = { λ a b r h. h };

    ghost can_shl_law = { λ a k h. h };

    ghost shl_law = { λ a r k h. h };

    ghost can_shr_law = { λ a k h. h };

    ghost shr_law = { λ a r k h. h };
}
