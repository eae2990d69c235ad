//! Arithmetic on numbers of 64 bits, as in the RISC-V unprivileged manual.

ghost use Rattle.std.specs.Prelude.{◌≡◌, ◌<◌, ◌+◌, ◌-◌, ◌*◌, ◌/◌, ◌%◌, ◌^◌, ◌==◌, if◌then◌else◌};
ghost use Rattle.rv_model.specs.Word as spec;

pub fn sum(a: u64, b: u64) -> u64
    ensures { result ≡ spec.wrap (a + b) }
{
    a.wrapping_add(b)
}

pub fn difference(a: u64, b: u64) -> u64
    ensures { result ≡ spec.wrap (a + (2 ^ 64 - b)) }
{
    a.wrapping_sub(b)
}

pub fn product(a: u64, b: u64) -> u64
    ensures { result ≡ spec.wrap (a * b) }
{
    a.wrapping_mul(b)
}

fn is_negative(a: u64) -> bool
    ensures { result ≡ spec.is_negative a }
{
    a >= 1 << 63
}

fn negated(a: u64) -> u64
    ensures { result ≡ spec.negated a }
{
    0u64.wrapping_sub(a)
}

fn magnitude(a: u64) -> u64
    ensures { result ≡ spec.magnitude a }
{
    if is_negative(a) { negated(a) } else { a }
}

/// 1 for true, 0 for false.
pub fn bit(b: bool) -> u64
    ensures { result ≡ spec.bit b }
{
    if b { 1 } else { 0 }
}

/// The signed order.
pub fn less(a: u64, b: u64) -> bool
    ensures { result ≡ spec.less a b }
{
    sum(a, 1 << 63) < sum(b, 1 << 63)
}

/// The low 32 bits, their sign extended.
pub fn word_32(a: u64) -> u64
    ensures { result ≡ spec.word_32 a }
{
    let low = a % (1 << 32);
    if low < 1 << 31 {
        low
    } else {
        low + 0xFFFF_FFFF_0000_0000
    }
}

pub fn sum_32(a: u64, b: u64) -> u64
    ensures { result ≡ spec.word_32 (a + b) }
{
    word_32(sum(a, b))
}

pub fn difference_32(a: u64, b: u64) -> u64
    ensures { result ≡ spec.word_32 (a + (2 ^ 64 - b)) }
{
    word_32(difference(a, b))
}

/// The upper 20 bits of a number of 32 bits, its sign extended.
pub fn upper(a: u64) -> u64
    ensures { result ≡ spec.word_32 (a * 2 ^ 12) }
{
    word_32(product(a, 1 << 12))
}

/// The sign extended to 128 bits.
pub fn widened(a: u64) -> u128
    ensures { result ≡ spec.widened a }
{
    if is_negative(a) {
        a as u128 + 0xFFFF_FFFF_FFFF_FFFF_0000_0000_0000_0000
    } else {
        a as u128
    }
}

/// The upper half of the 128 bits of a product.
pub fn high(a: u128, b: u128) -> u64
    ensures { result ≡ spec.high a b }
{
    (a.wrapping_mul(b) / (1 << 64)) as u64
}

/// The signed quotient, rounded towards zero; all ones where the divisor is 0.
pub fn quotient(a: u64, b: u64) -> u64
    ensures { result ≡ spec.quotient a b }
{
    if b == 0 {
        u64::MAX
    } else if is_negative(a) {
        if is_negative(b) {
            negated(a) / negated(b)
        } else {
            negated(negated(a) / b)
        }
    } else if is_negative(b) {
        negated(a / negated(b))
    } else {
        a / b
    }
}

/// The quotient without sign; all ones where the divisor is 0.
pub fn quotient_unsigned(a: u64, b: u64) -> u64
    ensures { result ≡ (if b == 0 then 2 ^ 64 - 1 else a / b) }
{
    if b == 0 { u64::MAX } else { a / b }
}

/// The signed remainder, with the dividend's sign; the dividend where the divisor is 0.
pub fn remainder(a: u64, b: u64) -> u64
    ensures { result ≡ spec.remainder a b }
{
    if b == 0 {
        a
    } else if is_negative(a) {
        negated(negated(a) % magnitude(b))
    } else {
        a % magnitude(b)
    }
}

/// The remainder without sign; the dividend where the divisor is 0.
pub fn remainder_unsigned(a: u64, b: u64) -> u64
    ensures { result ≡ (if b == 0 then a else a % b) }
{
    if b == 0 { a } else { a % b }
}

pub fn power(amount: u64) -> u64
    requires { amount < 64 }
    ensures { result ≡ 2 ^ amount }
{
    1 << amount
}

/// A shift to the left by the amount's low 6 bits.
pub fn shifted_left(a: u64, amount: u64) -> u64
    ensures { result ≡ spec.wrap (a * 2 ^ (amount % 64)) }
{
    product(a, power(amount % 64))
}

/// A shift to the right by the amount's low 6 bits.
pub fn shifted_right(a: u64, amount: u64) -> u64
    ensures { result ≡ a / 2 ^ (amount % 64) }
{
    a / power(amount % 64)
}

/// A shift to the right by the amount's low 6 bits that copies the sign.
pub fn shifted_signed(a: u64, amount: u64) -> u64
    ensures { result ≡ spec.shifted_signed a (amount % 64) }
{
    let by = amount % 64;
    if !is_negative(a) {
        a / power(by)
    } else if by == 0 {
        a
    } else {
        a / power(by) + negated(power(64 - by))
    }
}
