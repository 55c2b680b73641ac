//! Arithmetic that tells where a number doesn't fit.
ghost use Rattle.std.specs.Prelude.{◌≡◌, ◌+ℤ◌, ◌-ℤ◌, ◌*ℤ◌, neg_ℤ};
ghost use Rattle.wf_model.specs.Values as spec;

use wf_model::{Fault, Val};

/// The sum, or `Overflow` where it is no `i64`.
pub fn sum(m: i64, n: i64) -> Result<Val, Fault>
    ensures { result ≡ spec.int (m +ℤ n) }
{
    match m.checked_add(n) {
        Some(k) => Ok(Val::Int(k)),
        None => Err(Fault::Overflow),
    }
}

/// The difference, or `Overflow` where it is no `i64`.
pub fn difference(m: i64, n: i64) -> Result<Val, Fault>
    ensures { result ≡ spec.int (m -ℤ n) }
{
    match m.checked_sub(n) {
        Some(k) => Ok(Val::Int(k)),
        None => Err(Fault::Overflow),
    }
}

/// The product, or `Overflow` where it is no `i64`.
pub fn product(m: i64, n: i64) -> Result<Val, Fault>
    ensures { result ≡ spec.int (m *ℤ n) }
{
    match m.checked_mul(n) {
        Some(k) => Ok(Val::Int(k)),
        None => Err(Fault::Overflow),
    }
}

/// The number with the other sign, or `Overflow` where that is no `i64`.
pub fn negation(n: i64) -> Result<Val, Fault>
    ensures { result ≡ spec.int (neg_ℤ n) }
{
    match n.checked_neg() {
        Some(k) => Ok(Val::Int(k)),
        None => Err(Fault::Overflow),
    }
}

/// The quotient, towards zero: `ZeroDivisor` where `n` is 0, `Overflow` where the quotient is no `i64`.
pub fn quotient(m: i64, n: i64) -> Result<Val, Fault>
    ensures { result ≡ spec.quotient m n }
{
    if n == 0 {
        return Err(Fault::ZeroDivisor);
    }
    match m.checked_div(n) {
        Some(k) => Ok(Val::Int(k)),
        None => Err(Fault::Overflow),
    }
}

/// The remainder, with the sign of `m`: `ZeroDivisor` where `n` is 0, `Overflow` where the quotient is no `i64`.
pub fn remainder(m: i64, n: i64) -> Result<Val, Fault>
    ensures { result ≡ spec.remainder m n }
{
    if n == 0 {
        return Err(Fault::ZeroDivisor);
    }
    match m.checked_rem(n) {
        Some(k) => Ok(Val::Int(k)),
        None => Err(Fault::Overflow),
    }
}
