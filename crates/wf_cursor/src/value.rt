//! What an Int or a Text holds.
ghost use Rattle.std.specs.Prelude.{◌≡◌, ◌<◌, ◌≤◌, min, IfSome};
ghost use Rattle.wf_cursor.specs.Values as spec;

use wf_model::limits::MAX_TEXT;
use wf_model::{Txt, is_text_char};

// The number that the digits make, or the greatest `u64` where it is greater.
fn capped_number(digits: &[u8]) -> u64
    ensures { result ≡ min (spec.number digits.now) u64.MAX }
{
    let mut number = 0u64;
    for digit in digits {
        let value = digit.saturating_sub(b'0') as u64;
        number = number.saturating_mul(10).saturating_add(value);
    }
    number
}

/// The number that the digits make, where it is at most this. Linear in the digits.
#[tactic(auto, unfolding(crate::specs::Values::number_up_to))]
pub fn number_up_to(most: u64, digits: &[u8]) -> Option<u64>
    requires { most < u64.MAX }
    ensures value { result ≡ spec.number_up_to most digits.now }
    ensures fits { IfSome result (λ number. number ≤ most) }
{
    let number = capped_number(digits);
    if number <= most { Some(number) } else { None }
}

/// The characters behind the opening quote, where they aren't too many.
#[tactic(auto, unfolding(crate::specs::Values::short_text))]
pub fn short_text(token: &[u8]) -> Option<Txt>
    ensures { result ≡ spec.short_text token.now }
{
    let mut text = Txt::new();
    for byte in &token[token.len().min(1)..] {
        if !is_text_char(*byte) {
            return Some(text);
        }
        if text.len() == MAX_TEXT {
            return None;
        }
        text.push(*byte);
    }
    Some(text)
}
