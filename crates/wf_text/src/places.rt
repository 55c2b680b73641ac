//! Lines and columns of a text.
ghost use Rattle.std.specs.Prelude.{◌≡◌, ◌≤◌, ◌+◌, length, take, take_while, reverse, not, count_by};
ghost use Rattle.wf_model.specs.Limits.{max_input};
ghost use Rattle.wf_text.specs.Places as spec;

/// A line and a column in it. Both count bytes from 1.
#[derive(Clone, Copy)]
pub struct Place {
    pub line: u32,
    pub col: u32,
}

fn lfs(bytes: &[u8]) -> usize
    ensures value { result ≡ count_by spec.is_lf bytes.now }
    ensures within { result ≤ length bytes.now }
{
    bytes.iter().filter(|byte| **byte == b'\n').count()
}

// How many bytes stand behind the last LF.
fn last_line_len(bytes: &[u8]) -> usize
    ensures value { result ≡ length (take_while (λ b. not (spec.is_lf b)) (reverse bytes.now)) }
    ensures within { result ≤ length bytes.now }
{
    bytes
        .iter()
        .rev()
        .take_while(|byte| **byte != b'\n')
        .count()
}

/// The place of the byte that has `at` bytes before it; past the end of the text, that of the end. Linear in these bytes.
#[tactic(auto, using(crate::proofs::LastLine::last_line_length), unfolding(crate::specs::Places::place_of))]
pub fn place_of(text: &[u8], at: usize) -> Place
    requires { length text.now ≤ max_input }
    ensures { result ≡ spec.place_of text.now at }
{
    let before = &text[..at.min(text.len())];
    Place {
        line: 1 + lfs(before) as u32,
        col: 1 + last_line_len(before) as u32,
    }
}
