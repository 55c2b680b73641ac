//! How an input is divided into lines, and into a chart's text and a script.
ghost use Rattle.std.specs.Prelude.{◌≡◌, ◌≤◌, ◌<◌, [], ◌∷◌, ◌++◌, length, take_while, not, ◌==◌};
ghost use Rattle.wf_scripts.specs.Lines as spec;

/// The two parts of an input, lent.
#[derive(Clone, Copy)]
pub struct Division<'a> {
    /// All before the divider.
    pub chart: &'a [u8],
    /// All behind the divider.
    pub script: &'a [u8],
}

// How many bytes stand before the first LF.
fn line_len(bytes: &[u8]) -> usize
    ensures exact { result ≡ length (spec.first_line bytes.now) }
    ensures within { result ≤ length bytes.now }
{
    bytes.iter().take_while(|byte| **byte != b'\n').count()
}

/// The first line without its LF, and all that follows this. Linear in the line.
pub fn split_line(bytes: &[u8]) -> (&[u8], &[u8])
    ensures line { result.0.now ≡ spec.first_line bytes.now }
    ensures rest { result.1.now ≡ spec.behind_line bytes.now }
{
    let len = line_len(bytes);
    if len < bytes.len() {
        (&bytes[..len], &bytes[len + 1..])
    } else {
        (bytes, &bytes[len..])
    }
}

fn is_divider(line: &[u8]) -> bool
    ensures { result ≡ spec.is_divider line.now }
{
    line == b"---".as_slice() || line == b"---\r".as_slice()
}

/// Divides an input at its first line that is `---`, or `---` and CR. Without one, all of it is the chart's text and
/// the script is empty. Linear in the input; takes no memory.
#[tactic(auto, unfolding(crate::specs::Lines::chart_part, crate::specs::Lines::script_part))]
pub fn divide(input: &[u8]) -> Division<'_>
    ensures chart { result.chart.now ≡ spec.chart_part input.now }
    ensures script { result.script.now ≡ spec.script_part input.now }
{
    let mut rest = input;
    while !rest.is_empty() {
        let (line, more) = split_line(rest);
        if is_divider(line) {
            return Division {
                chart: &input[..input.len() - rest.len()],
                script: more,
            };
        }
        rest = more;
    }
    Division {
        chart: input,
        script: rest,
    }
}

/// How many lines a script has, blank ones and comments among them. Linear in the script; takes no memory.
pub fn line_count(script: &[u8]) -> usize
    ensures { result ≡ length (spec.lines_of script.now) }
{
    let mut count = 0;
    let mut rest = script;
    while !rest.is_empty() {
        rest = split_line(rest).1;
        count += 1;
    }
    count
}
