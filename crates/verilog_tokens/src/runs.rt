//! Runs of bytes of one kind.

ghost use Rattle.std.specs.Prelude.{◌≡◌, ◌≤◌, drop, length, take};
ghost use Rattle.text_lines.specs.Groups.{up_to};
ghost use Rattle.verilog_tokens.specs.Runs.{ends_run};
ghost use Rattle.verilog_tokens.specs.Words.{begins_name, ends_constant, ends_name, is_digit, is_space};

/// A run of bytes.
#[derive(Clone, Copy)]
pub enum Run {
    /// Letters, digits, `_` and `$`.
    Name,
    /// These and `'`.
    Constant,
    /// All but blanks.
    Escaped,
    /// The rest of a line.
    Line,
}

/// Whether a byte is a blank: space, tab, line feed or carriage return.
pub fn is_space_byte(b: u8) -> bool
    ensures { result ≡ is_space b }
{
    b == b' ' || b == b'\t' || b == b'\n' || b == b'\r'
}

/// Whether a byte begins a name: a letter or `_`.
pub fn begins_name_byte(b: u8) -> bool
    ensures { result ≡ begins_name b }
{
    b'a' <= b && b <= b'z' || b'A' <= b && b <= b'Z' || b == b'_'
}

/// Whether a byte is a digit.
pub fn is_digit_byte(b: u8) -> bool
    ensures { result ≡ is_digit b }
{
    b'0' <= b && b <= b'9'
}

/// Whether a byte ends a name.
fn ends_name_byte(b: u8) -> bool
    ensures { result ≡ ends_name b }
{
    !(begins_name_byte(b) || is_digit_byte(b) || b == b'$')
}

/// Whether a byte ends a run.
fn ends(run: Run, b: u8) -> bool
    ensures { result ≡ ends_run run b }
{
    match run {
        Run::Name => ends_name_byte(b),
        Run::Constant => ends_name_byte(b) && b != b'\'',
        Run::Escaped => is_space_byte(b),
        Run::Line => b == b'\n',
    }
}

/// How many bytes stand before the first that ends a run.
pub fn run_length(run: Run, text: &[u8]) -> usize
    ensures count { result ≡ length (up_to (ends_run run) text.now) }
    ensures within { result ≤ length text.now }
    ensures bytes { take result text.now ≡ up_to (ends_run run) text.now }
{
    let mut at = 0;
    'bytes: while at < text.len() {
        if ends(run, text[at]) {
            return at;
        }
        at += 1;
    }
    at
}
