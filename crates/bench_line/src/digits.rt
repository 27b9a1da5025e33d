// Digits as characters.
ghost use Rattle.std.specs.Prelude.{◌≡◌, ◌<◌};
ghost use Rattle.bench_line.specs.Digits.{digit};

// Capital.
// Kept: by hand, as each character of an answer is proved, and the library's hex goes through a formatter that no contract tells so closely.
pub(crate) fn digit(value: u8) -> u8
    requires { value < 16 }
    ensures { result ≡ digit value }
{
    if value < 10 {
        b'0' + value
    } else {
        b'A' + (value - 10)
    }
}
