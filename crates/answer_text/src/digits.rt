// The decimal digits of a number.
ghost use Rattle.std.specs.Prelude.{◌≡◌, ◌<◌, length, drop};
ghost use Rattle.answer_text.specs.Text.{digit as Text·digit, decimal as Text·decimal};

const MOST_DIGITS: usize = 10;

// The digits of a number: the bytes of the array from `start` on. What is before them is free. An array and a place, and no String: a line is
// written without memory from the system.
#[derive(Clone, Copy)]
pub(crate) struct Digits {
    pub(crate) bytes: [u8; 10],
    pub(crate) start: usize,
}

fn digit(d: u32) -> u8
    requires { d < 10 }
    ensures { result ≡ Text·digit d }
{
    b'0' + d as u8
}

// The digits are found from the last to the first, until the number is used up: how many there are is known then.
pub(crate) fn decimal(n: u32) -> Digits
    ensures { (result.start < 10) × (length result.bytes ≡ 10) × (drop result.start result.bytes ≡ Text·decimal n) }
{
    let mut bytes = [0u8; 10];
    let mut start = MOST_DIGITS;
    let mut left = n;
    while 10 <= left {
        start -= 1;
        bytes[start] = digit(left % 10);
        left /= 10;
    }
    start -= 1;
    bytes[start] = digit(left);
    Digits { bytes, start }
}
