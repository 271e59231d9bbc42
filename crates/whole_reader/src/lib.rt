// Whole numbers: numbers that may begin with a minus.
#![tactic(auto)]

ghost use Rattle.std.specs.Prelude.{◌≡◌, ◌≤◌, ◌<◌, ◌^◌, length, drop};
ghost use Rattle.transport.specs.SheetText.{signed, whole};
ghost use Rattle.sections.specs.Lines.{ending};
ghost use Rattle.tokens.specs.Reading.{reading_of, place_of, end_reading};

use number_reader::{read_end, read_number};
use tokens::bytes::byte_at;
use tokens::{Stuck, Token};

// A number with its sign.
fn signed(negative: bool, size: u64) -> i64
    requires { size < 2 ^ 63 }
    ensures { result ≡ signed negative size }
{
    let size = size as i64;
    if negative { -size } else { size }
}

// A whole number and the byte that ends it: after a minus the number is not 0.
pub fn read_whole(text: &[u8], at: usize, left: usize) -> Result<Token<i64>, Stuck>
    requires { at ≤ length text.now }
    ensures reads { end_reading (ending left) (whole (drop at text.now)) ≡ reading_of text.now (λ z. z) result }
    ensures inside { place_of result ≤ length text.now }
{
    let negative = byte_at(text, at, b'-');
    let first = at + negative as usize;
    let least = negative as u64;
    let number = read_number(text, first, least)?;
    let value = signed(negative, number.value);
    let next = number.next;
    read_end(text, Ok(Token { value, next }), left)
}
