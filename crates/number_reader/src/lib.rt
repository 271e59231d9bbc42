// Numbers, and the bytes that end them.
#![tactic(auto)]

ghost use Rattle.std.specs.Prelude.{◌≡◌, ◌-◌, ◌≤◌, ◌<◌, ◌^◌, length, drop, false, MatchResult, IfOk};
ghost use Rattle.transport.specs.Limits.{max_digits};
ghost use Rattle.transport.specs.SheetText.{more_digits_of, number_from, side, got};
ghost use Rattle.sections.specs.Lines.{ending};
ghost use Rattle.tokens.specs.Reading.{reading_of, place_of, always, digit_next, end_reading, NextDigit, ValueSide};

use tokens::bytes::{digit_at, end_at};
use tokens::{Stuck, Token};

// The most digits that a number of a sheet text has.
const MAX_DIGITS: usize = 7;

// The digit that comes next.
fn read_digit(text: &[u8], at: usize) -> Result<u8, Stuck>
    ensures { MatchResult result
        (λ digit. NextDigit text.now at digit)
        (λ stop. (digit_next (drop at text.now) ≡ false) × (stop.0 ≡ at)) }
{
    if digit_at(text, at) {
        Ok(text[at] - b'0')
    } else {
        Err(Stuck(at))
    }
}

// The other digits of a number that begins with the digit `first` and has at most `most` digits.
fn more_digits(text: &[u8], at: usize, first: u64, most: usize) -> Token<u64>
    requires { (at ≤ length text.now) × (first < 10) × (1 ≤ most) × (most ≤ 19) }
    ensures reads { more_digits_of always (most - 1) first (drop at text.now)
        ≡ got result.value (drop result.next text.now) }
    ensures inside { result.next ≤ length text.now }
    ensures small { result.value < 10 ^ most }
{
    let mut value = first;
    let mut next = at;
    for _count in 1..most {
        let Ok(digit) = read_digit(text, next) else {
            break;
        };
        value = value * 10 + digit as u64;
        next += 1;
    }
    Token { value, next }
}

// A number of one to seven digits, the first at least `low`, with no leading 0 except 0 itself. It
// is not inlined, so that the program has it once (docs/PERFORMANCE.md, "Memory").
#[inline(never)]
pub fn read_number(text: &[u8], at: usize, low: u64) -> Result<Token<u64>, Stuck>
    requires { at ≤ length text.now }
    ensures reads { number_from low (drop at text.now) ≡ reading_of text.now (λ v. v) result }
    ensures inside { place_of result ≤ length text.now }
    ensures small { IfOk result (λ number. number.value < 10 ^ max_digits) }
{
    let leading = read_digit(text, at)? as u64;
    if leading < low {
        return Err(Stuck(at));
    }
    let next = at + 1;
    if leading == 0 {
        return Ok(Token { value: 0, next });
    }
    Ok(more_digits(text, next, leading, MAX_DIGITS))
}

// A count of sources or sinks: 1 to `most`, which has two digits or is 9.
pub fn read_side(text: &[u8], at: usize, most: usize) -> Result<Token<usize>, Stuck>
    requires { (at ≤ length text.now) × (9 ≤ most) }
    ensures reads { side most (drop at text.now) ≡ reading_of text.now (λ v. v) result }
    ensures inside { place_of result ≤ length text.now }
    ensures fits { ValueSide most result }
{
    let first = read_digit(text, at)? as usize;
    if first == 0 {
        return Err(Stuck(at));
    }
    let next = at + 1;
    let Ok(second) = read_digit(text, next) else {
        return Ok(Token { value: first, next });
    };
    let both = first * 10 + second as usize;
    if both > most {
        return Ok(Token { value: first, next });
    }
    Ok(Token {
        value: both,
        next: next + 1,
    })
}

// The end of a number that was read: the number, with the place after the byte that ends it. Where
// none was read, the answer stays.
pub fn read_end<T: Copy>(
    text: &[u8],
    number: Result<Token<T>, Stuck>,
    left: usize,
) -> Result<Token<T>, Stuck>
    requires { place_of number ≤ length text.now }
    ensures reads { end_reading (ending left) (reading_of text.now (λ v. v) number)
        ≡ reading_of text.now (λ v. v) result }
    ensures inside { place_of result ≤ length text.now }
    ensures same { IfOk number (λ token. IfOk result (λ ended. ended.value ≡ token.value)) }
{
    let number = match number {
        Ok(number) => number,
        Err(stop) => return Err(stop),
    };
    if !end_at(text, number.next, left) {
        return Err(Stuck(number.next));
    }
    let after = number.next + 1;
    Ok(Token {
        value: number.value,
        next: after,
    })
}
