// Lists of numbers: lines, and sections with their head lines.
#![tactic(auto)]

ghost use Rattle.std.specs.Prelude.{◌≡◌, ◌*◌, ◌≤◌, length, take, drop};
ghost use Rattle.transport.specs.Limits.{max_sources, max_sinks};
ghost use Rattle.transport.specs.SheetText.{Reader, number, whole};
ghost use Rattle.sections.specs.Lines.{ending};
ghost use Rattle.tokens.specs.Reading.{reading_of, place_of, read_to, place_after, end_reading, ValueSide};
ghost use Rattle.line_reader.specs.LinesRead.{read_lines_of};
ghost use Rattle.line_reader.specs.SheetRead.{list_reader, cost_reader};

use number_reader::{read_end, read_number, read_side};
use sections::{lines, section};
use tokens::bytes::read_word;
use tokens::{Stuck, Token};
use whole_reader::read_whole;

// What the lines of a sheet text list: a type of numbers, with its reader in the specification.
trait Listed: Copy {
    ghost reader: { Reader Self };

    // A number and the byte that ends it.
    fn read(text: &[u8], at: usize, left: usize) -> Result<Token<Self>, Stuck>
        requires { at ≤ length text.now }
        ensures reads { end_reading (ending left) (reader (drop at text.now))
            ≡ reading_of text.now (λ x. x) result }
        ensures inside { place_of result ≤ length text.now };
}

impl Listed for u64 {
    ghost reader = { number };

    fn read(text: &[u8], at: usize, left: usize) -> Result<Token<u64>, Stuck> {
        read_end(text, read_number(text, at, 0), left)
    }
}

impl Listed for i64 {
    ghost reader = { whole };

    fn read(text: &[u8], at: usize, left: usize) -> Result<Token<i64>, Stuck> {
        read_whole(text, at, left)
    }
}

// As many numbers as the list has, in lines of `width`; the answer is the place after them.
fn read_lines<T: Listed>(
    text: &[u8],
    at: usize,
    width: usize,
    list: &mut [T],
) -> Result<usize, Stuck>
    requires { (at ≤ length text.now) × (1 ≤ width) }
    ensures reads { read_lines_of T.reader width width (length list.old) (drop at text.now)
        ≡ read_to text.now list.new result }
    ensures inside { place_after result ≤ length text.now }
{
    let mut next = at;
    let mut left = width;
    for slot in list {
        let number = T::read(text, next, left)?;
        *slot = number.value;
        next = number.next;
        left = lines::left_after(width, left);
    }
    Ok(next)
}

// A section of one list: its name, with the space after it, its count, at most `most`, and so many
// lines of one number. The value is the count.
pub fn read_list(
    text: &[u8],
    at: usize,
    name: &[u8],
    most: usize,
    list: &mut [u64],
) -> Result<Token<usize>, Stuck>
    requires { (at ≤ length text.now) × (9 ≤ most) × (most ≤ length list.old) }
    ensures reads { list_reader name.now most (drop at text.now)
        ≡ reading_of text.now (λ v. take v list.new) result }
    ensures inside { place_of result ≤ length text.now }
    ensures fits { ValueSide most result }
{
    let next = read_word(text, at, name)?;
    let count = read_end(text, read_side(text, next, most), 1)?;
    let next = read_lines(text, count.next, 1, &mut list[..count.value])?;
    Ok(Token {
        value: count.value,
        next,
    })
}

// The section of the costs: its head line with the count of sources, and as many lines of as many
// numbers as there are sinks. The answer is the place after it.
pub fn read_costs(
    text: &[u8],
    at: usize,
    m: usize,
    n: usize,
    list: &mut [i64],
) -> Result<usize, Stuck>
    requires { (at ≤ length text.now) × (m ≤ max_sources) × (1 ≤ n) × (n ≤ max_sinks) × (m * n ≤ length list.old) }
    ensures reads { cost_reader m n (drop at text.now) ≡ read_to text.now (take (m * n) list.new) result }
    ensures inside { place_after result ≤ length text.now }
{
    let mut line = [0u8; 8];
    let len = section::write_head(b"cost ", m, &mut line);
    let next = read_word(text, at, &line[..len])?;
    read_lines(text, next, n, &mut list[..m * n])
}
