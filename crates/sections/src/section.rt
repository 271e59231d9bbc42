// Sections of texts: a head line, and numbers in lines, signed or not. Each part is written at the
// front of what the parts before it left of the output, and its writer gives its length.
ghost use Rattle.std.specs.Prelude.{◌≡◌, ◌++◌, ◌+◌, ◌*◌, ◌^◌, ◌≤◌, length};
ghost use Rattle.transport.specs.Text.{digits};
ghost use Rattle.decimals.specs.Front.{front};
ghost use Rattle.sections.specs.Lines.{ended, lines_from, numbers_length, section_text};

use crate::lines;
use decimals::Decimal;

// The length of numbers in lines: each with the byte that ends it.
pub fn numbers_len<T: Decimal>(numbers: &[T]) -> usize
    requires { length numbers.now ≤ 2 ^ 32 }
    ensures { (result ≡ numbers_length T.text numbers.now) × (result ≤ length numbers.now * 21) }
{
    let mut len = 0;
    for number in numbers {
        len += number.text_len() + 1;
    }
    len
}

// Copies bytes to the output. A loop: with `copy_from_slice` the program takes 29 bytes more of
// read-only data and 224 of code, which is more than docs/PERFORMANCE.md tells (`tests/memory`).
fn write_bytes(bytes: &[u8], out: &mut [u8]) -> usize
    requires { length bytes.now ≤ length out.old }
    ensures { (result ≡ length bytes.now) × (out.new ≡ front bytes.now out.old) }
{
    for (i, byte) in bytes.iter().enumerate() {
        out[i] = *byte;
    }
    bytes.len()
}

// A number, and the byte that ends it.
#[tactic(auto, using(decimals::specs::Front::pieces), unfolding(crate::specs::Lines::ended))]
fn write_ended<T: Decimal>(number: T, end: u8, out: &mut [u8]) -> usize
    requires { length (ended T.text number end) ≤ length out.old }
    ensures { let text = ended T.text number end in
        (result ≡ length text) × (out.new ≡ front text out.old) }
{
    let at = number.write_text(out);
    out[at] = end;
    at + 1
}

// Numbers in lines of `width`.
pub fn write_lines<T: Decimal>(numbers: &[T], width: usize, out: &mut [u8]) -> usize
    requires { (1 ≤ width) × (length (lines_from T.text width width numbers.now) ≤ length out.old) }
    ensures { let text = lines_from T.text width width numbers.now in
        (result ≡ length text) × (out.new ≡ front text out.old) }
{
    let mut at = 0;
    let mut left = width;
    for number in numbers {
        at += write_ended(*number, lines::ending(left), &mut out[at..]);
        left = lines::left_after(width, left);
    }
    at
}

// The head line of a section: its name, with the space after it, and its count.
#[tactic(auto, using(decimals::specs::Front::pieces))]
pub fn write_head(name: &[u8], count: usize, out: &mut [u8]) -> usize
    requires { length (name.now ++ ended digits count 10) ≤ length out.old }
    ensures { (result ≡ length (name.now ++ ended digits count 10))
        × (out.new ≡ front (name.now ++ ended digits count 10) out.old) }
{
    let at = write_bytes(name, out);
    at + write_ended(count as u64, b'\n', &mut out[at..])
}

// A section: its head line, and its numbers in lines of `width`.
#[tactic(auto, using(decimals::specs::Front::pieces), unfolding(crate::specs::Lines::section_text))]
pub fn write_section<T: Decimal>(
    name: &[u8],
    count: usize,
    width: usize,
    numbers: &[T],
    out: &mut [u8],
) -> usize
    requires { (1 ≤ width) × (length (section_text T.text name.now count width numbers.now) ≤ length out.old) }
    ensures { let text = section_text T.text name.now count width numbers.now in
        (result ≡ length text) × (out.new ≡ front text out.old) }
{
    let at = write_head(name, count, out);
    at + write_lines(numbers, width, &mut out[at..])
}

// The length of a head line.
#[tactic(auto, using(decimals::specs::Front::pieces), unfolding(crate::specs::Lines::ended))]
pub fn head_len(name: &[u8], count: usize) -> usize
    requires { length name.now ≤ 16 }
    ensures { (result ≡ length (name.now ++ ended digits count 10)) × (result ≤ 37) }
{
    name.len() + (count as u64).text_len() + 1
}

// The length of a section, whatever its lines.
pub fn section_len<T: Decimal>(name: &[u8], count: usize, numbers: &[T]) -> usize
    requires { (length name.now ≤ 16) × (length numbers.now ≤ 2 ^ 32) }
    ensures { let xs = numbers.now in
        (result ≡ length (name.now ++ ended digits count 10) + numbers_length T.text xs)
        × (result ≤ length xs * 21 + 37) }
{
    head_len(name, count) + numbers_len(numbers)
}
