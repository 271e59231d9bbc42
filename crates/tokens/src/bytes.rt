// What comes next in a text, by its bytes.
ghost use Rattle.std.specs.Prelude.{◌≡◌, ◌≤◌, length, drop};
ghost use Rattle.transport.specs.Text.{kind_of};
ghost use Rattle.transport.specs.SheetText.{word};
ghost use Rattle.sections.specs.Lines.{ending};
ghost use Rattle.tokens.specs.Reading.{kind_next, byte_next, digit_next, read_to, place_after};

use crate::Stuck;
use transport::ByteKind;

// The kind of a byte.
#[tactic(auto, unfolding(transport::specs::Text::kind_of, transport::specs::Lists::within))]
fn kind_of(b: u8) -> ByteKind
    ensures { result ≡ kind_of b }
{
    match b {
        b'0'..=b'9' => ByteKind::Digit,
        b' ' => ByteKind::Space,
        b'\n' => ByteKind::LineEnd,
        b'a'..=b'z' => ByteKind::Letter,
        _ => ByteKind::Other,
    }
}

// The kind of the byte that comes next; `Other` at the end of the text.
fn kind_at(text: &[u8], at: usize) -> ByteKind
    ensures { result ≡ kind_next (drop at text.now) }
{
    match text.get(at) {
        Some(&byte) => kind_of(byte),
        None => ByteKind::Other,
    }
}

// Whether a digit comes next.
pub fn digit_at(text: &[u8], at: usize) -> bool
    ensures { result ≡ digit_next (drop at text.now) }
{
    matches!(kind_at(text, at), ByteKind::Digit)
}

// Whether the end of a number comes next: a line end after the last one of its line, else a space. `left` counts as in `sections::lines`.
pub fn end_at(text: &[u8], at: usize, left: usize) -> bool
    ensures { result ≡ byte_next (ending left) (drop at text.now) }
{
    match kind_at(text, at) {
        ByteKind::Space => left != 1,
        ByteKind::LineEnd => left == 1,
        _ => false,
    }
}

// Whether this byte comes next.
pub fn byte_at(text: &[u8], at: usize, byte: u8) -> bool
    ensures { result ≡ byte_next byte (drop at text.now) }
{
    text.get(at) == Some(&byte)
}

// These bytes; the answer is the place after them.
pub fn read_word(text: &[u8], at: usize, expected: &[u8]) -> Result<usize, Stuck>
    requires { at ≤ length text.now }
    ensures reads { word expected.now (drop at text.now) ≡ read_to text.now tt result }
    ensures inside { place_after result ≤ length text.now }
{
    let mut next = at;
    for byte in expected {
        if !byte_at(text, next, *byte) {
            return Err(Stuck(next));
        }
        next += 1;
    }
    Ok(next)
}
