// The panel's printer of numbers alone, for the test that links it (tests/printer): any number of
// 64 bits, signed or not, at the front of the output, and the count of its bytes; where the output
// is too short for it, the count is 0 and the output is as it was.
#![tactic(auto)]

ghost use Rattle.std.specs.Prelude.{◌≡◌, length};
ghost use Rattle.transport.specs.Text.{digits, whole_digits};
ghost use Rattle.transport.specs.PlanText.{fitting};
ghost use Rattle.decimals.specs.Front.{front};

use decimals::Decimal;

// Writes a number if the output has room for it, else nothing.
fn write_fitting<T: Decimal>(number: T, out: &mut [u8]) -> usize
    ensures { let text = fitting (length out.old) (T.text number) in
        (result ≡ length text) × (out.new ≡ front text out.old) }
{
    if out.len() < number.text_len() {
        return 0;
    }
    number.write_text(out)
}

// Two exports, since C calls each by a name of its own.
#[unsafe(no_mangle)]
pub extern "C" fn printer_whole(z: i64, out: &mut [u8]) -> usize
    ensures { let text = fitting (length out.old) (whole_digits z) in
        (result ≡ length text) × (out.new ≡ front text out.old) }
{
    write_fitting(z, out)
}

#[unsafe(no_mangle)]
pub extern "C" fn printer_number(n: u64, out: &mut [u8]) -> usize
    ensures { let text = fitting (length out.old) (digits n) in
        (result ≡ length text) × (out.new ≡ front text out.old) }
{
    write_fitting(n, out)
}
