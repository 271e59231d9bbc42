// Numbers in decimal, with no leading 0 except 0 itself.
#![tactic(auto)]

ghost use Rattle.std.specs.Prelude.{◌≡◌, ◌≤◌, List, ℕ, length};
ghost use Rattle.transport.specs.Text.{digits, whole_digits};
ghost use Rattle.decimals.specs.Front.{front};

// A number that is written in decimal, in at most 20 bytes.
pub trait Decimal: Copy {
    // The bytes of a number.
    ghost text: { Self → List ℕ };

    // Their count.
    fn text_len(self) -> usize
        ensures { (result ≡ length (text self)) × (result ≤ 20) };

    // Writes them at the front of the output, and gives their count.
    fn write_text(self, out: &mut [u8]) -> usize
        requires { length (text self) ≤ length out.old }
        ensures { (result ≡ length (text self)) × (out.new ≡ front (text self) out.old) };
}

// The digits of a number, written from the last one to the first.
impl Decimal for u64 {
    ghost text = { digits };

    fn text_len(self) -> usize {
        let mut count: usize = 1;
        let mut rest = self;
        // A while: a loop that ends by what is left of the number is not unrolled, so its code
        // is short (docs/DECISIONS.md, 48).
        while 10 <= rest {
            rest = rest / 10;
            count += 1;
        }
        count
    }

    fn write_text(self, out: &mut [u8]) -> usize {
        let count = self.text_len();
        let mut at = count;
        let mut rest = self;
        // A while, for the same reason.
        while 10 <= rest {
            at -= 1;
            out[at] = b'0' + (rest % 10) as u8;
            rest = rest / 10;
        }
        out[0] = b'0' + rest as u8;
        count
    }
}

// A minus if the number is negative, and the digits of its magnitude. That of the least one has no
// i64, and fits a u64.
impl Decimal for i64 {
    ghost text = { whole_digits };

    fn text_len(self) -> usize {
        let count = self.unsigned_abs().text_len();
        if self < 0 {
            return count + 1;
        }
        count
    }

    fn write_text(self, out: &mut [u8]) -> usize {
        let size = self.unsigned_abs();
        if self < 0 {
            out[0] = b'-';
            let count = size.write_text(&mut out[1..]);
            return count + 1;
        }
        size.write_text(out)
    }
}
