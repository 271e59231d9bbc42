// Lines of numbers: where a line ends. `left` counts the numbers of a line from the present one to
// the line's last.
ghost use Rattle.std.specs.Prelude.{◌≡◌, ◌≤◌};
ghost use Rattle.sections.specs.Lines.{ending, left_after_of};

// The byte after a number: LF after the last one of its line, else a space.
#[tactic(auto, unfolding(crate::specs::Lines::ending))]
pub fn ending(left: usize) -> u8
    ensures { result ≡ ending left }
{
    if left == 1 { b'\n' } else { b' ' }
}

// The same count for the next number, in lines of `width`.
#[tactic(auto, unfolding(crate::specs::Lines::left_after_of))]
pub fn left_after(width: usize, left: usize) -> usize
    requires { 1 ≤ left }
    ensures { result ≡ left_after_of width left }
{
    if left == 1 { width } else { left - 1 }
}
