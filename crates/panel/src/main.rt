// The panel: reads a sheet text from standard input, and prints its plan text or why it is refused.
#![tactic(auto)]

ghost use Rattle.std.specs.Prelude.{◌≡◌, ◌≤◌, length, IfOk};
ghost use Rattle.transport.specs.Limits.{max_plan_text};
ghost use Rattle.transport.specs.PlanText.{printed};
ghost use Rattle.decimals.specs.Front.{front};

use display::MAX_READ;
use std::io::{self, Read, Stdin, Write};
use transport::MAX_PLAN_TEXT;

// Reads standard input until it ends or the buffer is full, whatever the pieces in which it comes:
// the count of bytes at the front of the buffer.
fn read_input(mut stdin: Stdin, buffer: &mut [u8]) -> io::Result<usize>
    ensures { IfOk result (λ count. count ≤ length buffer.new) }
{
    let mut at = 0;
    // A while: the reader says how far each turn goes.
    while at < buffer.len() {
        match stdin.read(&mut buffer[at..])? {
            0 => break,
            got => at += got,
        }
    }
    Ok(at)
}

// All that is printed for an input: the output has room for it, whatever the input.
fn answer(input: &[u8], out: &mut [u8]) -> usize
    requires { max_plan_text ≤ length out.old }
    ensures { let text = printed input.now in
        (result ≡ length text) × (out.new ≡ front text out.old) }
{
    display::show(input, out)
}

// Nothing is left to do where standard error cannot be written either.
fn complain(rt: &HostRuntime, message: &[u8]) {
    let _ = rt.stderr().write_all(message);
}

fn main(rt: HostRuntime) {
    let mut input = [0u8; MAX_READ];
    let mut out = [0u8; MAX_PLAN_TEXT];
    let Ok(count) = read_input(rt.stdin(), &mut input) else {
        complain(&rt, b"panel: cannot read standard input\n");
        return;
    };
    let len = answer(&input[..count], &mut out);
    if rt.stdout().write_all(&out[..len]).is_err() {
        complain(&rt, b"panel: cannot write standard output\n");
    }
}
