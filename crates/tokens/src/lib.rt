// What a sheet text is read by: bytes of a kind, and words. Each reader starts at a place of the text, and its answer says where it ended.
#![tactic(auto)]

pub mod bytes;

ghost use Rattle.std.specs.Prelude.{◌≡◌};
ghost use Rattle.transport.specs.declared.Refusal.{Refusal};

use transport::Refusal;

// A value that was read, with the place after it.
#[derive(Clone, Copy)]
pub struct Token<T> {
    pub value: T,
    pub next: usize,
}

// The place before the first byte that cannot come there: what a reader answers that finds nothing.
#[derive(Clone, Copy)]
pub struct Stuck(pub usize);

// A text that a reader is stuck in is no sheet text.
impl From<Stuck> for Refusal {
    ghost from_gives = { λ stop refusal. refusal ≡ Refusal.NotSheetText stop.0 };

    fn from(stop: Stuck) -> Refusal {
        Refusal::NotSheetText(stop.0)
    }
}
