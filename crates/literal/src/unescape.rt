ghost use Rattle.std.specs.Prelude.{◌≡◌, ◌+◌, ◌<◌, length, slice_set, IfSome};
ghost use Rattle.lent.specs.Lists.{overlay};
ghost use Rattle.literal.specs.Escapes.{hex_of, reading};
ghost use Rattle.literal.specs.Machine.{step_of, held_by, Small, SmallStep, count_of};
ghost use Rattle.literal.specs.Memory.{Puts};

use lent::Lent;

// What the unescaper has read of an escape. An escape is read byte by byte, by what came before: a rule of the project.
#[derive(Clone, Copy)]
pub enum State {
    Plain,
    AfterBackslash,
    AfterX,
    AfterDigit(u8),
}

// What a byte leads to: a byte to write, or a further state.
pub enum Step {
    Emit(u8),
    Go(State),
}

fn hex_digit(byte: u8) -> Option<u8>
    ensures value { result ≡ hex_of byte }
    ensures bound { IfSome result (λ v. v < 16) }
{
    Some(char::from(byte).to_digit(16)? as u8)
}

impl State {
    // Absent where the byte makes a bad escape.
    fn step(self, byte: u8) -> Option<Step>
        requires { Small self }
        ensures value { result ≡ step_of self byte }
        ensures small { IfSome result SmallStep }
    {
        let step = match (self, byte) {
            (State::Plain, b'\\') => Step::Go(State::AfterBackslash),
            (State::Plain, b) => Step::Emit(b),
            (State::AfterBackslash, b'\\') => Step::Emit(b'\\'),
            (State::AfterBackslash, b'"') => Step::Emit(b'"'),
            (State::AfterBackslash, b'n') => Step::Emit(b'\n'),
            (State::AfterBackslash, b'r') => Step::Emit(b'\r'),
            (State::AfterBackslash, b't') => Step::Emit(b'\t'),
            (State::AfterBackslash, b'0') => Step::Emit(0),
            (State::AfterBackslash, b'x') => Step::Go(State::AfterX),
            (State::AfterBackslash, _) => return None,
            (State::AfterX, b) => Step::Go(State::AfterDigit(hex_digit(b)?)),
            (State::AfterDigit(h), b) => Step::Emit(16 * h + hex_digit(b)?),
        };
        Some(step)
    }

    // How many bytes of an escape came before.
    fn held(self) -> usize
        ensures { result ≡ held_by self }
    {
        match self {
            State::Plain => 0,
            State::AfterBackslash => 1,
            State::AfterX => 2,
            State::AfterDigit(_) => 3,
        }
    }
}

// Writes a byte so many places behind a place, if there is room.
fn write(items: &mut [u8], from: usize, behind: usize, byte: u8)
    ensures { items.new ≡ slice_set items.old (from + behind) byte }
{
    if behind < items.len().saturating_sub(from) {
        items[from + behind] = byte;
    }
}

// Writes what the text stands for from a place on, as far as it fits and up to a bad escape.
// Answers how many bytes it stands for, or where the bad escape begins; and how many were decoded, a number that
// cannot stop, since a counter that stops has its price at each byte.
fn decode(text: &[u8], items: &mut [u8], from: usize) -> (Result<usize, usize>, usize)
    ensures value { result.0 ≡ count_of text.now }
    ensures items { items.new ≡ overlay items.old from (reading text.now).bytes }
    ensures count { result.1 ≡ length (reading text.now).bytes }
{
    let mut state = State::Plain;
    let mut n = 0;
    for (i, b) in text.iter().enumerate() {
        let Some(step) = state.step(*b) else {
            return (Err(i - state.held()), n);
        };
        state = match step {
            Step::Go(next) => next,
            Step::Emit(byte) => {
                write(items, from, n, byte);
                n += 1;
                State::Plain
            }
        };
    }
    match state {
        State::Plain => (Ok(n), n),
        _ => (Err(text.len() - state.held()), n),
    }
}

// Puts what the text stands for behind what is used of `out`, as far as it fits and up to a bad escape.
// Answers how many bytes it stands for, or where the bad escape begins.
pub(crate) fn unescape(text: &[u8], out: &mut Lent<u8>) -> Result<usize, usize>
    ensures value { result ≡ count_of text.now }
    ensures memory { Puts (reading text.now).bytes out.old out.new }
{
    let (result, n) = decode(text, out.items, out.used);
    out.used = out.used.saturating_add(n);
    result
}
