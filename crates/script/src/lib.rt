#![tactic(auto)]
// The lines of a bench script.
ghost use Rattle.std.specs.Prelude.{◌≡◌, ℕ, ◌+◌, ◌*◌, ◌<◌, ◌≤◌, List, ◌∷◌, ◌++◌, length, MatchOption, ◌≢◌};
ghost use Rattle.script.specs.Script.{value, Numeral, One, Two, Lacks, FirstLine, letter, Tail, Says};

// A line that the bench serves.
#[derive(Clone, Copy, PartialEq, Eq, Debug)]
pub enum Line {
    // `x k m`: the k-th step is cut, and leaves traces of the byte m.
    Plan { step: u16, mask: u8 },
    // `f L`: format with L sectors.
    Format { sectors: u16 },
}

// A number of digits alone, up to 65,535.
fn number(s: &[u8]) -> Option<u16>
    ensures { MatchOption result (Numeral 65536 s.now → ⊥) (λ n. Numeral 65536 s.now × (n ≡ value s.now)) }
{
    if s.is_empty() {
        return None;
    }
    let mut n: u16 = 0;
    for b in s {
        if !b.is_ascii_digit() {
            return None;
        }
        n = n.checked_mul(10)?.checked_add(u16::from(*b - b'0'))?;
    }
    Some(n)
}

// A number of digits alone, up to 255.
fn small_number(s: &[u8]) -> Option<u8>
    ensures { MatchOption result (Numeral 256 s.now → ⊥) (λ n. Numeral 256 s.now × (n ≡ value s.now)) }
{
    u8::try_from(number(s)?).ok()
}

// The bytes before the first one that is `mark`, and those after it.
fn cut<'a>(s: &'a [u8], mark: u8) -> Option<(&'a [u8], &'a [u8])>
    ensures { MatchOption result (Lacks mark s.now) (λ p. (s.now ≡ p.0.now ++ mark ∷ p.1.now) × Lacks mark p.0.now) }
{
    let at = s.iter().position(|b| *b == mark)?;
    Some((&s[..at], &s[at + 1..]))
}

// The first line of a text, without its line end, and the text after it; a last line needs no line end.
pub fn next_line<'a>(text: &'a [u8]) -> Option<(&'a [u8], &'a [u8])>
    ensures { MatchOption result (length text.now ≡ 0) (λ p. FirstLine text.now p.0.now p.1.now) }
{
    if text.is_empty() {
        return None;
    }
    Some(cut(text, b'\n').unwrap_or((text, &[])))
}

// One number after a blank.
fn one(s: &[u8]) -> Option<u16>
    ensures { MatchOption result ((n : ℕ) → One 65536 s.now n → ⊥) (One 65536 s.now) }
{
    number(s.strip_prefix(b" ")?)
}

// A number and a byte, each after a blank.
fn number_and_byte(s: &[u8]) -> Option<(u16, u8)>
    ensures { MatchOption result ((a b : ℕ) → Two 65536 256 s.now a b → ⊥) (λ p. Two 65536 256 s.now p.0 p.1) }
{
    let (x, y) = cut(s.strip_prefix(b" ")?, b' ')?;
    Some((number(x)?, small_number(y)?))
}

// What a letter says with what comes behind it.
fn command(first: u8, rest: &[u8]) -> Option<Line>
    ensures { MatchOption result ((x : Line) → letter x ≡ first → Tail x rest.now → ⊥) (λ x. (letter x ≡ first) × Tail x rest.now) }
{
    match first {
        b'x' => {
            let (step, mask) = number_and_byte(rest)?;
            Some(Line::Plan { step, mask })
        }
        b'f' => Some(Line::Format {
            sectors: one(rest)?,
        }),
        _ => None,
    }
}

// What a line says, if it is one that the bench serves.
pub fn read_line(line: &[u8]) -> Option<Line>
    ensures { MatchOption result ((x : Line) → Says line.now x → ⊥) (Says line.now) }
{
    let (first, rest) = line.split_first()?;
    command(*first, rest)
}
