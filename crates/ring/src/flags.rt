// What the flags of a slot say.
ghost use Rattle.std.specs.Prelude.{◌≡◌};
ghost use Rattle.ring.specs.Logs.{closes, ends, is_copy, unclosed_copy};
ghost use Rattle.ring.specs.Rules.{legal, numbered, unfilled};
ghost use Rattle.ring.specs.States.{byte_of, StateOf};

// What a slot is, by its flags.
#[derive(Clone, Copy, PartialEq, Eq, Debug)]
pub enum State {
    Unclaimed,
    // A put: claimed, with its page written, and the last of a group that counts.
    Claimed,
    Filled,
    Closed,
    // The last put of a group that was dropped: claimed, or with its page written.
    DroppedClaimed,
    DroppedFilled,
    // A copy: claimed, with its page written, and closed.
    CopyClaimed,
    CopyFilled,
    CopyClosed,
}

// Flags that no slot may have.
#[derive(Clone, Copy, PartialEq, Eq, Debug)]
pub struct Illegal(pub u8);

impl TryFrom<u8> for State {
    type Error = Illegal;

    ghost try_from_gives = { StateOf };

    fn try_from(flags: u8) -> Result<State, Illegal> {
        match flags {
            0xFF => Ok(State::Unclaimed),
            0x7F => Ok(State::Claimed),
            0x5F => Ok(State::Filled),
            0x4F => Ok(State::Closed),
            0x77 => Ok(State::DroppedClaimed),
            0x57 => Ok(State::DroppedFilled),
            0xBF => Ok(State::CopyClaimed),
            0x9F => Ok(State::CopyFilled),
            0x8F => Ok(State::CopyClosed),
            _ => Err(Illegal(flags)),
        }
    }
}

impl State {
    // Whether a slot closes its group.
    pub fn closes(self) -> bool
        ensures { result ≡ closes (byte_of self) }
    {
        matches!(self, State::Closed | State::CopyClosed)
    }

    // Whether it is the last of its group.
    pub fn ends(self) -> bool
        ensures { result ≡ ends (byte_of self) }
    {
        self.closes() || matches!(self, State::DroppedClaimed | State::DroppedFilled)
    }

    // Whether it is a copy that is not closed.
    pub fn is_unclosed_copy(self) -> bool
        ensures { result ≡ unclosed_copy (byte_of self) }
    {
        matches!(self, State::CopyClaimed | State::CopyFilled)
    }

    // Whether it is a copy.
    pub fn is_copy(self) -> bool
        ensures { result ≡ is_copy (byte_of self) }
    {
        self.is_unclosed_copy() || self == State::CopyClosed
    }

    // Whether it has a sector number.
    pub fn is_numbered(self) -> bool
        ensures { result ≡ numbered (byte_of self) }
    {
        match self {
            State::Filled | State::Closed | State::DroppedFilled => true,
            State::CopyFilled | State::CopyClosed => true,
            _ => false,
        }
    }

    // Whether only the last claimed slot may be so, since it is not filled.
    pub fn is_unfilled(self) -> bool
        ensures { result ≡ unfilled (byte_of self) }
    {
        self == State::Claimed || self.is_unclosed_copy()
    }
}

// The same by the flags as they are read, which on any flash may be no state's; each is asked where a byte is at hand.

// Whether a slot may have these flags.
pub fn is_legal(flags: u8) -> bool
    ensures { result ≡ legal flags }
{
    State::try_from(flags).is_ok()
}

// Whether a slot with these flags closes its group.
pub fn closes_group(flags: u8) -> bool
    ensures { result ≡ closes flags }
{
    State::try_from(flags).is_ok_and(State::closes)
}

// Whether it is the last of its group.
pub fn ends_group(flags: u8) -> bool
    ensures { result ≡ ends flags }
{
    State::try_from(flags).is_ok_and(State::ends)
}

// Whether it is a copy.
pub fn is_copy(flags: u8) -> bool
    ensures { result ≡ is_copy flags }
{
    State::try_from(flags).is_ok_and(State::is_copy)
}

// Whether it is a copy that is not closed.
pub fn is_unclosed_copy(flags: u8) -> bool
    ensures { result ≡ unclosed_copy flags }
{
    State::try_from(flags).is_ok_and(State::is_unclosed_copy)
}

// Whether it has a sector number.
pub fn is_numbered(flags: u8) -> bool
    ensures { result ≡ numbered flags }
{
    State::try_from(flags).is_ok_and(State::is_numbered)
}

// Whether only the last claimed slot may have these flags, since it is not filled.
pub fn is_unfilled(flags: u8) -> bool
    ensures { result ≡ unfilled flags }
{
    State::try_from(flags).is_ok_and(State::is_unfilled)
}
