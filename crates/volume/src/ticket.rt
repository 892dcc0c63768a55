// Tickets: who holds one may put into the batch that it was given for, and must close or drop it.
ghost use Rattle.std.specs.Prelude.{◌≡◌};

// A ticket for an open batch; 0 is the number of one that is spent. No Option: only a proof asks whether it is spent, and
// no batch has the number 0.
pub struct Ticket {
    number: u32,
}

// Only a spent ticket may be let go.
impl Drop for Ticket {
    fn drop(self)
        requires { self.number ≡ 0 }
    {
        let Ticket { number: _ } = self;
    }
}

impl Ticket {
    // The ticket of a batch that was opened.
    pub(crate) fn given(number: u32) -> Ticket
        ensures { result.number ≡ number }
    {
        Ticket { number }
    }

    // Its number.
    pub fn number(&self) -> u32
        ensures { result ≡ self.now.number }
    {
        self.number
    }

    // Spends it.
    pub(crate) fn spend(self) -> u32
        ensures { result ≡ self.number }
    {
        let Ticket { number } = self;
        number
    }
}
