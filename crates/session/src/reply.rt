// What the bench answers to a line.
use std::fmt;
use volume::Refusal;

#[derive(Clone, Copy)]
pub enum Reply {
    // A line that was carried out: its letter, then `ok`, or `no` and the refusal's numbers.
    Served {
        letter: char,
        answer: Result<(), Refusal>,
    },
    // A line that is not served: `?`.
    Unknown,
}

impl fmt::Display for Reply {
    fn fmt<W: fmt::Write>(&self, f: &mut fmt::Formatter<W>) -> fmt::Result {
        match *self {
            Reply::Served { letter, answer } => match answer {
                Ok(()) => write!(f, "{letter} ok"),
                Err(refusal) => {
                    write!(f, "{letter} no")?;
                    for n in refusal.as_numbers().as_slice() {
                        write!(f, " {n}")?;
                    }
                    Ok(())
                }
            },
            Reply::Unknown => write!(f, "?"),
        }
    }
}
