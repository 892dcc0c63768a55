#![tactic(auto)]
// What a flash dump carries, as text.
use image::{Broken, Survey};
use label::{Label, LabelFault};
use std::fmt;

// The line on a label, or on its fault.
#[derive(Clone, Copy)]
pub struct LabelLine<'a>(pub Result<Label<'a>, LabelFault>);

// The line on the rule that an image breaks.
#[derive(Clone, Copy)]
pub struct RuleLine(pub Broken);

// The lines on a sound image, with its numbers.
#[derive(Clone, Copy)]
pub struct SurveyLines(pub Survey);

// Bytes in hex, two capital digits for each.
#[derive(Clone, Copy)]
pub struct Hex<'a>(pub &'a [u8]);

// A name in hex, or `-` where there is none.
#[derive(Clone, Copy)]
struct NameText<'a>(Option<&'a [u8]>);

impl fmt::Display for Hex<'_> {
    fn fmt<W: fmt::Write>(&self, f: &mut fmt::Formatter<W>) -> fmt::Result {
        for b in self.0 {
            write!(f, "{b:02X}")?;
        }
        Ok(())
    }
}

impl fmt::Display for NameText<'_> {
    fn fmt<W: fmt::Write>(&self, f: &mut fmt::Formatter<W>) -> fmt::Result {
        match self.0 {
            Some(bytes) => write!(f, "{}", Hex(bytes)),
            None => write!(f, "-"),
        }
    }
}

impl fmt::Display for LabelLine<'_> {
    fn fmt<W: fmt::Write>(&self, f: &mut fmt::Formatter<W>) -> fmt::Result {
        match self.0 {
            Ok(label) => {
                let sizes = label.sizes;
                let name = NameText(label.name);
                write!(
                    f,
                    "label ring {} sectors {} tally {} name {name}",
                    sizes.ring, sizes.sectors, sizes.tally
                )
            }
            Err(fault) => write!(f, "label fault {}", fault.at),
        }
    }
}

impl fmt::Display for RuleLine {
    fn fmt<W: fmt::Write>(&self, f: &mut fmt::Formatter<W>) -> fmt::Result {
        let broken = self.0;
        write!(f, "image rule {} place {}", broken.rule, broken.place)
    }
}

impl fmt::Display for SurveyLines {
    fn fmt<W: fmt::Write>(&self, f: &mut fmt::Formatter<W>) -> fmt::Result {
        let found = self.0;
        writeln!(f, "image ok")?;
        writeln!(
            f,
            "tally booked {} begun {} left {}",
            found.booked,
            u8::from(found.begun),
            found.left
        )?;
        writeln!(f, "slots unclaimed {}", found.unclaimed)?;
        write!(f, "sectors written {}", found.written)
    }
}
