// What keeps an image from being a volume.
ghost use Rattle.std.specs.Prelude.{◌≡◌};
ghost use Rattle.image.specs.Flaws.{label_flaw, rule_flaw};

use label::LabelFault;

// A broken rule, and its place: a byte of the tally, a ring block, or a slot. The rule is a number and no enum: it is
// printed as such, and the checks promise the lowest one that is broken.
#[derive(Clone, Copy, PartialEq, Eq, Debug)]
pub struct Broken {
    pub rule: u8,
    pub place: u16,
}

#[derive(Clone, Copy, PartialEq, Eq, Debug)]
pub enum Flaw {
    // The chip is off.
    NoPower,
    // The label is at fault, at this byte.
    Label(LabelFault),
    // A rule is broken.
    Rule(Broken),
}

impl From<LabelFault> for Flaw {
    ghost from_gives = { λ f r. r ≡ label_flaw f };

    fn from(fault: LabelFault) -> Flaw {
        Flaw::Label(fault)
    }
}

impl From<Broken> for Flaw {
    ghost from_gives = { λ x r. r ≡ rule_flaw x };

    fn from(broken: Broken) -> Flaw {
        Flaw::Rule(broken)
    }
}
