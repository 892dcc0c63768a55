#![tactic(auto)]
// Worked examples, as one fact about the definitions that the contracts use.
ghost use Rattle.samples.specs.Reclaiming.{Reclaiming};
ghost use Rattle.samples.specs.Samples.{Samples};

// That the examples come out as they should.
pub fn samples_stand() -> u8
    ensures { Samples }
{
    0
}

// That room for a batch is made as it should be.
pub fn room_stands() -> u8
    ensures { Reclaiming }
{
    0
}
