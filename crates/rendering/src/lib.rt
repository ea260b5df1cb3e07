// The text that is written of a formula, and what is proved of it: written of a formula that was read, it is no longer than
// the text that was read, it has the format, reading it gives the same number of variables, prefix and set of clauses,
// and writing those gives the same text.
#![tactic(auto)]

ghost use Rattle.rendering.specs.Sample.{SampleStands};
ghost use Rattle.rendering.specs.Trip.{BlocksStand, RoundTrip};

// The blocks of a prefix are the longest runs of neighbours with one quantifier.
pub fn blocks_stand()
    ensures { BlocksStand }
{}

// What is written is read back.
pub fn round_trip_stands()
    ensures { RoundTrip }
{}

// One text, byte by byte.
pub fn sample_stands()
    ensures { SampleStands }
{}
