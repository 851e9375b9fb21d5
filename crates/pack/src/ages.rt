// Ages by the clock: how the stamp of what waits goes on, and the ticks since a stamp.
ghost use Rattle.std.specs.Prelude.{◌≡◌};
ghost use Rattle.pack.specs.Words.{since, timed_age, stamp_on};

use state::Timed;

// The clock counts ticks and goes round. A stamp is what it read when an age began: the age is how far it has come since.
pub const ROUND: u64 = 0x1_0000;

// The stamp after an event: it stays where the same frame still waits for the alias, else an age begins now.
pub fn stamp_on(was: Option<Timed>, is: Option<Timed>, stamp: u64, clock: u64) -> u64
    ensures { result ≡ stamp_on was is stamp clock }
{
    if was.is_some() && was == is {
        stamp
    } else {
        clock
    }
}

// The ticks from a stamp to a reading of the clock.
pub fn since(clock: u64, stamp: u64) -> u64
    ensures { result ≡ since clock stamp }
{
    (clock % ROUND + ROUND - stamp % ROUND) % ROUND
}

// The age of what waits, where that has one.
pub fn timed_age(t: Option<Timed>, age: u64) -> u64
    ensures { result ≡ timed_age t age }
{
    if t.is_some() { age } else { 0 }
}
