// Below layer 2: what a node is made of and what it says, each told without the whole node. Here are the types.
#![tactic(auto)]

pub mod concerns;
pub mod frames;
pub mod links;
pub mod pending;
pub mod phases;

// Why a node is Leaving.
#[derive(Clone, Copy, Debug, PartialEq, Eq)]
pub enum Reason {
    Collision,
    Release,
}

// The seven states.
#[derive(Clone, Copy, Debug, PartialEq, Eq)]
pub enum Phase {
    Off,
    // How many CIDs have left, and how many ticks came since the fourth.
    Testing(u8, u8),
    Reserved,
    Permitted,
    Leaving(Reason),
    Resting,
    Silent,
}

// What the host can order to be sent: a message's field and data, or an enquiry's data. The data stand as in a frame: one word, and
// how many of its bytes count.
#[derive(Clone, Copy, Debug, PartialEq, Eq)]
pub enum Host {
    Message { field: u16, len: u8, bytes: u64 },
    Enquiry { len: u8, bytes: u64 },
}

// A node's link state, as its host tells it.
#[derive(Clone, Copy, Debug, PartialEq, Eq)]
pub enum Link {
    ErrorActive = 0,
    ErrorPassive = 1,
    BusOff = 2,
}

// The error reports, by the standard's numbers.
#[derive(Clone, Copy, Debug, PartialEq, Eq)]
pub enum Error {
    Report0 = 0,
    Report1 = 1,
    Report2 = 2,
    Report3 = 3,
}

// All that waits to be sent, one of each sort at most.
#[derive(Clone, Copy, Debug, PartialEq, Eq)]
pub struct Waiting {
    pub reply: bool,
    pub amd: bool,
    pub report: bool,
    pub error: Option<Error>,
    pub host: Option<Host>,
}

// The frames with an age.
#[derive(Clone, Copy, Debug, PartialEq, Eq)]
pub enum Timed {
    Reply,
    Amr,
}

// What of a frame can concern a node: that it has the node's alias (and whether it is a CID), or, under another alias at a
// Permitted node, that it is an AME or an AMD.
#[derive(Clone, Copy, Debug, PartialEq, Eq)]
pub enum Concern {
    SameAlias(bool),
    Ame,
    Amd,
}
