// The parts of a node and of an inbox frame as words. What was packed comes back; unpacking takes any word. Here alone
// kinds are numbers: C holds the words.
ghost use Rattle.std.specs.Prelude.{◌≡◌, ◌%◌, ◌^◌, ◌<◌, eqb};
ghost use Rattle.pack.specs.Words.{frame_from, alias_from, link_in, past_in, phase_at, phase_in, reply_in, error_from, waiting_from, host_at, host_bytes, StateOf, Rephased, round, stamp_in};
ghost use Rattle.node.specs.Rules.{is_off};

use crate::ages::ROUND;
use headers::alias::Alias;
use headers::frame::Frame;
use node::Node;
use state::{Error, Host, Link, Phase, Reason, Waiting};

// A frame's kind, length and header in 48 bits.
pub fn frame_word(f: Frame) -> u64
    ensures { (frame_from result f.bytes ≡ f) × (result < 2 ^ 48) }
{
    u64::from(f.kind) + 0x100 * u64::from(f.len) + 0x1_0000 * u64::from(f.header)
}

#[tactic(auto, unfolding(crate::specs::Words::frame_from))]
pub fn frame_at(w: u64, bytes: u64) -> Frame
    ensures { result ≡ frame_from w bytes }
{
    Frame {
        kind: (w % 0x100) as u8,
        header: (w / 0x1_0000 % 0x1_0000_0000) as u32,
        len: (w / 0x100 % 0x100) as u8,
        bytes,
    }
}

// A phase in 19 bits.
#[tactic(auto, unfolding(crate::specs::Words::phase_at))]
fn phase_word(p: Phase) -> u64
    ensures { (phase_at result ≡ p) × (result < 2 ^ 19) }
{
    match p {
        Phase::Off => 0,
        Phase::Testing(sent, ticks) => 1 + 8 * u64::from(sent) + 2048 * u64::from(ticks),
        Phase::Reserved => 2,
        Phase::Permitted => 3,
        Phase::Leaving(Reason::Collision) => 4,
        Phase::Leaving(Reason::Release) => 5,
        Phase::Resting => 6,
        Phase::Silent => 7,
    }
}

#[tactic(auto, unfolding(crate::specs::Words::phase_at))]
fn phase_at(w: u64) -> Phase
    ensures { result ≡ phase_at w }
{
    match w % 8 {
        0 => Phase::Off,
        1 => Phase::Testing((w / 8 % 256) as u8, (w / 2048 % 256) as u8),
        2 => Phase::Reserved,
        3 => Phase::Permitted,
        4 => Phase::Leaving(Reason::Collision),
        5 => Phase::Leaving(Reason::Release),
        6 => Phase::Resting,
        _ => Phase::Silent,
    }
}

// The error report that waits, if one does, in 3 bits.
fn error_word(e: Option<Error>) -> u64
    ensures { (error_from result ≡ e) × (result < 8) }
{
    match e {
        None => 0,
        Some(e) => 1 + e as u64,
    }
}

fn error_at(w: u64) -> Option<Error>
    ensures { result ≡ error_from w }
{
    match w {
        0 => None,
        1 => Some(Error::Report0),
        2 => Some(Error::Report1),
        3 => Some(Error::Report2),
        _ => Some(Error::Report3),
    }
}

// The host's order, if there is one: which it is, its length, and a message's field.
#[tactic(auto, unfolding(crate::specs::Words::host_at))]
pub fn host_word(h: Option<Host>) -> u64
    ensures { host_at result (host_bytes h) ≡ h }
{
    match h {
        None => 0,
        Some(Host::Message { field, len, .. }) => 1
            + 0x100 * u64::from(len)
            + 0x1_0000 * u64::from(field),
        Some(Host::Enquiry { len, .. }) => 2 + 0x100 * u64::from(len),
    }
}

pub fn host_bytes(h: Option<Host>) -> u64
    ensures { result ≡ host_bytes h }
{
    match h {
        None => 0,
        Some(Host::Message { bytes, .. }) | Some(Host::Enquiry { bytes, .. }) => bytes,
    }
}

#[tactic(auto, unfolding(crate::specs::Words::host_at))]
pub fn host_at(w: u64, bytes: u64) -> Option<Host>
    ensures { result ≡ host_at w bytes }
{
    let len = (w / 0x100 % 0x100) as u8;
    match w % 0x100 {
        0 => None,
        1 => Some(Host::Message {
            field: (w / 0x1_0000 % 0x1_0000) as u16,
            len,
            bytes,
        }),
        _ => Some(Host::Enquiry { len, bytes }),
    }
}

// A node's alias, what waits at it but the host frame, its link state, whether its first alias is past (A.9) and its phase.
pub fn state_word(n: Node) -> u64
    ensures { StateOf n result }
{
    let waiting = n.waiting;
    u64::from(n.alias.0)
        + 0x1_0000 * u64::from(waiting.reply)
        + 0x2_0000 * u64::from(waiting.amd)
        + 0x4_0000 * u64::from(waiting.report)
        + 0x8_0000 * error_word(waiting.error)
        + 0x40_0000 * u64::from(n.own.link.number())
        + 0x100_0000 * u64::from(n.generator.past)
        + 0x200_0000 * phase_word(n.phase)
}

// That word with another phase.
pub fn with_phase(w: u64, phase: Phase) -> u64
    ensures { Rephased w phase result }
{
    w % 0x200_0000 + 0x200_0000 * phase_word(phase)
}

pub fn alias_in(w: u64) -> Alias
    ensures { result ≡ alias_from w }
{
    Alias((w % 0x1_0000) as u16)
}

pub fn link_in(w: u64) -> Link
    ensures { result ≡ link_in w }
{
    Link::from((w / 0x40_0000 % 4) as u8)
}

pub fn past_in(w: u64) -> bool
    ensures { result ≡ past_in w }
{
    w / 0x100_0000 % 2 == 1
}

pub fn phase_in(w: u64) -> Phase
    ensures { result ≡ phase_in w }
{
    phase_at(w / 0x200_0000 % 0x8_0000)
}

pub fn is_off_in(w: u64) -> bool
    ensures { result ≡ is_off (phase_in w) }
{
    w / 0x200_0000 % 8 < 1
}

pub fn waiting_in(w: u64, host: Option<Host>) -> Waiting
    ensures { result ≡ waiting_from w host }
{
    Waiting {
        reply: reply_in(w),
        amd: w / 0x2_0000 % 2 == 1,
        report: w / 0x4_0000 % 2 == 1,
        error: error_at(w / 0x8_0000 % 8),
        host,
    }
}

pub fn reply_in(w: u64) -> bool
    ensures { result ≡ reply_in w }
{
    w / 0x1_0000 % 2 == 1
}

// A frame's word with what the clock reads when it joins an inbox.
pub fn stamped_word(f: Frame, clock: u64) -> u64
    ensures { (frame_from result f.bytes ≡ f) × (stamp_in result ≡ clock % round) }
{
    frame_word(f) + 0x1_0000_0000_0000 * (clock % ROUND)
}

pub fn stamp_in(w: u64) -> u64
    ensures { result ≡ stamp_in w }
{
    w / 0x1_0000_0000_0000 % ROUND
}
