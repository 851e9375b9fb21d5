// The frames that a node sends, by its Node ID and the alias that it has.
ghost use Rattle.std.specs.Prelude.{◌≡◌, ◌<◌};
ghost use Rattle.headers.specs.Answers.{type_of};
ghost use Rattle.state.specs.Answers.{due_as, report_as};
ghost use Rattle.state.specs.Rules.{
  sent_header,
  section_of,
  cid_field,
  bare,
  with_id,
  cid_frame,
  rid_frame,
  amd_frame,
  amr_frame,
  report_frame,
  error_frame,
  error_due,
  host_due,
};

use crate::{Error, Host};
use headers::alias::Alias;
use headers::frame::Frame;
use headers::header::Type;
use headers::node_id::Section;

// The header of a frame that a node sends: its bit 28 is 1.
fn sent_header(class: Type, field: u16, alias: Alias) -> u32
    ensures { result ≡ sent_header (type_of class) field alias.0 }
{
    headers::header::header_of(true, class, field, alias)
}

// A frame that carries no data.
fn bare_frame(header: u32) -> Frame
    ensures { result ≡ bare header }
{
    Frame {
        kind: 0,
        header,
        len: 0,
        bytes: 0,
    }
}

// A frame that carries a Node ID.
fn id_frame(header: u32, id: u64) -> Frame
    ensures { result ≡ with_id header id }
{
    Frame {
        kind: 0,
        header,
        len: 6,
        bytes: headers::node_id::packed_id(id),
    }
}

// The section of a Node ID that goes into the CID after so many others.
fn section_of(id: u64, sent: u8) -> Section
    ensures { (result.0 ≡ section_of id sent) × (result.0 < 4096) }
{
    let section = match sent {
        0 => id / 0x10_0000_0000,
        1 => id / 0x100_0000,
        2 => id / 4096,
        _ => id,
    };
    Section((section % 4096) as u16)
}

// The field of that CID: its number, 7 down to 4, and the section.
fn cid_field(id: u64, sent: u8) -> u16
    ensures { result ≡ cid_field id sent }
{
    let number = match sent {
        0 => 0x7000,
        1 => 0x6000,
        2 => 0x5000,
        _ => 0x4000,
    };
    number + section_of(id, sent).0
}

pub fn cid(id: u64, alias: Alias, sent: u8) -> Frame
    ensures { result ≡ cid_frame id alias.0 sent }
{
    bare_frame(sent_header(Type::Control, cid_field(id, sent), alias))
}

pub fn rid(alias: Alias) -> Frame
    ensures { result ≡ rid_frame alias.0 }
{
    bare_frame(sent_header(Type::Control, 0x0700, alias))
}

pub fn amd(id: u64, alias: Alias) -> Frame
    ensures { result ≡ amd_frame id alias.0 }
{
    id_frame(sent_header(Type::Control, 0x0701, alias), id)
}

pub fn amr(id: u64, alias: Alias) -> Frame
    ensures { result ≡ amr_frame id alias.0 }
{
    id_frame(sent_header(Type::Control, 0x0703, alias), id)
}

// A.2: its data is an event number, which has eight bytes.
pub fn duplicate_report(alias: Alias) -> Frame
    ensures { result ≡ report_frame alias.0 }
{
    Frame {
        kind: 0,
        header: sent_header(Type::Message, 0x15B4, alias),
        len: 8,
        bytes: 0x0101_0000_0000_0201,
    }
}

impl Error {
    // Below four: the field of a report has room for it. `From` would not say so.
    fn number(self) -> u16
        ensures { (result ≡ report_as self) × (result < 4) }
    {
        self as u16
    }
}

fn error_report(e: Error, id: u64, alias: Alias) -> Frame
    ensures { result ≡ error_frame (report_as e) id alias.0 }
{
    id_frame(sent_header(Type::Control, 0x0710 + e.number(), alias), id)
}

// The error report that waits, if one does.
pub fn error_due(e: Option<Error>, id: u64, alias: Alias) -> Option<Frame>
    ensures { due_as result ≡ error_due e id alias.0 }
{
    Some(error_report(e?, id, alias))
}

// The host frame: what the host ordered, if anything.
pub fn host_due(h: Option<Host>, alias: Alias) -> Option<Frame>
    ensures { due_as result ≡ host_due h alias.0 }
{
    let (header, len, bytes) = match h? {
        Host::Message { field, len, bytes } => (
            sent_header(Type::Message, field, alias),
            len,
            bytes,
        ),
        Host::Enquiry { len, bytes } => (sent_header(Type::Control, 0x0702, alias), len, bytes),
    };
    Some(Frame {
        kind: 0,
        header,
        len,
        bytes,
    })
}
