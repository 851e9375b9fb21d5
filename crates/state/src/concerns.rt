// What of a frame concerns a node, by the node's alias, its phase and its Node ID.
ghost use Rattle.std.specs.Prelude.{◌≡◌};
ghost use Rattle.headers.specs.Answers.{kind_as};
ghost use Rattle.state.specs.Rules.{is_cid, is_own};
ghost use Rattle.state.specs.Concerns.{kind_concern, concern};

use crate::{Concern, Phase};
use headers::alias::Alias;
use headers::frame::Frame;
use headers::header::Kind;

fn is_cid(k: Kind) -> bool
    ensures { result ≡ is_cid (kind_as k) }
{
    matches!(k, Kind::Cid { .. })
}

// By its kind, under another alias at a Permitted node.
fn kind_concern(k: Kind) -> Option<Concern>
    ensures { result ≡ kind_concern (kind_as k) }
{
    match k {
        Kind::Ame => Some(Concern::Ame),
        Kind::Amd => Some(Concern::Amd),
        _ => None,
    }
}

// What of a frame concerns a node with this alias, in this phase. This alone reads the header, and tells the kind from the parts
// only where it decides: most frames have another alias.
pub fn concern_of(alias: Alias, phase: Phase, f: Frame) -> Option<Concern>
    ensures { result ≡ concern alias.0 phase f }
{
    if f.kind == 0 {
        let p = headers::header::parts_of(f.header);
        if p.alias == alias {
            return Some(Concern::SameAlias(is_cid(headers::header::kind_of(p.class, p.field))));
        }
        if phase.is_permitted() {
            return kind_concern(headers::header::kind_of(p.class, p.field));
        }
    }
    None
}

// Whether a frame has exactly the 6 bytes of this Node ID.
pub fn has_id(f: Frame, id: u64) -> bool
    ensures { result ≡ is_own id f }
{
    f.len == 6 && headers::node_id::id_in(f.bytes) == id
}
