// Headers and aliases for C, over the functions of layer 1.
ghost use Rattle.std.specs.Prelude.{◌≡◌, [], ◌∷◌};
ghost use Rattle.headers.specs.Rules.{read, first_alias, next_alias};
ghost use Rattle.headers.specs.Answers.{kind_as, parts_as};
ghost use Rattle.card_api.specs.Out.{Out, one};
ghost use Rattle.card_api.specs.Lcc.{kind_code, kind_number, kind_section, parts_words, next_words, write_any};

use crate::put_out;
use headers::alias::{Alias, Next, first_alias, next_alias};
use headers::header::{self, Kind, Parts, Type, bit_28, type_bit};
use headers::refusal::Refusal;

// HEADERS

// The header as one word.
fn header_words(h: u32) -> [u64; 1]
    ensures { result ≡ one h }
{
    [u64::from(h)]
}

#[unsafe(no_mangle)]
pub extern "C" fn lcc_write_header(
    bit: u8,
    class: u8,
    field: u16,
    alias: u16,
    header: &mut [u64; 1],
) -> u64
    ensures { Out one (write_any bit class field alias) result header.old header.new }
{
    let written = match (bit, class) {
        (0..=1, 0..=1) => header::write_header(
            bit == 1,
            Type::from(class == 1),
            field,
            Alias(alias),
        ),
        _ => Err(Refusal::Malformed),
    };
    put_out(written, header, header_words)
}

fn kind_code(kind: Kind) -> u64
    ensures { result ≡ kind_code (kind_as kind) }
{
    match kind {
        Kind::Cid { .. } => 0,
        Kind::Rid => 1,
        Kind::Amd => 2,
        Kind::Ame => 3,
        Kind::Amr => 4,
        Kind::ErrorReport(_) => 5,
        Kind::Reserved => 6,
        Kind::Message => 7,
    }
}

// The number of a CID or an error report, else 0.
fn kind_number(kind: Kind) -> u64
    ensures { result ≡ kind_number (kind_as kind) }
{
    match kind {
        Kind::Cid { number, .. } | Kind::ErrorReport(number) => u64::from(number),
        _ => 0,
    }
}

// The section of a CID, else 0.
fn kind_section(kind: Kind) -> u64
    ensures { result ≡ kind_section (kind_as kind) }
{
    match kind {
        Kind::Cid { section, .. } => u64::from(section.0),
        _ => 0,
    }
}

// A header's parts in seven words, bit 28 last.
fn parts_words(p: Parts) -> [u64; 7]
    ensures { result ≡ parts_words (parts_as p) }
{
    [
        u64::from(type_bit(p.class)),
        u64::from(p.field),
        u64::from(p.alias.0),
        kind_code(p.kind),
        kind_number(p.kind),
        kind_section(p.kind),
        u64::from(bit_28(p.bit)),
    ]
}

#[unsafe(no_mangle)]
pub extern "C" fn lcc_read_header(header: u32, parts: &mut [u64; 7]) -> u64
    ensures { Out parts_words (read header) result parts.old parts.new }
{
    put_out(header::read_header(header), parts, parts_words)
}

// ALIASES

// The alias as one word.
fn alias_words(a: Alias) -> [u64; 1]
    ensures { result ≡ one a.0 }
{
    [u64::from(a.0)]
}

// The next state, and the alias drawn from it.
fn next_words(n: Next) -> [u64; 2]
    ensures { result ≡ n.state ∷ n.alias.0 ∷ [] }
{
    [n.state, u64::from(n.alias.0)]
}

#[unsafe(no_mangle)]
pub extern "C" fn lcc_first_alias(id: u64, alias: &mut [u64; 1]) -> u64
    ensures { Out one (first_alias id) result alias.old alias.new }
{
    put_out(first_alias(id), alias, alias_words)
}

#[unsafe(no_mangle)]
pub extern "C" fn lcc_next_alias(state: u64, next: &mut [u64; 2]) -> u64
    ensures { Out next_words (next_alias state) result next.old next.new }
{
    put_out(next_alias(state), next, next_words)
}
