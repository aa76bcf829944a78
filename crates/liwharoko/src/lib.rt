// The static library: each public call under a plain name, for C and Rust. include/liwharoko.h declares them.
#![tactic(auto)]

ghost use Rattle.std.specs.Prelude.{◌≡◌};
ghost use Rattle.sha256.specs.Sha256 as Sha256;
ghost use Rattle.outcomes.specs.Outcome.{Leaves};
ghost use Rattle.titles.specs.Compose.{compose_of, composed_text};
ghost use Rattle.tables.specs.Tables as Tables;
ghost use Rattle.tables.specs.Tables.{seen};
ghost use Rattle.lookup.specs.Lookup.{lookup};
ghost use Rattle.slips.specs.Check.{check_of};
ghost use Rattle.pack.specs.Pack.{pack_of};
ghost use Rattle.unpack.specs.Unpack.{unpack_of};
ghost use Rattle.prune.specs.Prune.{prune_of};
ghost use Rattle.join.specs.Join.{join_of};
ghost use Rattle.liwharoko.specs.Parts.{part_of};

use answers::Answer;
use join::join;
use lookup::held::Span;
use lookup::{Found, finding, holder};
use prune::prune;
use tables::table::Table;
use titles::Composed;

// A part of the holder's values area: an exported function can't hand back a borrowed slice.
#[repr(C)]
#[derive(Drop)]
pub struct Part {
    pub holder: usize,
    pub start: usize,
    pub size: usize,
}

impl From<Option<Found>> for Part {
    ghost use Rattle.std.specs.Prelude.{◌≡◌};
    ghost use Rattle.lookup.specs.Lookup.{finding_of};
    ghost use Rattle.liwharoko.specs.Parts.{part_of};

    ghost from_gives = { λ f p. p ≡ part_of (finding_of f) };

    fn from(found: Option<Found>) -> Part {
        let (which, span) = match found {
            Some(Found::First(span)) => (1, span),
            Some(Found::Second(span)) => (2, span),
            None => (0, Span { start: 0, size: 0 }),
        };
        Part {
            holder: which,
            start: span.start,
            size: span.size,
        }
    }
}

// A table from its parts, as C lends them.
fn table<'a>(
    types: &'a [u16],
    counts: &'a [u16],
    lengths: &'a [u16],
    values: &'a [u8],
) -> Table<'a, 'a>
    ensures { seen result ≡ Tables.table types.now counts.now lengths.now values.now }
{
    Table {
        types,
        counts,
        lengths,
        values,
    }
}

#[unsafe(no_mangle)]
pub extern "C" fn liwharoko_check(slip: &[u8]) -> Answer
    ensures { result ≡ check_of Sha256.label composed_text slip.now }
{
    slips::check::check(slip)
}

#[unsafe(no_mangle)]
pub extern "C" fn liwharoko_pack(
    types: &[u16],
    counts: &[u16],
    lengths: &[u16],
    values: &[u8],
    out: &mut [u8],
) -> Answer
    ensures { Leaves (pack_of Sha256.label composed_text (Tables.table types.now counts.now lengths.now values.now) out.old) result out.new }
{
    pack::pack(table(types, counts, lengths, values), out)
}

#[unsafe(no_mangle)]
pub extern "C" fn liwharoko_unpack(
    slip: &[u8],
    types: &mut [u16],
    counts: &mut [u16],
    lengths: &mut [u16],
    values: &mut [u8],
) -> Answer
    ensures { Leaves (unpack_of Sha256.label composed_text slip.now (Tables.table types.old counts.old lengths.old values.old)) result (Tables.table types.new counts.new lengths.new values.new) }
{
    unpack::unpack(slip, types, counts, lengths, values)
}

#[unsafe(no_mangle)]
pub extern "C" fn liwharoko_prune(slip: &[u8], list: &[u16], out: &mut [u8]) -> Answer
    ensures { Leaves (prune_of Sha256.label composed_text slip.now list.now out.old) result out.new }
{
    prune(slip, list, out)
}

#[unsafe(no_mangle)]
pub extern "C" fn liwharoko_join(first: &[u8], second: &[u8], out: &mut [u8]) -> Answer
    ensures { Leaves (join_of Sha256.label composed_text first.now second.now out.old) result out.new }
{
    join(first, second, out)
}

// The part that `lookup::find` hands back, by its place in the holder's area.
#[unsafe(no_mangle)]
pub extern "C" fn liwharoko_find(
    kind: u16,
    types1: &[u16],
    counts1: &[u16],
    lengths1: &[u16],
    values1: &[u8],
    types2: &[u16],
    counts2: &[u16],
    lengths2: &[u16],
    values2: &[u8],
) -> Part
    ensures { result ≡ part_of (lookup kind (Tables.table types1.now counts1.now lengths1.now values1.now) (Tables.table types2.now counts2.now lengths2.now values2.now)) }
{
    let first = table(types1, counts1, lengths1, values1);
    let second = table(types2, counts2, lengths2, values2);
    Part::from(finding(kind, first, second))
}

#[unsafe(no_mangle)]
pub extern "C" fn liwharoko_holder(
    kind: u16,
    types1: &[u16],
    counts1: &[u16],
    lengths1: &[u16],
    values1: &[u8],
    types2: &[u16],
    counts2: &[u16],
    lengths2: &[u16],
    values2: &[u8],
) -> usize
    ensures { result ≡ (lookup kind (Tables.table types1.now counts1.now lengths1.now values1.now) (Tables.table types2.now counts2.now lengths2.now values2.now)).holder }
{
    let first = table(types1, counts1, lengths1, values1);
    let second = table(types2, counts2, lengths2, values2);
    holder(kind, first, second)
}

#[unsafe(no_mangle)]
pub extern "C" fn liwharoko_compose(title: &[u8], out: &mut [u8]) -> Composed
    ensures { Leaves (compose_of title.now out.old) result out.new }
{
    titles::compose(title, out)
}
