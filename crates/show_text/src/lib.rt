// What `show` prints of a slip, as document 01 has it.
#![tactic(auto)]

ghost use Rattle.slips.specs.Opening.{Counted};
ghost use Rattle.trees.specs.Rules.{max_bytes, max_nodes};

use answers::Accepted;
use outcomes::numbers::Refused;
use pages::Hex;
use slips::{header, open};
use std::io;
use std::io::Write;
use tables::areas::{Areas, Full};
use tables::limits::Slip;
use tables::table::Table;

pub fn slip(page: &mut impl Write, s: &[u8]) -> io::Result<()> {
    match header::header_of(s) {
        Ok(n) => opened(page, s, n),
        Err(refusal) => refused(page, Refused::from(refusal)),
    }
}

fn refused(page: &mut impl Write, r: Refused) -> io::Result<()> {
    writeln!(page, "refused {} {}", r.refusal.number(), r.place)
}

fn opened(page: &mut impl Write, s: &[u8], n: usize) -> io::Result<()>
    requires { Counted s.now n max_bytes max_nodes }
{
    let mut a = Areas::<{ Slip::MAX_NODES }, { Slip::MAX_BYTES }, { Full::LABELS }>::new();
    let o = open::open_in(
        s,
        n,
        &mut a.types,
        &mut a.counts,
        &mut a.lengths,
        &mut a.values,
        &mut a.labels,
    );
    match o.answer {
        Ok(slip) => {
            heading(page, n, slip)?;
            pairs(page, a.table(o.rows, o.used))
        }
        Err(r) => refused(page, r),
    }
}

fn heading(page: &mut impl Write, nodes: usize, slip: Accepted) -> io::Result<()> {
    let edition = Slip::EDITION;
    let blocks = slip.blocks;
    writeln!(
        page,
        "slip {edition} {nodes} {blocks}\nroot {}",
        Hex(&slip.label)
    )
}

// The pairs of type 2 or above, row after row.
fn pairs(page: &mut impl Write, t: Table) -> io::Result<()> {
    let mut rest = t.values;
    for (kind, length) in t.types.iter().zip(t.lengths) {
        let (value, behind) = rest.split_at(usize::from(*length).min(rest.len()));
        if Slip::FIRST_TEXT <= usize::from(*kind) {
            writeln!(page, "pair {kind} {} {}", value.len(), Hex(value))?;
        }
        rest = behind;
    }
    Ok(())
}
