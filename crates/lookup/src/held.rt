// What one table holds of a type.
ghost use Rattle.std.specs.Prelude.{◌≡◌, ◌≤◌, length};
ghost use Rattle.trees.specs.Rules.{max_nodes};
ghost use Rattle.tables.specs.Tables.{seen};
ghost use Rattle.lookup.specs.Lookup.{spot_of, first_of, held_in};

use tables::form;
use tables::table::Table;

// A part of a record's values area: where it starts and how long it is.
#[derive(Clone, Copy)]
pub struct Span {
    pub start: usize,
    pub size: usize,
}

// The value of the first row of a type.
fn first_of(kind: u16, t: Table) -> Option<Span>
    requires { (length t.lengths.now ≡ length t.types.now) × (length t.types.now ≤ max_nodes) }
    ensures { spot_of result ≡ first_of kind 0 t.entry.types.now t.entry.lengths.now }
{
    let mut start = 0;
    for (i, other) in t.types.iter().enumerate() {
        let size = form::cell(t.lengths, i);
        if *other == kind {
            return Some(Span { start, size });
        }
        start += size;
    }
    None
}

// What a table of the form holds of a type; any other table, or of type 0, nothing.
#[tactic(auto, using(crate::proofs::Rows::searched_held, crate::proofs::Rows::unfit_held))]
pub fn held_in(kind: u16, t: Table) -> Option<Span>
    ensures { spot_of result ≡ held_in kind (seen t.entry) }
{
    if kind != 0 && form::table_fits(t) {
        return first_of(kind, t);
    }
    None
}
