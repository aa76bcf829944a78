// The lookup of document 01: a value of a type in the first of two unpacked records, or else in the second.
#![tactic(auto)]

pub mod held;

ghost use Rattle.std.specs.Prelude.{◌≡◌, ◌+◌, ◌≤◌, length};
ghost use Rattle.tables.specs.Tables.{seen};
ghost use Rattle.lookup.specs.Lookup.{finding_of, lookup, PartOf, Handed};

use held::Span;
use tables::table::Table;

// Which record has it, and the part of that record's area.
#[derive(Clone, Copy)]
pub enum Found {
    First(Span),
    Second(Span),
}

pub fn finding(kind: u16, first: Table, second: Table) -> Option<Found>
    ensures { finding_of result ≡ lookup kind (seen first.entry) (seen second.entry) }
{
    if let Some(span) = held::held_in(kind, first) {
        return Some(Found::First(span));
    }
    let span = held::held_in(kind, second)?;
    Some(Found::Second(span))
}

fn part<'a>(area: &'a [u8], span: Span) -> &'a [u8]
    requires { span.start + span.size ≤ length area.now }
    ensures { PartOf area.entry span.start span.size result }
{
    &area[span.start..span.start + span.size]
}

// The value of the first row of that type, as a part of the area that it lies in; the empty part at the start of the first
// area where neither has it.
pub fn find<'a>(kind: u16, first: Table<'_, 'a>, second: Table<'_, 'a>) -> &'a [u8]
    ensures { Handed (lookup kind (seen first.entry) (seen second.entry)) first.entry.values second.entry.values result }
{
    match finding(kind, first, second) {
        Some(Found::First(span)) => part(first.values, span),
        Some(Found::Second(span)) => part(second.values, span),
        None => part(first.values, Span { start: 0, size: 0 }),
    }
}

// Which record has it: 1, 2, or 0 where neither does.
pub fn holder(kind: u16, first: Table, second: Table) -> usize
    ensures { result ≡ (lookup kind (seen first.entry) (seen second.entry)).holder }
{
    match finding(kind, first, second) {
        Some(Found::First(_)) => 1,
        Some(Found::Second(_)) => 2,
        None => 0,
    }
}
