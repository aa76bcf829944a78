// The tree of a slip as people draw it.
#![tactic(auto)]

ghost use Rattle.std.specs.Prelude.{◌≡◌};
ghost use Rattle.sha256.specs.Sha256 as Sha256;
ghost use Rattle.titles.specs.Compose.{composed_text};
ghost use Rattle.answers.specs.Answers.{answer_of};
ghost use Rattle.slips.specs.Check.{body_of, check_of};
ghost use Rattle.slips.specs.Opening.{Counted};
ghost use Rattle.trees.specs.Rules.{max_bytes, max_nodes};

use answers::{Accepted, Answer};
use outcomes::numbers::Refused;
use pages::{Complaints, Page};
use row_lines::drawing;
use slips::{header, open};
use std::io;
use tables::areas::{Areas, Full};
use tables::limits::Slip;
use tables::table::Table;

// Draws the tree of an accepted slip on standard output, and answers what the check answers.
pub fn draw(rt: &(impl Print + Complaints), s: &[u8]) -> Answer
    ensures { result ≡ check_of Sha256.label composed_text s.now }
{
    Answer::from(checked(rt, s))
}

fn checked(rt: &(impl Print + Complaints), s: &[u8]) -> Result<Accepted, Refused>
    ensures { answer_of result ≡ check_of Sha256.label composed_text s.now }
{
    let n = match header::header_of(s) {
        Ok(n) => n,
        Err(refusal) => return Err(refusal.at(0)),
    };
    opened(rt, s, n)
}

fn opened(rt: &(impl Print + Complaints), s: &[u8], n: usize) -> Result<Accepted, Refused>
    requires { Counted s.now n max_bytes max_nodes }
    ensures { answer_of result ≡ body_of Sha256.label composed_text s.now }
{
    let mut a = Areas::<{ Slip::MAX_NODES }, { Slip::MAX_BYTES }, { Full::LABELS }>::new();
    let o = open::open_in(
        s,
        n,
        &mut a.types,
        &mut a.counts,
        &mut a.lengths,
        &mut a.values,
        &mut a.labels,
    );
    if o.answer.is_ok() {
        drawn(rt, a.table(o.rows, o.used), &a.labels);
    }
    o.answer
}

// Where not all of the tree could be written, that is said.
fn drawn(rt: &(impl Print + Complaints), table: Table<'_, '_>, labels: &[u8]) {
    let mut page = Page::new(io::writer(rt));
    if drawing::draw(&mut page, table, labels).is_err() {
        pages::say(rt, b"desk", b"cannot write");
    }
}
