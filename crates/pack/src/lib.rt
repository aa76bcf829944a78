// A table packed into a slip.
#![tactic(auto)]

ghost use Rattle.std.specs.Prelude.{◌≡◌, ◌≤◌};
ghost use Rattle.sha256.specs.Sha256 as Sha256;
ghost use Rattle.titles.specs.Compose.{composed_text};
ghost use Rattle.trees.specs.Rules.{max_bytes};
ghost use Rattle.trees.specs.Rows.{verdict};
ghost use Rattle.tables.specs.Tables.{sum, Formed, seen};
ghost use Rattle.engine.specs.Engine.{told, judged_seen};
ghost use Rattle.outcomes.specs.Outcome.{Leaves};
ghost use Rattle.pack.specs.Clauses.{AnswerGives};
ghost use Rattle.pack.specs.Pack.{fault_seen, table_fault, rows_of, answer_of, pack_of};

use answers::{Accepted, Answer};
use codec::{measure, write};
use engine::judge;
use engine::judge::Judged;
use outcomes::numbers::{Refusal, Refused};
use tables::areas::Full;
use tables::form;
use tables::limits::Slip;
use tables::table::Table;

// Whether a table has the form, or its refusal.
#[tactic(auto, using(tables::specs::TablesLaws::columns_told), unfolding(crate::specs::Pack::table_fault))]
fn formed(t: Table) -> Result<(), Refused>
    ensures { fault_seen result ≡ table_fault (seen t.entry) }
{
    if !form::columns_fit(t) {
        return Err(Refusal::BadTable.at(0));
    }
    if t.types.is_empty() {
        return Err(Refusal::NoNodes.at(0));
    }
    if let Some(row) = form::first_bad(t) {
        return Err(Refusal::BadTable.at(row));
    }
    if t.values.len() != form::sum(t.lengths) {
        return Err(Refusal::BadTable.at(0));
    }
    Ok(())
}

// What the engine tells of a table of the form that makes no slip over 32,768 bytes.
fn judged(t: Table) -> Result<Judged, Refused>
    requires { Formed (seen t) × (sum t.lengths.now ≤ max_bytes) }
    ensures { judged_seen result ≡ told (verdict Sha256.label composed_text (rows_of (seen t.entry))) }
{
    let mut labels = [0u8; Full::LABELS];
    judge::judge(t, &mut labels)
}

// What a table comes to, for an output of so many bytes: every refusal is ruled out before a byte is written.
fn outcome(t: Table, room: usize) -> Result<Accepted, Refused>
    ensures { AnswerGives (seen t.entry) room (answer_of Sha256.label composed_text (seen t.entry) room) result }
{
    formed(t)?;
    let bytes = measure::size(t);
    if Slip::MAX_BYTES < bytes {
        return Err(Refusal::TooLong.at(0));
    }
    let judged = judged(t)?;
    let Some(label) = judged.root else {
        return Err(Refusal::NotOneTree.at(0));
    };
    if room < bytes {
        return Err(Refusal::NoRoom.at(0));
    }
    Ok(Accepted {
        length: bytes,
        blocks: judged.blocks,
        label,
    })
}

// Leaves a table into `out`: the slip of its tree, or the refusal.
pub fn pack(t: Table, out: &mut [u8]) -> Answer
    ensures { Leaves (pack_of Sha256.label composed_text (seen t.entry) out.old) result out.new }
{
    let outcome = outcome(t, out.len());
    if outcome.is_ok() {
        write::write(t, out);
    }
    Answer::from(outcome)
}
