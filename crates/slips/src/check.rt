// The check of a slip.
ghost use Rattle.std.specs.Prelude.{◌≡◌, ◌≤◌, ◌*◌};
ghost use Rattle.trees.specs.Rules.{max_bytes, max_nodes, label_bytes};
ghost use Rattle.sha256.specs.Sha256 as Sha256;
ghost use Rattle.titles.specs.Compose.{composed_text};
ghost use Rattle.answers.specs.Answers.{answer_of};
ghost use Rattle.slips.specs.Check.{body_of, check_of};
ghost use Rattle.slips.specs.Opening.{Counted};

use crate::{header, open};
use answers::{Accepted, Answer};
use outcomes::numbers::Refused;
use tables::areas::{Full, Small};
use tables::limits::Slip;

// Opened in areas for so many nodes and bytes. They are five arrays and not one value, whose zeros would be laid down
// twice: for a small slip that is a third of the time.
fn opened<const NODES: usize, const BYTES: usize, const LABELS: usize>(
    s: &[u8],
    n: usize,
) -> Result<Accepted, Refused>
    requires counted { Counted s.now n BYTES NODES }
    requires sizes { (NODES ≤ max_nodes) × (BYTES ≤ max_bytes) × (LABELS ≡ label_bytes * NODES) }
    ensures { answer_of result ≡ body_of Sha256.label composed_text s.now }
{
    let mut types = [0u16; NODES];
    let mut counts = [0u16; NODES];
    let mut lengths = [0u16; NODES];
    let mut values = [0u8; BYTES];
    let mut labels = [0u8; LABELS];
    open::open_in(
        s,
        n,
        &mut types,
        &mut counts,
        &mut lengths,
        &mut values,
        &mut labels,
    )
    .answer
}

// The header's refusal, or what is told behind it.
fn checked(s: &[u8]) -> Result<Accepted, Refused>
    ensures { answer_of result ≡ check_of Sha256.label composed_text s.now }
{
    let n = header::header_of(s)?;
    if s.len() <= Small::BYTES && n <= Small::NODES {
        opened::<{ Small::NODES }, { Small::BYTES }, { Small::LABELS }>(s, n)
    } else {
        opened::<{ Slip::MAX_NODES }, { Slip::MAX_BYTES }, { Full::LABELS }>(s, n)
    }
}

// Whether the bytes are a slip of one well-formed tree: its length, blocks and root label, or the refusal.
pub fn check(s: &[u8]) -> Answer
    ensures { result ≡ check_of Sha256.label composed_text s.now }
{
    Answer::from(checked(s))
}
