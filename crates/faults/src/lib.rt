// Which refusal an entry meets on the stack: 5, 6 and 7 at an internal node, 8 at a leaf.
#![tactic(auto)]

ghost use Rattle.std.specs.Prelude.{◌≡◌, List, map, ℕ, ◌<◌, length, not, ◌&&◌, ◌||◌, eqb, leb};
ghost use Rattle.std.specs.List.{list_all};
ghost use Rattle.trees.specs.Rules.{salt_type, salted};
ghost use Rattle.trees.specs.Rows.{Tag, head_of, step_of, node, tip};
ghost use Rattle.tables.specs.Tables.{entry_of};
ghost use Rattle.titles.specs.Compose.{composed_text};
ghost use Rattle.faults.specs.Waiting.{StackColumns, kind_of, size_of, greatest, step_fault, refusal_number};

pub mod waiting;

use crate::waiting::Waiting;
use outcomes::numbers::Refusal;
use tables::limits::Slip;

// "its highest child"
pub fn highest(heights: &[u16]) -> usize
    ensures { (result ≡ greatest heights.now) × (result < 65536) }
{
    usize::from(heights.iter().fold(0u16, |most, height| most.max(*height)))
}

// Behind the first child none is a salt, and without a salt before them each is of type 0.
fn behind(salt: bool, kinds: &[u16]) -> bool
    ensures { result ≡ list_all (λ k. not (eqb k salt_type) && (salt || leb k salt_type)) kinds.now }
{
    kinds.iter().all(|kind| {
        let kind = usize::from(*kind);
        kind != Slip::SALT_TYPE && (salt || kind < Slip::SALT_TYPE)
    })
}

// The salt rule: behind a whole salt no second one; without a salt no child but of type 0.
fn salt_rule(kinds: &[u16], sizes: &[u16]) -> bool
    requires { (0 < length kinds.now) × (length sizes.now ≡ length kinds.now) }
    ensures { (gs : List Tag) → kinds.now ≡ map kind_of gs → sizes.now ≡ map size_of gs → result ≡ salted (map head_of gs) }
{
    let first = usize::from(kinds[0]);
    let salt = first == Slip::SALT_TYPE;
    if salt && usize::from(sizes[0]) != Slip::SALT_BYTES {
        return false;
    }
    first <= Slip::SALT_TYPE && behind(salt, &kinds[1..])
}

// An internal node over the last `count` of those that wait.
fn node_fault(count: usize, waiting: Waiting) -> Result<(), Refusal>
    requires { 0 < count }
    ensures { (H : List ℕ → List ℕ) (st : List Tag) → StackColumns st waiting.entry.kinds.now waiting.entry.heights.now waiting.entry.sizes.now → refusal_number result ≡ step_fault (step_of H composed_text st (node count)) }
{
    let depth = waiting.kinds.len();
    if depth < count {
        return Err(Refusal::ChildrenMissing);
    }
    let base = depth - count;
    if Slip::MAX_HEIGHT <= highest(&waiting.heights[base..]) {
        return Err(Refusal::TooHigh);
    }
    if !salt_rule(&waiting.kinds[base..], &waiting.sizes[base..]) {
        return Err(Refusal::SaltBroken);
    }
    Ok(())
}

// "A text value in a slip must already be composed."
fn leaf_fault(kind: usize, value: &[u8]) -> Result<(), Refusal>
    ensures { (H : List ℕ → List ℕ) (st : List Tag) → refusal_number result ≡ step_fault (step_of H composed_text st (tip kind value.now)) }
{
    let text = Slip::FIRST_TEXT <= kind && kind <= Slip::LAST_TEXT;
    if text && !titles::composed_text(value) {
        return Err(Refusal::NotComposed);
    }
    Ok(())
}

// The refusal that one row's entry meets, over the columns of those that wait.
pub fn fault(kind: usize, count: usize, value: &[u8], waiting: Waiting) -> Result<(), Refusal>
    ensures { (H : List ℕ → List ℕ) (st : List Tag) → StackColumns st waiting.entry.kinds.now waiting.entry.heights.now waiting.entry.sizes.now → refusal_number result ≡ step_fault (step_of H composed_text st (entry_of kind count value.now)) }
{
    if count == 0 {
        leaf_fault(kind, value)
    } else {
        node_fault(count, waiting)
    }
}
