// The pruning list: "entry numbers of internal nodes, strictly rising".
ghost use Rattle.std.specs.Prelude.{◌≡◌, ◌<◌, ◌&&◌, leb, ltb, get_or, length, unwrap_or, IfSome};
ghost use Rattle.tables.specs.PruningList.{first_fault};

use tables::form::cell;

// Whether x may follow where no number below `low` may, and is that of an internal row.
fn may_follow(x: usize, low: usize, counts: &[u16]) -> bool
    ensures { result ≡ (leb low x && ltb 0 (get_or counts.now x 0)) }
{
    if x < low {
        return false;
    }
    if counts.len() <= x {
        return false;
    }
    0 < cell(counts, x)
}

// The index of the first faulty number of the list.
pub fn first_fault(list: &[u16], counts: &[u16]) -> Option<usize>
    ensures within { IfSome result (λ i. i < length list.now) }
    ensures first { unwrap_or result (length list.now) ≡ first_fault counts.now 0 0 list.now }
{
    let mut low = 0;
    for (i, name) in list.iter().enumerate() {
        let x = usize::from(*name);
        if !may_follow(x, low, counts) {
            return Some(i);
        }
        low = x + 1;
    }
    None
}
