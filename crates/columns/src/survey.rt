// Where each row's subtree starts, and where its value does.
ghost use Rattle.std.specs.Prelude.{◌≡◌, ℕ, ◌*◌, ◌≤◌, ◌<◌, length, take, get_or};
ghost use Rattle.trees.specs.Rules.{max_nodes};
ghost use Rattle.tables.specs.Tables.{sum};
ghost use Rattle.columns.specs.Columns.{back, Started, SurveyGives};

// The row that `count` subtrees start at which end before row `end`.
fn first_row(starts: &[usize], count: usize, end: usize) -> usize
    requires { (end ≤ length starts.now) × ((x : ℕ) → x < end → get_or starts.now x 0 ≤ x) }
    ensures { (result ≡ back starts.now count end) × (result ≤ end) }
{
    let mut at = end;
    for _k in 0..count {
        if at == 0 {
            return 0;
        }
        at = starts[at - 1];
    }
    at
}

fn fill_starts(counts: &[u16], starts: &mut [usize])
    requires { length starts.old ≡ length counts.now }
    ensures { Started counts.now starts.new (length counts.now) }
{
    for (i, count) in counts.iter().enumerate() {
        starts[i] = first_row(starts, usize::from(*count), i);
    }
}

fn fill_offsets(lengths: &[u16], offsets: &mut [usize])
    requires { (length offsets.old ≡ length lengths.now) × (length lengths.now ≤ 2 * max_nodes) }
    ensures { (x : ℕ) → x < length lengths.now → get_or offsets.new x 0 ≡ sum (take x lengths.now) }
{
    let mut total = 0;
    for (i, length) in lengths.iter().enumerate() {
        offsets[i] = total;
        total += usize::from(*length);
    }
}

// Both columns, for tables end to end.
pub fn survey(counts: &[u16], lengths: &[u16], starts: &mut [usize], offsets: &mut [usize])
    requires { (length lengths.now ≡ length counts.now) × (length starts.old ≡ length counts.now) × (length offsets.old ≡ length counts.now) × (length counts.now ≤ 2 * max_nodes) }
    ensures { SurveyGives counts.now lengths.now starts.new offsets.new }
{
    fill_starts(counts, starts);
    fill_offsets(lengths, offsets);
}
