ghost use Rattle.std.specs.Prelude.{◌≡◌, ◌≤◌};
ghost use Rattle.zy_group.specs.Counts.{plain_counts};

use zy_base::Counts;

/// The counts of 3f + 1 replicas, of which f may lie.
pub fn plain_counts(f: u8) -> Counts
    requires least { 1 ≤ f }
    requires most { f ≤ 4 }
    ensures { result ≡ plain_counts f }
{
    match Counts::plain(u64::from(f)) {
        Some(counts) => counts,
        None => unreachable!(),
    }
}
