// Places among labels by the stage that they need.
ghost use Rattle.std.specs.Prelude.{◌≤◌, length};

use ruled_states::{Label, Ruler};

// How many of the labels, by rising stage, have this stage or a lower one; if they don't rise, some number of them.
#[inline(always)]
pub fn count_to<R: Ruler>(ruler: &R, labels: &[Label], stage: u64) -> usize
    ensures { result ≤ length labels.now }
{
    labels.partition_point(|label| ruler.stage(label.need) <= stage)
}

// How many of the labels, by rising stage, have a lower one; if they don't rise, some number of them.
#[inline(always)]
pub fn count_below<R: Ruler>(ruler: &R, labels: &[Label], stage: u64) -> usize
    ensures { result ≤ length labels.now }
{
    labels.partition_point(|label| ruler.stage(label.need) < stage)
}
