//! How many lines of attribute files were skipped.
ghost use Rattle.std.specs.Prelude.{◌≡◌};
ghost use Rattle.checkout_plan.specs.AttributeFiles.{sum_of, skipped_lines};

use attr_line::Skipped;
use attr_stack::AttrFiles;

/// How many lines of one file were skipped, by its counts.
fn sum_of(skipped: Skipped) -> u64
    ensures { result ≡ sum_of skipped }
{
    skipped.long as u64 + skipped.negative as u64 + skipped.name as u64 + skipped.place as u64
}

/// How many lines of all files were skipped, or 2^64 - 1 if there are more.
#[tactic(auto, unfolding(crate::specs::AttributeFiles::skipped_lines))]
pub fn skipped_lines(files: &AttrFiles) -> u64
    ensures { result ≡ skipped_lines files.now }
{
    let mut lines = sum_of(files.info.skipped);
    let folders = files.files.as_slice();
    for at in folders {
        lines = lines.saturating_add(sum_of(at.file.skipped()));
    }
    lines.saturating_add(sum_of(files.base.skipped))
}
