//! What the definitions of a checkout give for a rehearsal.
ghost use Rattle.rehearsal_numbers.specs.Contents.{ContentsAreApart};
ghost use Rattle.rehearsal_numbers.specs.Lines.{LinesAreRight, BlockLinesAreRight};
ghost use Rattle.rehearsal_numbers.specs.Plans.{HavePlans};

use driver_line::{a_path_gets_one_content, equal_outputs_give_equal_talks};
use git_index::one_reading;
use pkt_line::spells;
use rehearsal::{attributes_are_right, blocks_are_alike, files_have_an_index};

/// The law that no two contents of a rehearsal have one name: SHA-1 tells them apart. It does nothing.
pub fn contents_are_apart()
    ensures { ContentsAreApart }
{}

/// The law that a rehearsal has one plan, which gives each kind its conversion and its driver. It does nothing.
pub fn rehearsals_have_plans()
    ensures { HavePlans }
{
    files_have_an_index();
    attributes_are_right();
    one_reading();
}

/// The law that the line of a rehearsal has the counts of its numbers: how many are written, unfiltered and failed, and
/// the bytes of their files. It does nothing.
pub fn lines_are_right()
    ensures { LinesAreRight }
{
    files_have_an_index();
    attributes_are_right();
    one_reading();
    spells();
    equal_outputs_give_equal_talks();
    a_path_gets_one_content();
}

/// The law that each 200 paths of a rehearsal add the same to its line. It does nothing.
pub fn block_lines_are_right()
    ensures { BlockLinesAreRight }
{
    lines_are_right();
    blocks_are_alike();
}
