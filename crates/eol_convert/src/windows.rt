//! Line ends by windows: many bytes are looked at and copied at once.
ghost use Rattle.std.specs.Prelude.{◌≡◌, ◌+◌, ◌*◌, ◌<◌, ◌≤◌, ◌++◌, not, map, length, take, drop, replicate, count_by};
ghost use Rattle.std.specs.Bool.{OnTrue, OnFalse};
ghost use Rattle.std.specs.List.{prefix_len};
ghost use Rattle.std.specs.Simd.Lanes.{mask_l};
ghost use Rattle.memchr.specs.Find.{is_byte};
ghost use Rattle.byte_path.specs.Characters.{carriage_return};
ghost use Rattle.eol_convert.specs.Windows.{crlf_from, crs_before, window, before_lf};

use std::simd::prelude::*;

/// So many bytes are looked at at once.
pub const WINDOW: usize = 32;

/// How far a content was taken, and how far a block is filled.
#[derive(Clone, Copy)]
pub struct Reach {
    pub from: usize,
    pub at: usize,
}

/// The LFs of a window, as the bits of a number.
#[inline(always)]
fn line_feeds(window: u8x32) -> u64
    ensures { result ≡ mask_l (map (is_byte 10) window) }
{
    window.simd_eq(u8x32::splat(b'\n')).to_bitmask()
}

/// The first LF of a window.
#[derive(Clone, Copy)]
struct FirstLf {
    /// How many bytes stand before it: all, if there is none.
    before: usize,
    /// Whether there are others.
    others: bool,
}

#[inline(always)]
fn first_lf(window: u8x32) -> FirstLf
    requires { length window ≡ WINDOW }
    ensures before { result.before ≡ prefix_len (λ b. not (is_byte 10 b)) window }
    ensures others { OnFalse result.others (count_by (is_byte 10) window ≤ 1) }
    ensures some { OnTrue result.others (result.before < WINDOW) }
    ensures within { result.before ≤ WINDOW }
{
    let marks = line_feeds(window);
    FirstLf {
        before: (marks as u32).trailing_zeros() as usize,
        others: marks.count_ones() > 1,
    }
}

/// Copies a window into a block.
#[inline(always)]
fn copy_window(block: &mut [u8], at: usize, content: &[u8], from: usize)
    requires { (from + WINDOW ≤ length content.now) × (at + WINDOW ≤ length block.old) }
    ensures written { take (at + WINDOW) block.new ≡ take at block.old ++ take WINDOW (drop from content.now) }
    ensures len { length block.new ≡ length block.old }
{
    u8x32::from_slice(&content[from..]).copy_to_slice(&mut block[at..]);
}

/// Copies a window into a block, with so many CRs before its byte at `place`: one, or none. What follows it is copied
/// too.
#[inline(always)]
fn copy_with_cr(block: &mut [u8], content: &[u8], reach: Reach, place: usize, more: usize)
    requires { (place ≤ WINDOW) × (more ≤ 1) × (reach.from + 2 * WINDOW ≤ length content.now)
        × (reach.at + 2 * WINDOW + 1 ≤ length block.old) }
    ensures written { take (reach.at + place + more + WINDOW) block.new
        ≡ take reach.at block.old ++ (take place (drop reach.from content.now)
        ++ (replicate more carriage_return ++ take WINDOW (drop (reach.from + place) content.now))) }
    ensures len { length block.new ≡ length block.old }
{
    let Reach { from, at } = reach;
    copy_window(block, at, content, from);
    block[at + place] = b'\r';
    copy_window(block, at + place + more, content, from + place);
}

/// How many CRs are put before the first LF of a window: one, or none if there is no LF or a CR stands there.
#[inline(always)]
fn crs_before(content: &[u8], from: usize, first: usize) -> usize
    requires { (first ≤ WINDOW) × (from + WINDOW ≤ length content.now) }
    ensures { result ≡ crs_before content.now from first }
{
    let before = content[(from + first).saturating_sub(1)];
    usize::from((first < WINDOW) & (before != b'\r'))
}

/// Takes the front of a window, up to its first LF.
#[inline(never)]
fn take_front(block: &mut [u8], at: usize, content: &[u8], from: usize, first: usize) -> Reach
    requires room { (from + 2 * WINDOW ≤ length content.now) × (at + 2 * WINDOW + 1 ≤ length block.old) }
    requires first { (first ≡ before_lf content.now from) × (first < WINDOW) }
    ensures written { take result.at block.new ++ crlf_from content.now result.from
        ≡ take at block.old ++ crlf_from content.now from }
    ensures further { (from < result.from) × (result.from ≤ from + WINDOW) }
    ensures room { result.at ≤ at + WINDOW + 1 }
    ensures len { length block.new ≡ length block.old }
{
    let more = crs_before(content, from, first);
    copy_with_cr(block, content, Reach { from, at }, first, more);
    let taken = first + 1;
    Reach {
        from: from + taken,
        at: at + taken + more,
    }
}

/// Takes a whole window, which has one LF or none.
#[inline(always)]
fn take_whole(block: &mut [u8], at: usize, content: &[u8], from: usize, first: usize) -> Reach
    requires room { (from + 2 * WINDOW ≤ length content.now) × (at + 2 * WINDOW + 1 ≤ length block.old) }
    requires first { (first ≡ before_lf content.now from) × (first ≤ WINDOW) }
    requires alone { count_by (is_byte 10) (window content.now from) ≤ 1 }
    ensures written { take result.at block.new ++ crlf_from content.now result.from
        ≡ take at block.old ++ crlf_from content.now from }
    ensures further { (from < result.from) × (result.from ≤ from + WINDOW) }
    ensures room { result.at ≤ at + WINDOW + 1 }
    ensures len { length block.new ≡ length block.old }
{
    let more = crs_before(content, from, first);
    copy_with_cr(block, content, Reach { from, at }, first, more);
    Reach {
        from: from + WINDOW,
        at: at + WINDOW + more,
    }
}

/// Takes a window, with a CR before its LF if none is there. Of a window with many LFs only the front is taken: few
/// lines are that short, and the place of the next window waits for no search as long as there are none.
#[inline(always)]
fn take_window(block: &mut [u8], at: usize, content: &[u8], from: usize) -> Reach
    requires { (from + 2 * WINDOW ≤ length content.now) × (at + 2 * WINDOW + 1 ≤ length block.old) }
    ensures written { take result.at block.new ++ crlf_from content.now result.from
        ≡ take at block.old ++ crlf_from content.now from }
    ensures further { (from < result.from) × (result.from ≤ from + WINDOW) }
    ensures room { result.at ≤ at + WINDOW + 1 }
    ensures len { length block.new ≡ length block.old }
{
    let found = first_lf(u8x32::from_slice(&content[from..]));
    if found.others {
        return take_front(block, at, content, from, found.before);
    }
    take_whole(block, at, content, from, found.before)
}

/// Fills a block with what becomes of a content from a place on, until the block is full or few bytes are left.
pub fn fill_block(block: &mut [u8], content: &[u8], from: usize) -> Reach
    requires { (from ≤ length content.now) × (2 * WINDOW < length block.old) }
    ensures written { take result.at block.new ++ crlf_from content.now result.from ≡ crlf_from content.now from }
    ensures further { (from ≤ result.from) × (result.from ≤ length content.now) }
    ensures some { from + 2 * WINDOW ≤ length content.now → from < result.from }
    ensures room { result.at ≤ length block.new }
    ensures len { length block.new ≡ length block.old }
{
    let mut reach = Reach { from, at: 0 };
    'windows: while reach.from + 2 * WINDOW <= content.len()
        && reach.at + 2 * WINDOW < block.len()
    {
        reach = take_window(block, reach.at, content, reach.from);
    }
    reach
}
