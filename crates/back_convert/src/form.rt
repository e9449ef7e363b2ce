//! The forms in which characters are written.
ghost use Rattle.std.specs.Prelude.{◌≡◌, ◌<◌, MatchOption, IfSome, length};
ghost use Rattle.back_convert.specs.Encoding.{more, ending};
ghost use Rattle.back_convert.specs.Ascii.{IsAsciiBlock};

use crate::unit::{Big16, Big32, Little16, Little32, first16, first32};
use std::simd::prelude::*;

/// A form in which characters are written. Sixteen characters of ASCII take so many bytes in it.
pub(crate) trait Form<const WIDE: usize> {
    ghost use Rattle.std.specs.Prelude.{◌≡◌, ◌<◌, ◌≤◌, ℕ, List, Option, MatchOption, IfSome, length};
    ghost use Rattle.back_convert.specs.Encoding.{more, ending};
    ghost use Rattle.back_convert.specs.Ascii.{IsAsciiBlock};

    ghost chars: { List ℕ → Option (List ℕ) };

    /// The first character of bytes, and what follows it. There is none where they end, or are refused.
    fn first(bytes: &[u8]) -> Option<(char, &[u8])>
        ensures value { MatchOption result (chars bytes.now ≡ ending bytes.now)
            (λ r. chars bytes.now ≡ more r.0 (chars r.1.now)) }
        ensures shorter { IfSome result (λ r. length r.1.now < length bytes.now) };

    /// The characters of a block, if they are sixteen of ASCII.
    fn sixteen(block: &[u8; WIDE]) -> Option<[u8; 16]>
        ensures { IfSome result (λ ascii. IsAsciiBlock chars block.now ascii) };

    ghost some: { 0 < WIDE };

    ghost few: { WIDE ≤ 64 };
}

/// The largest bytes of sixteen characters of ASCII in UTF-16, the lowest byte first.
const LITTLE16_LIMITS: [u8; 32] = [
    127, 0, 127, 0, 127, 0, 127, 0, 127, 0, 127, 0, 127, 0, 127, 0, 127, 0, 127, 0, 127, 0, 127, 0,
    127, 0, 127, 0, 127, 0, 127, 0,
];

/// Where the lowest bytes of sixteen characters stand.
const LITTLE16_PLACES: [usize; 16] = [0, 2, 4, 6, 8, 10, 12, 14, 16, 18, 20, 22, 24, 26, 28, 30];

/// The largest bytes of sixteen characters of ASCII in UTF-16, the highest byte first.
const BIG16_LIMITS: [u8; 32] = [
    0, 127, 0, 127, 0, 127, 0, 127, 0, 127, 0, 127, 0, 127, 0, 127, 0, 127, 0, 127, 0, 127, 0, 127,
    0, 127, 0, 127, 0, 127, 0, 127,
];

const BIG16_PLACES: [usize; 16] = [1, 3, 5, 7, 9, 11, 13, 15, 17, 19, 21, 23, 25, 27, 29, 31];

/// The largest bytes of sixteen characters of ASCII in UTF-32, the lowest byte first.
const LITTLE32_LIMITS: [u8; 64] = [
    127, 0, 0, 0, 127, 0, 0, 0, 127, 0, 0, 0, 127, 0, 0, 0, 127, 0, 0, 0, 127, 0, 0, 0, 127, 0, 0,
    0, 127, 0, 0, 0, 127, 0, 0, 0, 127, 0, 0, 0, 127, 0, 0, 0, 127, 0, 0, 0, 127, 0, 0, 0, 127, 0,
    0, 0, 127, 0, 0, 0, 127, 0, 0, 0,
];

const LITTLE32_PLACES: [usize; 16] = [0, 4, 8, 12, 16, 20, 24, 28, 32, 36, 40, 44, 48, 52, 56, 60];

/// The largest bytes of sixteen characters of ASCII in UTF-32, the highest byte first.
const BIG32_LIMITS: [u8; 64] = [
    0, 0, 0, 127, 0, 0, 0, 127, 0, 0, 0, 127, 0, 0, 0, 127, 0, 0, 0, 127, 0, 0, 0, 127, 0, 0, 0,
    127, 0, 0, 0, 127, 0, 0, 0, 127, 0, 0, 0, 127, 0, 0, 0, 127, 0, 0, 0, 127, 0, 0, 0, 127, 0, 0,
    0, 127, 0, 0, 0, 127, 0, 0, 0, 127,
];

const BIG32_PLACES: [usize; 16] = [3, 7, 11, 15, 19, 23, 27, 31, 35, 39, 43, 47, 51, 55, 59, 63];

impl Form<32> for Little16 {
    ghost use Rattle.std.proofs.Common.{rules};
    ghost use Rattle.back_convert.specs.Encoding.{little16_chars};

    ghost chars = { little16_chars };

    ghost some = { Prim.search rules };

    ghost few = { Prim.search rules };

    fn first(bytes: &[u8]) -> Option<(char, &[u8])> {
        first16::<Little16>(bytes)
    }

    #[inline(always)]
    fn sixteen(block: &[u8; 32]) -> Option<[u8; 16]> {
        let bytes = u8x32::from_array(*block);
        if bytes
            .simd_gt(u8x32::from_array(LITTLE16_LIMITS))
            .to_bitmask()
            != 0
        {
            return None;
        }
        Some(bytes.swizzle(LITTLE16_PLACES).to_array())
    }
}

impl Form<32> for Big16 {
    ghost use Rattle.std.proofs.Common.{rules};
    ghost use Rattle.back_convert.specs.Encoding.{big16_chars};

    ghost chars = { big16_chars };

    ghost some = { Prim.search rules };

    ghost few = { Prim.search rules };

    fn first(bytes: &[u8]) -> Option<(char, &[u8])> {
        first16::<Big16>(bytes)
    }

    #[inline(always)]
    fn sixteen(block: &[u8; 32]) -> Option<[u8; 16]> {
        let bytes = u8x32::from_array(*block);
        if bytes.simd_gt(u8x32::from_array(BIG16_LIMITS)).to_bitmask() != 0 {
            return None;
        }
        Some(bytes.swizzle(BIG16_PLACES).to_array())
    }
}

impl Form<64> for Little32 {
    ghost use Rattle.std.proofs.Common.{rules};
    ghost use Rattle.back_convert.specs.Encoding.{little32_chars};

    ghost chars = { little32_chars };

    ghost some = { Prim.search rules };

    ghost few = { Prim.search rules };

    fn first(bytes: &[u8]) -> Option<(char, &[u8])> {
        first32::<Little32>(bytes)
    }

    #[inline(always)]
    fn sixteen(block: &[u8; 64]) -> Option<[u8; 16]> {
        let bytes = u8x64::from_array(*block);
        if bytes
            .simd_gt(u8x64::from_array(LITTLE32_LIMITS))
            .to_bitmask()
            != 0
        {
            return None;
        }
        Some(bytes.swizzle(LITTLE32_PLACES).to_array())
    }
}

impl Form<64> for Big32 {
    ghost use Rattle.std.proofs.Common.{rules};
    ghost use Rattle.back_convert.specs.Encoding.{big32_chars};

    ghost chars = { big32_chars };

    ghost some = { Prim.search rules };

    ghost few = { Prim.search rules };

    fn first(bytes: &[u8]) -> Option<(char, &[u8])> {
        first32::<Big32>(bytes)
    }

    #[inline(always)]
    fn sixteen(block: &[u8; 64]) -> Option<[u8; 16]> {
        let bytes = u8x64::from_array(*block);
        if bytes.simd_gt(u8x64::from_array(BIG32_LIMITS)).to_bitmask() != 0 {
            return None;
        }
        Some(bytes.swizzle(BIG32_PLACES).to_array())
    }
}
