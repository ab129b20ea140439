//! Where runs of bytes end, found in blocks.

ghost use Rattle.std.specs.Prelude.{◌≡◌, map};
ghost use Rattle.std.specs.List.{prefix_len};
ghost use Rattle.std.specs.Simd.Lanes.{mask_l};
ghost use Rattle.json.specs.Run.{is_plain as is_unescaped_byte, is_stop};
ghost use Rattle.jp_json.specs.Private.Fronts.{is_line_stop, is_plain};

use std::simd::prelude::*;

/// The quotes, backslashes and controls among the bytes of a block, a bit for each byte.
#[inline(always)]
fn string_stops(block: u8x16) -> u64
    ensures { result ≡ mask_l (map is_stop block) }
{
    (block.simd_eq(u8x16::splat(b'"'))
        | block.simd_eq(u8x16::splat(b'\\'))
        | block.simd_lt(u8x16::splat(0x20))).to_bitmask()
}

/// The line feeds, and the bytes that are not ASCII, among those of a block, a bit for each byte.
#[inline(always)]
fn line_stops(block: u8x16) -> u64
    ensures { result ≡ mask_l (map is_line_stop block) }
{
    (block.simd_eq(u8x16::splat(b'\n')) | block.simd_ge(u8x16::splat(128))).to_bitmask()
}

/// How many bytes at the front are those of characters that a string has as they are (RFC 8259 section 7).
#[inline(always)]
pub(crate) fn unescaped_front(bytes: &[u8]) -> usize
    ensures { result ≡ prefix_len is_unescaped_byte bytes.now }
{
    let mut end = 0;
    'lanes: while bytes.len() - end >= 16 {
        let found = string_stops(u8x16::from_slice(&bytes[end..]));
        if found != 0 {
            return end + found.trailing_zeros() as usize;
        }
        end += 16;
    }
    'bytes: while end < bytes.len()
        && bytes[end] != b'"'
        && bytes[end] != b'\\'
        && bytes[end] >= b' '
    {
        end += 1;
    }
    end
}

/// How many bytes at the front are ASCII characters that are no line feeds.
#[inline(always)]
pub(crate) fn line_front(bytes: &[u8]) -> usize
    ensures { result ≡ prefix_len is_plain bytes.now }
{
    let mut end = 0;
    'lanes: while bytes.len() - end >= 16 {
        let found = line_stops(u8x16::from_slice(&bytes[end..]));
        if found != 0 {
            return end + found.trailing_zeros() as usize;
        }
        end += 16;
    }
    'bytes: while end < bytes.len() && bytes[end] < 128 && bytes[end] != b'\n' {
        end += 1;
    }
    end
}
