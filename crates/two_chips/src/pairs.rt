// Runs that are interleaved: their bytes go by turns to two places, or come from them.
ghost use Rattle.std.specs.Prelude.{◌≡◌, ◌≤◌, ◌+◌, ◌/◌, length};
ghost use Rattle.two_chips.specs.Pairs.{Interleaved, evens, odds};

use std::simd::prelude::*;

// Fills a run of 32 bytes with those of two runs of 16, in turn.
#[inline(always)]
fn interleave_lanes(lead: &[u8], follow: &[u8], run: &mut [u8])
    requires lead_long { length lead.now ≡ 16 }
    requires follow_long { length follow.now ≡ 16 }
    requires run_long { length run.old ≡ 32 }
    ensures { Interleaved 16 lead.now follow.now run.new }
{
    let (low, high) = u8x16::from_slice(lead).interleave(u8x16::from_slice(follow));
    low.copy_to_slice(run);
    high.copy_to_slice(&mut run[16..]);
}

// Fills two runs of 8 bytes with those of a run of 16, in turn: each is half of a vector.
#[inline(always)]
fn deinterleave_lanes(run: &[u8], lead: &mut [u8], follow: &mut [u8])
    requires run_long { length run.now ≡ 16 }
    requires lead_long { length lead.old ≡ 8 }
    requires follow_long { length follow.old ≡ 8 }
    ensures { Interleaved 8 lead.new follow.new run.now }
{
    let lanes = u8x16::from_slice(run).swizzle([
        0, 2, 4, 6, 8, 10, 12, 14, 1, 3, 5, 7, 9, 11, 13, 15,
    ]);
    let halves = u64x2::from_le_bytes(lanes);
    halves.extract::<0, 1>().to_le_bytes().copy_to_slice(lead);
    halves.extract::<1, 1>().to_le_bytes().copy_to_slice(follow);
}

// Fills a run of 64 bytes with those of two runs of 32, in turn. The compiler unrolls this loop,
// whose length it knows, and not those over blocks.
#[inline(always)]
fn interleave_block(lead: &[u8], follow: &[u8], run: &mut [u8])
    requires lead_long { length lead.now ≡ 32 }
    requires follow_long { length follow.now ≡ 32 }
    requires run_long { length run.old ≡ 64 }
    ensures { Interleaved 32 lead.now follow.now run.new }
{
    for k in 0..2 {
        interleave_lanes(
            &lead[16 * k..16 * k + 16],
            &follow[16 * k..16 * k + 16],
            &mut run[32 * k..32 * k + 32],
        );
    }
}

// Fills two runs of 32 bytes with those of a run of 64, in turn.
#[inline(always)]
fn deinterleave_block(run: &[u8], lead: &mut [u8], follow: &mut [u8])
    requires run_long { length run.now ≡ 64 }
    requires lead_long { length lead.old ≡ 32 }
    requires follow_long { length follow.old ≡ 32 }
    ensures { Interleaved 32 lead.new follow.new run.now }
{
    for k in 0..4 {
        deinterleave_lanes(
            &run[16 * k..16 * k + 16],
            &mut lead[8 * k..8 * k + 8],
            &mut follow[8 * k..8 * k + 8],
        );
    }
}

// Fills a run with the bytes of two, in turn, where the first `from` pairs are there already.
#[inline(never)]
fn interleave_rest(lead: &[u8], follow: &[u8], run: &mut [u8], from: usize)
    requires lead_long { length lead.now ≡ (length run.old + 1) / 2 }
    requires follow_long { length follow.now ≡ length run.old / 2 }
    requires some { from ≤ length follow.now }
    requires begun { Interleaved from lead.now follow.now run.old }
    ensures lead { evens run.new ≡ lead.now }
    ensures follow { odds run.new ≡ follow.now }
{
    let pairs = follow.len();
    for i in from..pairs {
        run[2 * i] = lead[i];
        run[2 * i + 1] = follow[i];
    }
    if lead.len() > pairs {
        run[2 * pairs] = lead[pairs];
    }
}

// Fills two runs with the bytes of one, in turn, where the first `from` pairs are there already.
#[inline(never)]
fn deinterleave_rest(run: &[u8], lead: &mut [u8], follow: &mut [u8], from: usize)
    requires lead_long { length lead.old ≡ (length run.now + 1) / 2 }
    requires follow_long { length follow.old ≡ length run.now / 2 }
    requires some { from ≤ length follow.old }
    requires begun { Interleaved from lead.old follow.old run.now }
    ensures lead { lead.new ≡ evens run.now }
    ensures follow { follow.new ≡ odds run.now }
{
    let pairs = follow.len();
    for i in from..pairs {
        lead[i] = run[2 * i];
        follow[i] = run[2 * i + 1];
    }
    if lead.len() > pairs {
        lead[pairs] = run[2 * pairs];
    }
}

// Fills a run with the bytes of two, in turn.
#[inline(always)]
pub(crate) fn interleave(lead: &[u8], follow: &[u8], run: &mut [u8])
    requires lead_long { length lead.now ≡ (length run.old + 1) / 2 }
    requires follow_long { length follow.now ≡ length run.old / 2 }
    ensures lead { evens run.new ≡ lead.now }
    ensures follow { odds run.new ≡ follow.now }
{
    let blocks = follow.len() / 32;
    for k in 0..blocks {
        interleave_block(
            &lead[32 * k..32 * k + 32],
            &follow[32 * k..32 * k + 32],
            &mut run[64 * k..64 * k + 64],
        );
    }
    if run.len() > 64 * blocks {
        interleave_rest(lead, follow, run, 32 * blocks);
    }
}

// Fills two runs with the bytes of one, in turn.
#[inline(always)]
pub(crate) fn deinterleave(run: &[u8], lead: &mut [u8], follow: &mut [u8])
    requires lead_long { length lead.old ≡ (length run.now + 1) / 2 }
    requires follow_long { length follow.old ≡ length run.now / 2 }
    ensures lead { lead.new ≡ evens run.now }
    ensures follow { follow.new ≡ odds run.now }
{
    let blocks = follow.len() / 32;
    for k in 0..blocks {
        deinterleave_block(
            &run[64 * k..64 * k + 64],
            &mut lead[32 * k..32 * k + 32],
            &mut follow[32 * k..32 * k + 32],
        );
    }
    if run.len() > 64 * blocks {
        deinterleave_rest(run, lead, follow, 32 * blocks);
    }
}
