// Rearrange: docs/SPECIFICATION.md, 'Rearrange'. The taps of a filter are rearranged by a wiring: the set and the table
// are moved in place.
#![tactic(auto)]

ghost use Rattle.std.specs.Prelude.{◌≡◌, ℕ, ◌≤◌, ◌<◌, true, length, get_or};
ghost use Rattle.cube.specs.Cube.{size as size_of};
ghost use Rattle.cube.specs.Mask.{well_formed};
ghost use Rattle.refusal.specs.Verdict.{verdict};
ghost use Rattle.wiring.specs.Wiring.{Wiring, rewired};
ghost use Rattle.rearrange.specs.OldPoints.{Doubled, OldPoints, gathered};
ghost use Rattle.rearrange.specs.Rearrange.{rearrange_checks, rearrange_outcome, RearrangeContract};

use buffer::append;
use cube::{POINTS, size};
use filter::checks::{check_filter_lengths, check_filter_masks, check_taps};
use refusal::Refusal;
use refusal::verdict::require;
use wiring::is_wiring;

// Moves a set and a table of `n` taps: entry i of the wiring is the old tap that becomes tap i.
pub fn rearrange(set: &mut [u8], table: &mut [u8], n: usize, wiring: &[u8]) -> Result<(), Refusal>
    ensures { RearrangeContract (rearrange_outcome set.old table.old n wiring.now)
        set.old set.new table.old table.new result }
{
    rearrange_checks(set, table, n, wiring)?;
    rearrange_points(set, table, n, wiring);
    Ok(())
}

// The checks: lengths, the taps, the bytes of the set and of the table, the wiring.
fn rearrange_checks(set: &[u8], table: &[u8], n: usize, wiring: &[u8]) -> Result<(), Refusal>
    ensures { result ≡ verdict (rearrange_checks set.now table.now n wiring.now) }
{
    check_filter_lengths(set, table)?;
    check_taps(n)?;
    check_filter_masks(set, table, n)?;
    require(is_wiring(wiring, n), Refusal::Wiring)
}

// The old points of 2^k numbers more: each is that of a number below 2^k with the bit `place` set.
fn double(old: &mut [u16; 512], k: usize, place: usize)
    requires { (k < 9) × (place < 9) }
    ensures { Doubled k place old.old old.new }
{
    let half = 1 << k;
    let bit = 1u16 << place;
    for r in 0..half {
        old[half + r] = bit | old[r];
    }
}

// The old point of each point of `n` taps. A point with one bit more in front has one bit more in its old point.
fn old_points(wiring: &[u8], n: usize) -> [u16; 512]
    requires { (n ≤ 9) × Wiring n wiring.now }
    ensures { OldPoints n wiring.now n result }
{
    let mut old = [0u16; POINTS];
    for k in 0..n {
        let place = n - wiring[n - 1 - k] as usize;
        double(&mut old, k, place);
    }
    old
}

// The mask whose byte at each point of `n` taps is that of `mask` at its old point.
fn gather(mask: &[u8], old: &[u16; 512], n: usize) -> [u8; 512]
    requires { (n ≤ 9) × (length mask.now ≡ 512) × (well_formed n mask.now ≡ true) × ((a : ℕ) → a < size_of n → get_or old.now a 0 < 512) }
    ensures { result ≡ gathered n old.now mask.now }
{
    let points = size(n);
    let mut new = [0u8; POINTS];
    for a in 0..points {
        let from = old[a] as usize;
        new[a] = mask[from];
    }
    new
}

// Moves a set and a table of `n` taps by a wiring, all of which passed the checks.
fn rearrange_points(set: &mut [u8], table: &mut [u8], n: usize, wiring: &[u8])
    requires { verdict (rearrange_checks set.old table.old n wiring.now) ≡ Ok tt }
    ensures { (set.new ≡ rewired n wiring.now set.old) × (table.new ≡ rewired n wiring.now table.old) }
{
    let old = old_points(wiring, n);
    let new_set = gather(set, &old, n);
    let new_table = gather(table, &old, n);
    append(set, 0, &new_set);
    append(table, 0, &new_table);
}
