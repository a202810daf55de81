use crate::core_roads::CoreRoads;
use crate::road::{FAR, Road};
use crate::table::{number_at, set_number};
use std::alloc::{AllocError, Global};

/// The core without the roads that two shorter ones stand for: all distances are the same without them. The roads of a node
/// stand by rising length.
pub fn thinned(alloc: Global, core: &CoreRoads) -> Result<CoreRoads, AllocError> {
    let mut best = vec![in alloc; FAR; core.count() as usize]?;
    let mut thin = CoreRoads::new(alloc)?;
    let mut kept = Vec::new(alloc);
    for node in 0..core.count() {
        let row = core.row(node);
        for road in row {
            set_number(&mut best, road.to, road.length);
        }
        strike_detours(core, row, &mut best);
        for road in row {
            if number_at(&best, road.to, FAR) == road.length {
                kept.push(*road)?;
            }
        }
        thin.push_row(&mut kept)?;
        for road in row {
            set_number(&mut best, road.to, FAR);
        }
    }
    Ok(thin)
}

/// Writes 0 in place of the length of each road of a row for which two shorter roads stand.
fn strike_detours(core: &CoreRoads, row: &[Road], best: &mut [u32]) {
    for first in row {
        for second in core.row(first.to) {
            if is_detour(number_at(best, second.to, FAR), first.length, second.length) {
                set_number(best, second.to, 0);
            }
        }
    }
}

/// Whether two shorter roads stand for a road of this length. There is none of length FAR.
#[inline(always)]
fn is_detour(whole: u32, first: u32, second: u32) -> bool {
    whole < FAR && first < whole && second < whole && first.saturating_add(second) <= whole
}
