//! Takes reads, and frees data.

ghost use Rattle.std.specs.Prelude.{◌≡◌, IfSome, fold};
ghost use Rattle.std.specs.FinMap.{get};
ghost use Rattle.std.specs.FinMap as map;
ghost use Rattle.tw_types.specs.Store.{drop_read_within, settled};
ghost use Rattle.tw_instr.specs.Parts.{data_of};

use crate::datum::Datum;
use std::collections::BTreeMap;
use tw_datum::RankedMap;
use tw_types::DatumId;

/// Takes one read of a live datum by its id, whose type has at most `depth` containers. If it was the last right, frees the datum.
#[cycle(freeing)]
pub fn drop_read_within(live: &mut BTreeMap<u64, Datum>, id: u64, depth: u8)
    ensures { data_of live.new.entries ≡ drop_read_within depth (data_of live.old.entries) id }
{
    let Some(datum) = live.get_mut(&id) else {
        return;
    };
    if datum.reads() == 0 {
        return;
    }
    datum.take_read();
    if !datum.is_unheld() {
        return;
    }
    let Some(gone) = live.remove(&id) else {
        return;
    };
    if depth == 0 {
        return;
    }
    if let Some(members) = gone.into_members() {
        drop_each(live, members, depth - 1);
    }
}

/// Takes one read of each member, by its id, of a container that is freed.
#[cycle(freeing)]
fn drop_each(live: &mut BTreeMap<u64, Datum>, members: RankedMap<DatumId>, depth: u8)
    ensures { data_of live.new.entries ≡ fold (drop_read_within depth) (data_of live.old.entries) (map.values members) }
{
    for index in 0..members.len() {
        if let Some((_, member)) = members.nth(index) {
            drop_read_within(live, member.number(), depth);
        }
    }
}

/// Frees a live datum by its id, if nobody holds it.
pub fn free_unheld(live: &mut BTreeMap<u64, Datum>, id: u64)
    ensures { IfSome (get (data_of live.old.entries) id) (λ x. data_of live.new.entries ≡ settled (data_of live.old.entries) id x) }
{
    let Some(datum) = live.get(&id) else {
        return;
    };
    if !datum.is_unheld() {
        return;
    }
    let Some(gone) = live.remove(&id) else {
        return;
    };
    if let Some(members) = gone.into_members() {
        drop_each(live, members, 2);
    }
}
