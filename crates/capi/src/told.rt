// What an armed unit's profile says: its roots, its rules, and all of it as text.
ghost use Rattle.std.specs.Prelude.{◌≡◌};
ghost use Rattle.views.specs.Views.{root_named, root_name, root_name_room, rule_told, profile_answer, profile_room, listing_told};
ghost use Rattle.capi.specs.Rows.{text_row, found_row, rule_row, listing_row};

use crate::put_wording;
use views::Unlisted;

// The number of the root that has a name: refusal, the root.
#[tactic(auto, unfolding(crate::specs::Rows::found_row))]
pub fn mbrumzheg_root_named(m: &[u64], name: &[u8], row: &mut [u64; 5])
    ensures { row.new ≡ found_row (root_named m.now name.now) }
{
    match views::root_named(m, name) {
        Ok(root) => rows::put_row(row, 0, root, 0, 0, 0),
        Err(refusal) => rows::put_row(row, refusal.number(), 0, 0, 0, 0),
    }
}

// Writes the name of a root: refusal, how many bytes.
pub fn mbrumzheg_root_name(m: &[u64], root: u64, room: &mut [u8], row: &mut [u64; 5])
    ensures room_after { room.new ≡ root_name_room m.now root room.old }
    ensures row_after { row.new ≡ text_row (root_name m.now root room.old) }
{
    let wording = views::root_name(m, root, room);
    put_wording(wording, row)
}

// Writes the row of what became of a profile's text.
#[tactic(auto, unfolding(crate::specs::Rows::listing_row))]
fn put_listing(listing: Result<u64, Unlisted>, row: &mut [u64; 5])
    ensures { row.new ≡ listing_row (listing_told listing) }
{
    match listing {
        Ok(size) => rows::put_row(row, 0, size, 0, 0, 0),
        Err(Unlisted::Short(size)) => rows::put_row(row, 1, size, 0, 0, 0),
        Err(Unlisted::Refused(refusal)) => rows::put_row(row, refusal.number(), 0, 0, 0, 0),
    }
}

// Writes the profile that the unit runs as text: refusal, the size written, or with 1 for room the size needed.
pub fn mbrumzheg_profile(m: &[u64], room: &mut [u8], row: &mut [u64; 5])
    ensures room_after { room.new ≡ profile_room m.now room.old }
    ensures row_after { row.new ≡ listing_row (profile_answer m.now room.old) }
{
    let listing = views::profile(m, room);
    put_listing(listing, row)
}

// A rule by its number: refusal, type, limit, window, root, unit.
#[tactic(auto, unfolding(crate::specs::Rows::rule_row))]
pub fn mbrumzheg_rule(m: &[u64], rule: u64, row: &mut [u64; 6])
    ensures { row.new ≡ rule_row (rule_told m.now rule) }
{
    *row = match views::rule(m, rule) {
        Ok(terms) => [
            0,
            terms.ruletype,
            terms.limit,
            terms.window,
            terms.root,
            terms.unit,
        ],
        Err(refusal) => [refusal.number(), 0, 0, 0, 0, 0],
    };
}
