// The exports on what an armed unit's profile says.
ghost use Rattle.std.specs.Prelude.{◌≡◌};
ghost use Rattle.views.specs.Views.{root_named, root_name, root_name_room, rule_told, profile_answer, profile_room};
ghost use Rattle.capi.specs.Rows.{text_row, found_row, rule_row, listing_row};

// The number of the root that has a name: refusal, the root.
#[unsafe(no_mangle)]
pub extern "C" fn mbrumzheg_root_named(m: &[u64], name: &[u8], row: &mut [u64; 5])
    ensures { row.new ≡ found_row (root_named m.now name.now) }
{
    capi::told::mbrumzheg_root_named(m, name, row)
}

// Writes the name of a root: refusal, how many bytes.
#[unsafe(no_mangle)]
pub extern "C" fn mbrumzheg_root_name(m: &[u64], root: u64, room: &mut [u8], row: &mut [u64; 5])
    ensures room_after { room.new ≡ root_name_room m.now root room.old }
    ensures row_after { row.new ≡ text_row (root_name m.now root room.old) }
{
    capi::told::mbrumzheg_root_name(m, root, room, row)
}

// Writes the profile that the unit runs as text: refusal, the size written, or with 1 for room the size needed.
#[unsafe(no_mangle)]
pub extern "C" fn mbrumzheg_profile(m: &[u64], room: &mut [u8], row: &mut [u64; 5])
    ensures room_after { room.new ≡ profile_room m.now room.old }
    ensures row_after { row.new ≡ listing_row (profile_answer m.now room.old) }
{
    capi::told::mbrumzheg_profile(m, room, row)
}

// A rule by its number: refusal, type, limit, window, root, unit.
#[unsafe(no_mangle)]
pub extern "C" fn mbrumzheg_rule(m: &[u64], rule: u64, row: &mut [u64; 6])
    ensures { row.new ≡ rule_row (rule_told m.now rule) }
{
    capi::told::mbrumzheg_rule(m, rule, row)
}
