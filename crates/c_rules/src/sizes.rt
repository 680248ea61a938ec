// Rule 13: sizes of arrays and of structs.
ghost use Rattle.std.specs.Prelude.{◌≡◌, ◌+◌, ◌*◌, ◌<◌, ◌≤◌, ◌^◌, map, max};
ghost use Rattle.std.specs.List.{list_any};
ghost use Rattle.c_tree.specs.Bytes.{Extent, at_one_place, choice_extent, extend, round_up, rounded, struct_extent, times, type_extent};
ghost use Rattle.c_rules.specs.Sizes.{Holds, is_count_wrong, is_too_large, sizes_broken};

use c_tree::{CFile, CMember, CStruct, CType, CVar};

/// An array may have so many elements, and a struct so many bytes.
const LARGEST: u64 = 16_777_216;

/// More bytes than these aren't counted.
const MOST: u64 = 1_099_511_627_776;

/// How many bytes something has, up to `MOST`, and of which number its place is a multiple.
#[derive(Clone, Copy)]
struct Room {
    bytes: u64,
    align: u64,
}

pub fn breaks_sizes(file: &CFile) -> bool
    ensures { result ≡ sizes_broken file.now }
{
    file.structs
        .as_slice()
        .iter()
        .any(|item| is_too_large(item))
}

#[tactic(auto, using(crate::proofs::Rooms::larger_room), unfolding(crate::specs::Sizes::is_too_large))]
fn is_too_large(item: &CStruct) -> bool
    ensures { result ≡ is_too_large item.now }
{
    let room = struct_room(item);
    LARGEST < room.bytes || has_wrong_count(item.members.as_slice())
}

fn has_wrong_count(members: &[CMember]) -> bool
    ensures { result ≡ list_any (λ member. is_count_wrong member.count) members.now }
{
    members.iter().any(|member| is_count_wrong(member.count))
}

fn is_count_wrong(count: Option<u32>) -> bool
    ensures { result ≡ is_count_wrong count }
{
    match count {
        None => false,
        Some(count) => count == 0 || LARGEST < u64::from(count),
    }
}

fn struct_room(item: &CStruct) -> Room
    ensures { Holds result (struct_extent item.now) }
{
    let mut room = Room { bytes: 0, align: 1 };
    for member in item.members.as_slice() {
        room = extended(room, member_room(member));
    }
    padded(room)
}

fn member_room(member: &CMember) -> Room
    ensures { Holds result (choice_extent member.now member.now.choice) }
{
    if member.choice.is_empty() {
        counted_room(member.count, &member.kind)
    } else {
        choice_room(member.choice.as_slice())
    }
}

fn choice_room(choice: &[CVar]) -> Room
    ensures { Holds result (at_one_place (map (λ var. type_extent var.kind) choice.now)) }
{
    let mut room = Room { bytes: 0, align: 1 };
    for var in choice {
        room = widened(room, type_room(&var.kind));
    }
    padded(room)
}

fn counted_room(count: Option<u32>, kind: &CType) -> Room
    ensures { Holds result (times count (type_extent kind.now)) }
{
    let room = type_room(kind);
    match count {
        None => room,
        Some(count) => Room {
            bytes: multiplied(count, room.bytes),
            align: room.align,
        },
    }
}

fn type_room(kind: &CType) -> Room
    ensures room { Holds result (type_extent kind.now) }
    ensures small { (type_extent kind.now).bytes < 32 }
{
    match kind {
        CType::Int(_, width) => Room {
            bytes: u64::from(*width) / 8,
            align: u64::from(*width) / 8,
        },
        CType::Void => Room { bytes: 0, align: 1 },
    }
}

/// So many times so many bytes.
fn multiplied(count: u32, bytes: u64) -> u64
    requires { bytes < 32 }
    ensures product { result ≡ count * bytes }
    ensures small { result < 2 ^ 40 }
{
    u64::from(count) * bytes
}

/// Behind what there is so far, one more.
#[tactic(auto, using(crate::proofs::Rooms::extended_room))]
fn extended(so_far: Room, next: Room) -> Room
    requires bytes { so_far.bytes ≤ MOST }
    requires more { next.bytes ≤ MOST }
    requires align { next.align < 32 }
    ensures { (first second : Extent) → Holds so_far first → Holds next second → Holds result (extend first second) }
{
    let start = rounded_up(so_far.bytes, next.align);
    let bytes = (start + next.bytes).min(MOST);
    let align = so_far.align.max(next.align);
    Room { bytes, align }
}

/// At one place with what there is so far, one more.
#[tactic(auto, using(crate::proofs::Rooms::widened_room))]
fn widened(so_far: Room, next: Room) -> Room
    ensures { (first second : Extent) → Holds so_far first → Holds next second → Holds result (record { bytes = max first.bytes second.bytes; align = max first.align second.align }) }
{
    let bytes = so_far.bytes.max(next.bytes);
    let align = so_far.align.max(next.align);
    Room { bytes, align }
}

/// Rounded up to the alignment.
#[tactic(auto, using(crate::proofs::Rooms::padded_room))]
fn padded(room: Room) -> Room
    requires bytes { room.bytes ≤ MOST }
    requires align { room.align < 32 }
    ensures { (extent : Extent) → Holds room extent → Holds result (rounded extent) }
{
    let bytes = rounded_up(room.bytes, room.align).min(MOST);
    let align = room.align;
    Room { bytes, align }
}

/// The next multiple.
fn rounded_up(bytes: u64, multiple: u64) -> u64
    requires bytes { bytes ≤ MOST }
    requires multiple { multiple < 32 }
    ensures value { result ≡ round_up bytes multiple }
    ensures small { result ≤ bytes + multiple }
{
    if multiple == 0 {
        return 0;
    }
    (bytes + (multiple - 1)) / multiple * multiple
}
