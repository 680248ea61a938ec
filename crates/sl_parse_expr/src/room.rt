// How many levels of nodes there is room for: None where there is no limit.
ghost use Rattle.std.specs.Prelude.{◌≡◌};
ghost use Rattle.sl_parse_expr.specs.Names.{holds, open_to, deeper, fits};

pub type Room = Option<usize>;

/// Whether so many levels have room.
pub fn holds(room: Room, levels: usize) -> bool
    ensures { result ≡ holds room levels }
{
    match room {
        None => true,
        Some(most) => levels <= most,
    }
}

/// The room below a node.
pub fn deeper(room: Room) -> Room
    ensures { result ≡ deeper room }
{
    match room {
        None => None,
        Some(most) => Some(most.saturating_sub(1)),
    }
}

/// Whether there is room for a level.
pub fn open_to(room: Room) -> bool
    ensures { result ≡ open_to room }
{
    match room {
        None => true,
        Some(most) => most > 0,
    }
}

/// Whether there is room for a level below a node.
pub fn fits(room: Room) -> bool
    ensures { result ≡ fits room }
{
    open_to(deeper(room))
}
