ghost use Rattle.hv_law_room.specs.Room.{LoadNeverFalls, NoRoomOpensNone};

/// Whatever entries come, the load of a book doesn't fall.
pub fn load_never_falls()
    ensures law { LoadNeverFalls }
{}

/// Where a book has no room for a transaction and its end, none is opened behind it any more.
pub fn no_room_opens_none()
    ensures law { NoRoomOpensNone }
{}
