//! How many marks an instance takes at the fast ballot, and a structure at a classic one.
ghost use Rattle.std.specs.Prelude.{◌≡◌};
ghost use Rattle.mdcc_def_protocol.specs.Structures.{accept_room, reject_room};

use mdcc_option::Update;

/// How many marks accept there, at most, once this update is accepted.
pub fn accept_room(update: &Update) -> u32
    ensures { result ≡ accept_room update.now }
{
    match update {
        Update::Write(_, _) => 512,
        Update::Add(_) => 500,
    }
}

/// How many reject there, at most.
pub fn reject_room() -> u32
    ensures { result ≡ reject_room }
{
    16_384
}
