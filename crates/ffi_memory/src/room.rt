//! Bytes in a caller's room.

ghost use Rattle.ffi_memory.specs.Room.{IsPut};

/// Puts the bytes at the front of the room, if they fit there; else the room is unchanged. Answers how many they are.
pub fn put(room: &mut [u8], bytes: &[u8]) -> usize
    ensures { IsPut bytes.now room.old room.new result }
{
    let needed = bytes.len();
    if needed <= room.len() {
        room[..needed].copy_from_slice(bytes);
    }
    needed
}
