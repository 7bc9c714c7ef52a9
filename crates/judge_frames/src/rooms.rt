// Buffers that are lent to calls.
ghost use Rattle.std.specs.Prelude.{◌≡◌, length, replicate};

// Fills a room before it is lent, so that the answer shows which bytes the call changed.
pub fn fill(room: &mut [u8])
    ensures { room.new ≡ replicate (length room.old) 0xA5 }
{
    room.fill(0xA5);
}
