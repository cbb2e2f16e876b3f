// Storing bytes in a lent buffer.
#![tactic(auto)]

ghost use Rattle.std.specs.Prelude.{◌≡◌, min, length, get_or};
ghost use Rattle.promises.specs.Written.{written};

// Stores the first `count` of `bytes` at the start of the lent buffer `room`, as far as both are long enough.
// Kept with a count beside the slice: because `store` is public, and its contract says by `count` what is stored.
pub fn store(bytes: &[u8], count: usize, room: &mut [u8])
    ensures { room.new ≡ written (λ k. get_or bytes.now k 0) (min count (min (length bytes.now) (length room.old))) room.old }
{
    let n = count.min(bytes.len()).min(room.len());
    room[..n].copy_from_slice(&bytes[..n]);
}
