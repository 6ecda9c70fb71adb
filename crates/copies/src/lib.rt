#![tactic(auto)]
// Bytes copied from one buffer into another. Each caller sees to it that there is room.
// At a call `copy_from_slice` would be no plainer: each of them would work out where the bytes end.
ghost use Rattle.std.specs.Prelude.{◌≡◌, ◌+◌, ◌≤◌, length};
ghost use Rattle.copies.specs.Put.{put_at, taken_from};

// As many bytes of src as dst has room for, from a place on.
pub fn take_from(src: &[u8], at: usize, dst: &mut [u8])
    requires { at + length dst.old ≤ length src.now }
    ensures { dst.new ≡ taken_from at src.now dst.old }
{
    let end = at + dst.len();
    dst.copy_from_slice(&src[at..end]);
}

// All of src into out, from a place on.
pub fn put(src: &[u8], at: usize, out: &mut [u8])
    requires { at + length src.now ≤ length out.old }
    ensures { out.new ≡ put_at at src.now out.old }
{
    let end = at + src.len();
    out[at..end].copy_from_slice(src);
}
