// Words in lent bytes: four bytes to a word, the lowest first. Word i lies at bytes 4i to 4i + 3.
#![tactic(auto)]

ghost use Rattle.std.specs.Prelude.{◌≡◌, ◌+◌, ◌*◌, ◌≤◌, length, get_or};
ghost use Rattle.words.specs.Words.{put_at, words};

// Word i of the bytes.
pub fn get(b: &[u8], i: usize) -> u32
    requires { 4 * i + 4 ≤ length b.now }
    ensures { result ≡ get_or (words b.now) i 0 }
{
    let p = 4 * i;
    u32::from_le_bytes([b[p], b[p + 1], b[p + 2], b[p + 3]])
}

// Word i of the bytes is made w; no other byte changes.
pub fn put(b: &mut [u8], i: usize, w: u32)
    requires { 4 * i + 4 ≤ length b.old }
    ensures { b.new ≡ put_at b.old i w }
{
    let p = 4 * i;
    b[p..p + 4].copy_from_slice(&w.to_le_bytes());
}
