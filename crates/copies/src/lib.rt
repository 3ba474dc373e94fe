// Bytes copied, and one byte or some bytes repeated, to the front of an output. Definitions: specs/.
#![tactic(auto)]

ghost use Rattle.std.specs.Prelude.{◌≡◌, ◌+◌, ◌*◌, ◌≤◌, length, take, drop, replicate};
ghost use Rattle.lists.specs.Over.{over};
ghost use Rattle.lists.specs.Repeated.{repeated};
ghost use Rattle.copies.specs.Copies.{put_part, put_run, put_times};

// Copies n bytes that there are from an offset of a source.
fn copy_part(source: &[u8], from: usize, n: usize, out: &mut [u8])
    requires n_in_bounds { from + n ≤ length source.now }
    requires n_in_bounds_2 { n ≤ length out.old }
    ensures { out.new ≡ over (take n (drop from source.now)) out.old }
{
    if n == 1 {
        out[0] = source[from];
        return;
    }
    let end = from + n;
    byte_copy::copy(&source[from..end], out);
}

// Copies n bytes from an offset of a source to the front of an output. Where the source or the output has not so many
// nothing changes.
pub fn put_part(source: &[u8], from: usize, n: usize, out: &mut [u8])
    ensures output { out.new ≡ put_part source.now from n out.old }
    ensures fits { from + n ≤ length source.now → n ≤ length out.old
        → out.new ≡ over (take n (drop from source.now)) out.old }
{
    if out.len() < n {
        return;
    }
    if source.len() < n {
        return;
    }
    if source.len() - n < from {
        return;
    }
    copy_part(source, from, n, out);
}

// Writes one byte n times, where there is room. (std's `fill` stores the last byte apart, which costs more.)
fn fill(byte: u8, n: usize, out: &mut [u8])
    requires { n ≤ length out.old }
    ensures { out.new ≡ over (replicate n byte) out.old }
{
    for x in out[..n].iter_mut() {
        *x = byte;
    }
}

// The same as two runs of k bytes, which overlap where n is less than 2 k.
fn fill_twice(byte: u8, k: usize, n: usize, out: &mut [u8])
    requires { (k ≤ n) × (n ≤ k + k) × (n ≤ length out.old) }
    ensures { out.new ≡ over (replicate n byte) out.old }
{
    fill(byte, k, out);
    fill(byte, k, &mut out[n - k..]);
}

// The same. Of 2 to 16 bytes it is two runs of a constant length, which cost less than a loop.
fn fill_run(byte: u8, n: usize, out: &mut [u8])
    requires { n ≤ length out.old }
    ensures { out.new ≡ over (replicate n byte) out.old }
{
    if 16 < n {
        fill(byte, n, out);
    } else if 8 <= n {
        fill_twice(byte, 8, n, out);
    } else if 4 <= n {
        fill_twice(byte, 4, n, out);
    } else if 2 <= n {
        fill_twice(byte, 2, n, out);
    } else {
        fill(byte, n, out);
    }
}

// Writes one byte n times to the front of an output. Where it has not so many nothing changes.
pub fn put_run(byte: u8, n: usize, out: &mut [u8])
    ensures output { out.new ≡ put_run byte n out.old }
    ensures fits { n ≤ length out.old
        → out.new ≡ over (replicate n byte) out.old }
{
    if out.len() < n {
        return;
    }
    fill_run(byte, n, out);
}

// Copies a part so many times.
fn copy_times(part: &[u8], times: usize, out: &mut [u8])
    requires { times * length part.now ≤ length out.old }
    ensures { out.new ≡ over (repeated times part.now) out.old }
{
    let n = part.len();
    for k in 0..times {
        let to = k * n;
        out[to..to + n].copy_from_slice(part);
    }
}

// Copies a part so many times to the front of an output. Where it has not so many bytes nothing changes.
pub fn put_times(part: &[u8], times: usize, out: &mut [u8])
    ensures output { out.new ≡ put_times part.now times out.old }
    ensures fits { times * length part.now ≤ length out.old
        → out.new ≡ over (repeated times part.now) out.old }
{
    let Some(all) = times.checked_mul(part.len()) else {
        return;
    };
    if out.len() < all {
        return;
    }
    copy_times(part, times, out);
}
