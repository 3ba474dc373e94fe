// Bytes copied from one slice to the front of another.
#![tactic(auto)]

ghost use Rattle.std.specs.Prelude.{◌≡◌, ◌≤◌, ◌++◌, length, take, drop};

// Copies a source to the front of an output, and answers the source's length.
pub fn copy(source: &[u8], out: &mut [u8]) -> usize
    requires { length source.now ≤ length out.old }
    ensures count { result ≡ length source.now }
    ensures content { out.new ≡ take (length source.now) source.now ++ drop (length source.now) out.old }
{
    let count = source.len();
    out[..count].copy_from_slice(source);
    count
}
