// What the crates say of lists: specs/ has definitions and laws. The one function copies elements.
#![tactic(auto)]

ghost use Rattle.std.specs.Prelude.{◌≡◌, ◌≤◌, ◌++◌, length, take, drop};

// Copies a list to the front of an area; what stands behind it there stays.
pub fn copy<T: Copy>(src: &[T], dst: &mut [T])
    requires { length src.now ≤ length dst.old }
    ensures { (length dst.new ≡ length dst.old) × (dst.new ≡ take (length src.now) src.now ++ drop (length src.now) dst.old) }
{
    dst[..src.len()].copy_from_slice(src);
}
