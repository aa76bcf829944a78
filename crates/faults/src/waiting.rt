// The columns of the nodes that wait on the stack.
ghost use Rattle.std.specs.Prelude.{◌≡◌, length};

#[derive(Clone, Copy)]
pub struct Waiting<'a> {
    pub kinds: &'a [u16],
    pub heights: &'a [u16],
    pub sizes: &'a [u16],
    pub ghost heights_long: { length heights.now ≡ length kinds.now },
    pub ghost sizes_long: { length sizes.now ≡ length kinds.now },
}
