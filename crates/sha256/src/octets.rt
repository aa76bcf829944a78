// The hash value as bytes.
ghost use Rattle.std.specs.Prelude.{◌≡◌};
ghost use Rattle.words.specs.Words as Words;

// The 32 bytes of a label: each word's, most significant first.
pub(crate) fn spread(h: [u32; 8]) -> [u8; 32]
    ensures { result ≡ Words.spread 4 h }
{
    let words = h.map(u32::to_be_bytes);
    let mut out = [0u8; 32];
    out.copy_from_slice(words.as_flattened());
    out
}
