// What the values of a line are: what follows its word, and a label in hex.
ghost use Rattle.fips_cases.specs.Values.{Behind, Reads};

// What follows a word on a line; nothing where the line begins otherwise.
pub fn value<'a>(line: &'a [u8], word: &[u8]) -> &'a [u8]
    ensures { Behind word.now line.now result.now }
{
    line.strip_prefix(word).unwrap_or(&[])
}

// The label that 64 digits spell.
pub fn spelt(digits: &[u8]) -> Option<[u8; 32]>
    ensures { Reads digits.now result }
{
    let mut label = [0; 32];
    (digits.len() == 64 && digits::decoded(digits, &mut label)).then_some(label)
}
