// What the program `show` prints.
use fields::Fields;
use pages::{BYTES, Hex};
use std::io;
use std::io::{Cursor, Write};

// show SLIP: the answer is the text, as bytes
pub fn show(page: &mut impl Write, fields: &Fields<'_>) -> io::Result<()> {
    let mut text = [0u8; BYTES];
    let mut shown = Cursor::new(text.as_mut_slice());
    show_text::slip(&mut shown, fields.text(0))?;
    let n = shown.position() as usize;
    writeln!(page, "{}", Hex(parts::part(&text, 0, n)))
}
