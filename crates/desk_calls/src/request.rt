// A request: the word of a call, and after it the fields that the call asks for.
use crate::call::Call;
use crate::{finding, forms, making, showing};
use fields::Fields;
use std::io;
use std::io::Write;

// Answers a line, whose fields are decoded for it.
pub fn answer(page: &mut impl Write, line: &[u8], fields: &mut Fields<'_>) -> io::Result<()> {
    match asked(line, fields) {
        Some(call) => answer_to(page, call, fields),
        None => page.write_all(b"bad request\n"),
    }
}

fn asked(line: &[u8], fields: &mut Fields<'_>) -> Option<Call> {
    let call = Call::named(line)?;
    fields.read(line, call.shape())?;
    Some(call)
}

fn answer_to(page: &mut impl Write, call: Call, fields: &Fields<'_>) -> io::Result<()> {
    match call {
        Call::Check => forms::check(page, fields),
        Call::Pack => making::pack(page, fields),
        Call::Unpack => forms::unpack(page, fields),
        Call::Prune => making::prune(page, fields),
        Call::Join => making::join(page, fields),
        Call::Find => finding::find(page, fields),
        Call::Compose => making::compose(page, fields),
        Call::Show => showing::show(page, fields),
    }
}
