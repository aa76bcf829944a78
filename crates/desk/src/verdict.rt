// What a call on slips answers, as a Result.
use answers::Answer;
use desk_files::messages::{Objection, Said};
use desk_files::refusals::Refused;
use outcomes::numbers::Refusal;

pub fn of(a: Answer) -> Result<Answer, Refused> {
    match Refusal::numbered(a.number) {
        Some(refusal) => Err(Refused {
            refusal,
            place: a.place,
            second: a.second,
        }),
        None => Ok(a),
    }
}

// A refusal is of the file of argument i.
pub fn of_file(a: Answer, i: usize) -> Result<Answer, Said> {
    of(a).map_err(|refused| Said::OfFile(i, Objection::Refused(refused)))
}
