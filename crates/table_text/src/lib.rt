// A table as text. A line a row: `inner COUNT`, `gone LABEL`, or `pair TYPE HEX` with `-` for an empty value; a value of
// text is shown behind ` # ` as well, and what stands there is passed over when the text is read.
#![tactic(auto)]

pub mod faults;
pub mod reading;
