// Requests for the public calls, a line each, and their answers.
#![tactic(auto)]

mod answer;
mod call;
mod finding;
mod forms;
mod making;
mod request;
mod room;
pub mod session;
mod showing;
