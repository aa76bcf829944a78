// The join of two slips.
#![tactic(auto)]

ghost use Rattle.sha256.specs.Sha256 as Sha256;
ghost use Rattle.titles.specs.Compose.{composed_text};
ghost use Rattle.outcomes.specs.Outcome.{Leaves};
ghost use Rattle.join.specs.Join.{join_of};

use answers::{Answer, sided};
use both_slips::headed::HeadedSlip;
use slips::{check, header};

// Joins two slips into an output: the refusal and its side, or the slip of the smallest tree that both are prunings of.
pub fn join(s: &[u8], u: &[u8], out: &mut [u8]) -> Answer
    ensures { Leaves (join_of Sha256.label composed_text s.now u.now out.old) result out.new }
{
    let first = match header::header_of(s) {
        Ok(nodes) => HeadedSlip { bytes: s, nodes },
        Err(refusal) => return sided(1, Answer::from(refusal.at(0))),
    };
    let second = match header::header_of(u) {
        Ok(nodes) => HeadedSlip { bytes: u, nodes },
        Err(refusal) => {
            // the first slip's refusal comes before the second's header
            let a = check::check(s);
            if !a.is_accepted() {
                return sided(1, a);
            }
            return sided(2, Answer::from(refusal.at(0)));
        }
    };
    join_bodies::join_bodies(first, second, out)
}
