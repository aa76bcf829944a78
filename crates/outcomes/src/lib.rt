// The refusal numbers of document 01; specs/ also has how an outcome is chosen by tests in order.
#![tactic(auto)]

pub mod numbers;

ghost use Rattle.std.specs.Prelude.{◌≡◌, [], ◌∷◌};
ghost use Rattle.outcomes.specs.Refusals.{accepted, too_long, cut_short, other_edition, no_nodes, children_missing, too_high, salt_broken, not_composed, not_one_tree, bad_padding, no_room, bad_list, roots_differ, clashing, join_too_large, bad_table, title_long, not_utf8, outside_repertoire, loose_mark};

use numbers::Refusal;

// The definitions have the same numbers under their own names: this ties the two.
pub fn refusals() -> [usize; 21]
    ensures { result ≡ accepted ∷ too_long ∷ cut_short ∷ other_edition ∷ no_nodes ∷ children_missing ∷ too_high ∷ salt_broken ∷ not_composed ∷ not_one_tree ∷ bad_padding ∷ no_room ∷ bad_list ∷ roots_differ ∷ clashing ∷ join_too_large ∷ bad_table ∷ title_long ∷ not_utf8 ∷ outside_repertoire ∷ loose_mark ∷ [] }
{
    [
        Refusal::ACCEPTED,
        Refusal::TooLong.number(),
        Refusal::CutShort.number(),
        Refusal::OtherEdition.number(),
        Refusal::NoNodes.number(),
        Refusal::ChildrenMissing.number(),
        Refusal::TooHigh.number(),
        Refusal::SaltBroken.number(),
        Refusal::NotComposed.number(),
        Refusal::NotOneTree.number(),
        Refusal::BadPadding.number(),
        Refusal::NoRoom.number(),
        Refusal::BadList.number(),
        Refusal::RootsDiffer.number(),
        Refusal::Clashing.number(),
        Refusal::JoinTooLarge.number(),
        Refusal::BadTable.number(),
        Refusal::TitleLong.number(),
        Refusal::NotUtf8.number(),
        Refusal::OutsideRepertoire.number(),
        Refusal::LooseMark.number(),
    ]
}
