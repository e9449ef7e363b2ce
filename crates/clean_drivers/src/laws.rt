//! Laws over the definitions alone: what a driver was asked, and answered, as one talk.
ghost use Rattle.clean_drivers.specs.CleanTalks.{TurnsAreTalks};
ghost use Rattle.clean_drivers.specs.EqualAnswers.{EqualAnswers};

use filter_proto::same_heard;

/// The paths of a line, from where its starter has started nothing to where it is closed, are a talk: the sessions and
/// the starts that gave none are those that the starter keeps.
pub fn turns_are_talks()
    ensures { TurnsAreTalks }
{}

/// Two talks over the same paths with the same contents, whose sessions have equal outputs, have equal answers, where
/// no link failed and memory never ran out.
pub fn equal_sessions_give_equal_answers()
    ensures { EqualAnswers }
{
    same_heard();
}
