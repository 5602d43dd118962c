// Laws of instructions.

ghost use Rattle.zk_step.specs.Laws.{BoundsAreNotSeen, AnswersSeeNoBounds, StoriesStay, AnswersLeaveStories};
ghost use Rattle.zk_step.specs.Laws.{EffectsEnd, EffectsStay, LinesChangeTextBuffers};

/// Bounds on frames and words change nothing of what an instruction does: in a game state with other bounds
/// it leads to the same game state, with those bounds, to the same address, and shows the same.
pub fn bounds_are_not_seen()
    ensures { BoundsAreNotSeen }
{}

/// Nor do they change what an answer to a read does.
pub fn answers_see_no_bounds()
    ensures { AnswersSeeNoBounds }
{}

/// No instruction changes the story's file, its version, its static base, and how many states are kept.
pub fn stories_stay()
    ensures { StoriesStay }
{}

/// Nor does what finishes an instruction that has waited.
pub fn answers_leave_stories()
    ensures { AnswersLeaveStories }
{}

/// An effect ends as its opcode says, and jumps or calls by the first value of its operands alone.
pub fn effects_end()
    ensures { EffectsEnd }
{}

/// An effect writes nothing at or above the static base, and leaves the places that routines return to.
pub fn effects_stay()
    ensures { EffectsStay }
{}

/// A line that is stored changes no byte beside those of its text buffer after the first, which says how many
/// letters there is room for.
pub fn lines_change_text_buffers()
    ensures { LinesChangeTextBuffers }
{}
