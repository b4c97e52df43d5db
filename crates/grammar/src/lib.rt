// The grammar of conditions: definitions, and what is proved of them. Each function says what it is named after.
#![tactic(auto)]

mod entry;

ghost use Rattle.grammar.specs.Acceptance.{AcceptedExactly, AcceptedHolds};
ghost use Rattle.grammar.specs.Answers.{OneAnswer};
ghost use Rattle.grammar.specs.Examples.{Examples};
ghost use Rattle.grammar.specs.WorkedAnswers.{WorkedAnswers};
ghost use Rattle.grammar.specs.Laws.{OneReading, Nesting, OneCause, OneFirstCause, FrontsBegin, ClosedIsWhole, NeverOutOfPlace, WithoutCauseSpelled, SpelledWithoutCause};
ghost use Rattle.grammar.specs.Own.{OwnExtent};

pub use entry::Entry;

pub fn no_condition_has_two_readings()
    ensures { OneReading }
{}

pub fn conditions_nest()
    ensures { Nesting }
{}

pub fn an_event_gives_one_cause()
    ensures { OneCause }
{}

pub fn a_first_cause_is_unique()
    ensures { OneFirstCause }
{}

pub fn a_front_of_a_beginning_begins()
    ensures { FrontsBegin }
{}

pub fn what_closes_is_whole()
    ensures { ClosedIsWhole }
{}

pub fn a_condition_is_never_out_of_place()
    ensures { NeverOutOfPlace }
{}

pub fn accepted_exactly_when_spelled_and_within_limits()
    ensures { AcceptedExactly }
{}

pub fn accepted_slots_hold_the_tree()
    ensures { AcceptedHolds }
{}

pub fn worked_examples()
    ensures { Examples }
{}

pub fn worked_answers()
    ensures { WorkedAnswers }
{}

pub fn what_closes_without_cause_is_spelled()
    ensures { WithoutCauseSpelled }
{}

pub fn a_condition_within_its_limits_has_no_cause()
    ensures { SpelledWithoutCause }
{}

pub fn a_condition_is_its_own_extent()
    ensures { OwnExtent }
{}

pub fn a_condition_has_one_answer()
    ensures { OneAnswer }
{}
