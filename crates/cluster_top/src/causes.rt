//! The words by which a fault line names what is wrong with a journal.
ghost use Rattle.std.specs.Prelude.{◌≡◌};
ghost use Rattle.cluster_top.specs.Words.{cause_word, rule_word};

use history_model::Rule;
use journal_player::Cause;

/// The word of what is wrong with a line.
pub fn cause_word(cause: Cause) -> &'static str
    ensures { result.now ≡ cause_word cause }
{
    match cause {
        Cause::Header => "header",
        Cause::Word => "word",
        Cause::Field => "field",
        Cause::Extra => "extra",
        Cause::Differs => "differs",
        Cause::AfterEnd => "after-end",
        Cause::Rule(rule) => rule_word(rule),
    }
}

/// The word of a rule of legality.
fn rule_word(rule: Rule) -> &'static str
    ensures { result.now ≡ rule_word rule }
{
    match rule {
        Rule::NoNode => "no-node",
        Rule::NoActor => "no-actor",
        Rule::Down => "down",
        Rule::SameActor => "same-actor",
        Rule::SameNode => "same-node",
        Rule::NotRoot => "not-root",
        Rule::Busy => "busy",
        Rule::Idle => "idle",
        Rule::NoMail => "no-mail",
        Rule::NotHeld => "not-held",
        Rule::Supervisor => "supervisor",
        Rule::Blank => "blank",
        Rule::EmptyQueue => "empty-queue",
        Rule::Closed => "closed",
        Rule::NothingAdmitted => "nothing-admitted",
        Rule::NotOnLink => "not-on-link",
        Rule::NotCrashed => "not-crashed",
        Rule::Removed => "removed",
        Rule::NoBulletin => "no-bulletin",
    }
}
