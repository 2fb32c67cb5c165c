// 01's number and place of each answer.
ghost use Rattle.std.specs.Prelude.{◌≡◌};
ghost use Rattle.refusals.specs.Answers.{number_of, place_of, is_accepted};

use crate::Answer;

// 01's number of an answer.
impl From<Answer> for u32 {
    fn from(answer: Answer) -> u32
        ensures { result ≡ number_of answer }
    {
        match answer {
            Answer::Accepted => 0,
            Answer::Impossible => 1,
            Answer::AlreadySettled => 2,
            Answer::OutOfOrder => 3,
            Answer::OtherHeight => 4,
            Answer::BadField => 5,
            Answer::OwnNumber => 6,
            Answer::NotProposer => 7,
            Answer::HeardSame => 8,
            Answer::HeardOther => 9,
            Answer::TimerNotDue => 10,
            Answer::LastRound => 11,
            Answer::NoRoom => 12,
            Answer::HeaderShort => 13,
            Answer::Damaged(_) => 14,
            Answer::BadRoll => 15,
        }
    }
}

impl Answer {
    // The place of an answer, 0 where it has none.
    pub fn place(self) -> usize
        ensures { result ≡ place_of self }
    {
        match self {
            Answer::Damaged(place) => place,
            _ => 0,
        }
    }

    pub fn is_accepted(self) -> bool
        ensures { result ≡ is_accepted self }
    {
        matches!(&self, Answer::Accepted)
    }
}
