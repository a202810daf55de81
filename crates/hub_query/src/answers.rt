ghost use Rattle.std.specs.Prelude.{◌≡◌};

use crate::answer::Answer;
use std::marker::Model;

/// Answers, in the order in which they were asked for. Contracts see them as a list.
#[derive(Debug, Drop)]
pub struct Answers {
    answers: Vec<Answer>,
}

impl Model for Answers {
    ghost use Rattle.std.specs.Prelude.{List};
    ghost use Rattle.hub_query.specs.declared.answer.Answer.{Answer};

    ghost Value = { List Answer };

    ghost view = { λ a. a.answers.items };
}

impl Answers {
    /// These answers. It takes no memory.
    pub fn new(answers: Vec<Answer>) -> Answers
        ensures { result ≡ answers.items }
    {
        Answers { answers }
    }

    /// The answers, in their order.
    pub fn list(&self) -> &[Answer]
        ensures { result.now ≡ self.now }
    {
        self.answers.as_slice()
    }
}
