// What judging answers: nothing, or a refusal, and how two judgements are taken together. Serves document 01, "When the planner says no".

#![tactic(auto)]

ghost use Rattle.std.specs.Prelude.{◌≡◌, [], ◌∷◌, ◌+◌, ◌≤◌, ℕ, ltb, OnOk};
ghost use Rattle.rules.specs.Refusals as refusal;
ghost use Rattle.terms.specs.Answers.{refuse_if, lower as lower_of, lowest};
ghost use Rattle.judgement.specs.Outcome.{number_of, place_of, judgement_in, judgement_of};

use rules::{
    BUCKET, CLOCK, CONSTANT, FIELD, LENGTHS, LIMIT, PICTURES, RATE, ROOM, SHEET, SHORT, SIZE, TICK,
};

// What is wrong, by document 01's names, and at which place; a refusal that names none is at place 0.
#[derive(Clone, Copy, Debug, PartialEq, Eq)]
pub enum Refusal {
    Pictures,
    Lengths,
    Clock,
    Size(usize),
    Tick(usize),
    Rate(usize),
    Bucket(usize),
    Room,
    Short,
    Field(usize),
    Constant(usize),
    Sheet,
    Limit,
}

// Nothing is wrong; or a refusal.
pub type Judgement = Result<(), Refusal>;

impl Refusal {
    // The refusal's number in document 01.
    pub fn number(self) -> u8
        ensures { result ≡ number_of self }
    {
        match self {
            Refusal::Pictures => PICTURES,
            Refusal::Lengths => LENGTHS,
            Refusal::Clock => CLOCK,
            Refusal::Size(_) => SIZE,
            Refusal::Tick(_) => TICK,
            Refusal::Rate(_) => RATE,
            Refusal::Bucket(_) => BUCKET,
            Refusal::Room => ROOM,
            Refusal::Short => SHORT,
            Refusal::Field(_) => FIELD,
            Refusal::Constant(_) => CONSTANT,
            Refusal::Sheet => SHEET,
            Refusal::Limit => LIMIT,
        }
    }

    // The refusal's place.
    pub fn place(self) -> usize
        ensures { result ≡ place_of self }
    {
        match self {
            Refusal::Size(place)
            | Refusal::Tick(place)
            | Refusal::Rate(place)
            | Refusal::Bucket(place)
            | Refusal::Field(place)
            | Refusal::Constant(place) => place,
            _ => 0,
        }
    }
}

// What a judgement refuses with: a number, and a place. Document 01's refusals are one such type; a caller may have others.
pub trait Numbered: Copy {
    ghost number_of: { Self → ℕ };

    ghost place_of: { Self → ℕ };

    // The number, by which the lower of two is known.
    fn rank(self) -> u8
        ensures { result ≡ number_of self };
}

impl Numbered for Refusal {
    ghost number_of = { number_of };

    ghost place_of = { place_of };

    fn rank(self) -> u8 {
        self.number()
    }
}

// The refusal, if the test is true.
#[tactic(auto, unfolding(terms::specs::Answers::refuse_if))]
pub fn refuse_if<R: Numbered>(bad: bool, refusal: R) -> Result<(), R>
    ensures { judgement_in R.number_of R.place_of result ≡ refuse_if bad (R.number_of refusal) (R.place_of refusal) }
{
    if bad { Err(refusal) } else { Ok(()) }
}

// Of two judgements the refusal with the lower number; of equal numbers the first.
pub fn lower<R: Numbered>(a: Result<(), R>, b: Result<(), R>) -> Result<(), R>
    ensures { judgement_in R.number_of R.place_of result ≡ lower_of (judgement_in R.number_of R.place_of a) (judgement_in R.number_of R.place_of b) }
{
    match (a, b) {
        (Ok(()), judged) => judged,
        (Err(first), Err(second)) if second.rank() < first.rank() => Err(second),
        (Err(first), _) => Err(first),
    }
}

// Judges the room of a lent list of `len` entries for `count` of them from entry `at` on: refusal 8.
pub fn judge_room(len: usize, at: usize, count: usize) -> Judgement
    ensures judges { judgement_of result ≡ refuse_if (ltb len (at + count)) refusal.room 0 }
    ensures roomy { OnOk result (at + count ≤ len) }
{
    if len < at {
        return Err(Refusal::Room);
    }
    refuse_if(len - at < count, Refusal::Room)
}

// The same of two lists that are lent alike.
pub fn judge_rooms(first: usize, second: usize, at: usize, count: usize) -> Judgement
    ensures judges { judgement_of result ≡ lowest (refuse_if (ltb first (at + count)) refusal.room 0 ∷ refuse_if (ltb second (at + count)) refusal.room 0 ∷ []) }
    ensures roomy { OnOk result ((at + count ≤ first) × (at + count ≤ second)) }
{
    lower(judge_room(first, at, count), judge_room(second, at, count))
}
