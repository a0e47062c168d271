// What an entry answers, as numbers: the answer with its value, or the refusal. (01: Eight refusals, "No." and "With it"; 02: N1)
ghost use Rattle.std.specs.Prelude.{◌≡◌};
ghost use Rattle.lin_host_numbers.specs.Answers.{numbers_of};

use lin_spec::Refusal;

// refusal 0: accepted, with a place, a length or an index as the value. Else the number of 01 or 02, with what it carries; kind 0 for calls, 1 for cards.
#[repr(C)]
#[derive(Clone, Copy)]
pub struct LinAnswer {
    pub refusal: u32,
    pub kind: u32,
    pub value: u64,
}

// The numbers of an answer with its value, or of a refusal.
pub fn answer_numbers(a: Result<usize, Refusal>) -> LinAnswer
    ensures { result ≡ numbers_of a }
{
    match a {
        Ok(value) => LinAnswer {
            refusal: 0,
            kind: 0,
            value: value as u64,
        },
        Err(r) => LinAnswer {
            refusal: r.number(),
            kind: r.kind(),
            value: r.carried(),
        },
    }
}
