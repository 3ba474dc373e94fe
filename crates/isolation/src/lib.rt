// Two parties that share a legend: over any sequence of calls from a new legend, what a party reads and releases
// depends on its own successful calls alone (noninterference; document 02, ticket 8). The theorems are in
// proofs/Isolation.antt. The functions here only call public operations, and promise that one call of another party
// leaves a reading as it was, on any legend. Definitions: specs/.
#![tactic(auto)]

ghost use Rattle.std.specs.Prelude.{◌≡◌};
ghost use Rattle.legend.specs.Setting.{setting, releasing, legend_answer};
ghost use Rattle.isolation.specs.Answers.{answer_to};

use legend::{Legend, LegendAnswer};
use pond::PondAnswer;
use tally::Rectangle;

// The question of a pond reading: who asks, and for what.
#[derive(Clone, Copy)]
pub struct Question {
    pub resolution: u16,
    pub rectangle: Rectangle,
    pub party: u8,
    pub class: u16,
    pub floor: u8,
}

// A party's pond reading before and after a call, and the call's answer.
#[derive(Clone, Copy)]
pub struct Beside {
    pub before: PondAnswer,
    pub call: LegendAnswer,
    pub after: PondAnswer,
}

// The pond reading of a question.
// C's struct: the clauses `whole` speak of it by `answer_to`.
pub fn ask(screen: &[u8], question: Question, legend: Legend) -> PondAnswer
    ensures { result ≡ answer_to screen.now question legend }
{
    let rectangle = question.rectangle;
    pond::read_pond(
        screen,
        question.resolution,
        rectangle,
        question.party,
        question.class,
        question.floor,
        legend,
    )
    .into()
}

// A reading before a call of another, the call's answer, and the reading of the legend that it gives back.
fn read_around(screen: &[u8], question: Question, legend: Legend, call: LegendAnswer) -> Beside
    ensures { (result.before ≡ answer_to screen.now question legend)
        × (result.call ≡ call)
        × (result.after ≡ answer_to screen.now question call.legend) }
{
    let before = ask(screen, question, legend);
    let next = call.legend;
    let after = ask(screen, question, next);
    Beside {
        before,
        call,
        after,
    }
}

// No set by another, accepted or refused, changes a party's reading.
pub fn read_beside_set(
    screen: &[u8],
    question: Question,
    legend: Legend,
    other: u8,
    register: u8,
    class: u16,
    confidence: u8,
) -> Beside
    ensures unchanged { (other ≡ question.party → ⊥) → result.after ≡ result.before }
    ensures whole { (result.before ≡ answer_to screen.now question legend)
        × (result.call ≡ legend_answer legend (setting legend other register class confidence))
        × (result.after ≡ answer_to screen.now question result.call.legend) }
{
    let set = legend::set_entry(legend, other, register, class, confidence);
    read_around(screen, question, legend, legend::answer(legend, set))
}

// No release by another, accepted or refused, changes a party's reading.
pub fn read_beside_release(
    screen: &[u8],
    question: Question,
    legend: Legend,
    other: u8,
    register: u8,
) -> Beside
    ensures unchanged { (other ≡ question.party → ⊥) → result.after ≡ result.before }
    ensures whole { (result.before ≡ answer_to screen.now question legend)
        × (result.call ≡ legend_answer legend (releasing legend other register))
        × (result.after ≡ answer_to screen.now question result.call.legend) }
{
    let released = legend::release_entry(legend, other, register);
    read_around(screen, question, legend, legend::answer(legend, released))
}
