// The report of an answer, and the numbers that a call returns for it.
// "The definition gives this paper's number and values for each of the enum's cases": each function here is one of these definitions.
#![tactic(auto)]

ghost use Rattle.std.specs.Prelude.{◌≡◌, length};
ghost use Rattle.rules.specs.Tables.{Tables};
ghost use Rattle.rules.specs.Answers.{number_of, roots_of, places_of, expected_of, first_of, value_of, bytes_of};
ghost use Rattle.records.specs.Expected.{Row};
ghost use Rattle.report.specs.Report.{answer_words};

use records::{Actions, ones_of};
use rooms::put_words;
use rules::Answer;

// "1 accepted" to "23 records". A function, since `From<Answer> for u32` would have to stand beside the type, in a crate without functions.
pub fn number_of(answer: Answer) -> u32
    ensures { result ≡ number_of answer }
{
    match answer {
        Answer::Accepted(_) => 1,
        Answer::AcceptedEarly(_, _) => 2,
        Answer::UnrecognizedToken(_, _) => 3,
        Answer::UnrecognizedEnd(_, _) => 4,
        Answer::ExtraToken(_) => 5,
        Answer::TokenizerError(_) => 6,
        Answer::OutOfUnits => 19,
        Answer::OutOfDepth => 20,
        Answer::OutOfChildren => 21,
        Answer::OutOfNodes => 22,
        Answer::OutOfRecords => 23,
    }
}

// The root, 0 where there is none.
pub fn root_of(answer: Answer) -> u32
    ensures { result ≡ first_of (roots_of answer) }
{
    match answer {
        Answer::Accepted(root) | Answer::AcceptedEarly(root, _) => root,
        _ => 0,
    }
}

// The token or location, 0 where there is none.
pub fn place_of(answer: Answer) -> u32
    ensures { result ≡ first_of (places_of answer) }
{
    match answer {
        Answer::AcceptedEarly(_, place)
        | Answer::UnrecognizedToken(place, _)
        | Answer::UnrecognizedEnd(place, _)
        | Answer::ExtraToken(place)
        | Answer::TokenizerError(place) => place,
        _ => 0,
    }
}

// The first of an answer's own fields: root, token or location.
pub fn value_of(answer: Answer) -> u32
    ensures { result ≡ value_of answer }
{
    match answer {
        Answer::Accepted(root) | Answer::AcceptedEarly(root, _) => root,
        _ => place_of(answer),
    }
}

// The expected kinds of answers 3 and 4, no bit for the others.
pub fn expected_of(actions: Actions, answer: Answer) -> [u32; 8]
    ensures { (T : Tables) → Row T actions.entry.bytes.now actions.entry.states actions.entry.kinds → result ≡ expected_of T answer }
{
    match answer {
        Answer::UnrecognizedToken(_, top) | Answer::UnrecognizedEnd(_, top) => {
            actions.expected_words(top.0 as usize)
        }
        _ => [0; 8],
    }
}

// The report, 16 words. The four counts are single numbers: they travel together here alone.
pub fn put_report(
    actions: Actions,
    report: &mut [u8],
    answer: Answer,
    units: u32,
    nodes: u32,
    children: u32,
    records: u32,
)
    requires { length report.old ≡ 64 }
    ensures { (T : Tables) → Row T actions.entry.bytes.now actions.entry.states actions.entry.kinds → report.new ≡
        bytes_of (answer_words T answer units nodes children records) }
{
    let words = expected_of(actions, answer);
    put_words(
        report,
        0,
        [
            number_of(answer),
            root_of(answer),
            place_of(answer),
            ones_of(words),
            units,
            nodes,
            children,
            records,
        ],
    );
    put_words(report, 32, words);
}
