// The auditor's first question: whether a stored log leads from a starting metadata to an ending one, and if not, what stands in the way.
// Nothing is refused: any metadata, log, terms, limit text, offers and ending get a verdict.
#![tactic(auto)]

ghost use Rattle.std.specs.Prelude.{◌≡◌};
ghost use Rattle.verdict.specs.Judged.{judged, leads_there, verdict};

use compare::difference::Difference;
use compare::first_difference;
use records::metadata::TableMetadata;
use records::replies::ACCEPTED;
use records::run::{Answer, RunTerms};
use records::update::UpdateList;

// The number and the place of the run's answer, and where its metadata first differs from the ending one; a refused run's is not compared.
#[derive(Clone, Copy)]
pub struct Verdict {
    pub number: u8,
    pub place: usize,
    pub difference: Difference,
}

#[tactic(auto, unfolding(crate::specs::Judged::verdict))]
pub fn judge(
    m: TableMetadata,
    us: UpdateList,
    terms: RunTerms,
    limit: &[u8],
    offers: &[u8],
    ending: TableMetadata,
) -> Verdict
    ensures { result ≡ verdict m us terms (record { text = limit.now; offers = offers.now }) ending }
{
    judge_answer(register::run(m, us, terms, limit, offers), ending)
}

// The same of an answer that is there already.
#[tactic(auto, unfolding(crate::specs::Judged::judged))]
pub fn judge_answer(a: Answer, ending: TableMetadata) -> Verdict
    ensures { result ≡ judged a ending }
{
    let difference = if a.number == ACCEPTED {
        first_difference(a.metadata, ending)
    } else {
        Difference { part: 0, place: 0 }
    };
    Verdict {
        number: a.number,
        place: a.place,
        difference,
    }
}

pub fn leads(v: Verdict) -> bool
    ensures { result ≡ leads_there v }
{
    v.number == ACCEPTED && v.difference.part == 0
}
