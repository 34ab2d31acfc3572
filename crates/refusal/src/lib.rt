// What is said of a job that breaks a limit: two lines, the limit and what was found.
#![tactic(auto, using(decimal::proofs::PageLaws::extends))]

mod found;
mod sentence;

ghost use Rattle.decimal.specs.Page.{Extends};

use decimal::Page;
use limits::Refusal;

// The two lines, for the job that was read, whose first broken limit is `number`. One that no limit has is told as one that has no words of its own.
pub fn refusal(name: &[u8], job: &[u8], number: u32, page: &mut Page)
    ensures { Extends page.old page.new }
{
    let broken = Refusal::try_from(number).unwrap_or(Refusal::Es);
    names::plains(name, page);
    page.filled(b": refused, limit @Aw0: ", &[number]);
    page.text(sentence::sentence(broken));
    page.text(b"\n");
    found::found(job, broken, page);
}
