// What a command prints of a job: the library's answer, as the page that is asked for.
#![tactic(auto, using(decimal::proofs::PageLaws::extends))]

ghost use Rattle.std.specs.Prelude.{◌≡◌, length};
ghost use Rattle.decimal.specs.Page.{Extends};
ghost use Rattle.job.specs.Job.{refusal_of, left_of};
ghost use Rattle.system.specs.Outcome.{refusal_number};

use command::Verb;
use decimal::Page;
use system::Refused;
use view::View;

// The library's answer, or the first limit broken.
pub fn numbered(job: &[u8], answer: &mut [u8]) -> Result<(), Refused>
    ensures value { refusal_number result ≡ refusal_of job.now (length answer.old) }
    ensures answer_after { answer.new ≡ left_of job.now answer.old }
{
    match job::answer(job, answer) {
        Ok(()) => Ok(()),
        Err(why) => Err(Refused { why }),
    }
}

// What is asked for of an accepted job.
pub fn page(verb: Verb, name: &[u8], view: View, page: &mut Page)
    ensures { Extends page.old page.new }
{
    match verb {
        Verb::Show => sheet::sheet(name, view, page),
        Verb::Draw => drawing::drawing(name, view, page),
        Verb::Job => page.text(view.answer),
        Verb::Words => listing::listing(view.answer, page),
        Verb::Check => accepted(name, page),
        Verb::Ask | Verb::Es | Verb::Help => {}
    }
}

fn accepted(name: &[u8], page: &mut Page)
    ensures { Extends page.old page.new }
{
    names::plains(name, page);
    page.text(b": accepted\n");
}
