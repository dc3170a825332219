// The first pass: joins steps into entries, fills these into lists, and writes the length bytes of the requests.
ghost use Rattle.std.specs.Prelude.{◌≡◌, length};
ghost use Rattle.dpa.specs.declared.frame.Frame.{Frame};
ghost use Rattle.book.specs.Steps.{steps_of};
ghost use Rattle.entries.specs.Join.{entries_of};
ghost use Rattle.entries.specs.Writer.{HasRoom, Writes};
ghost use Rattle.output.specs.Output.{lengths};
ghost use Rattle.output.specs.Fill.{spans_of};
ghost use Rattle.output.specs.Form.{requests_for};

use crate::form::{GoodSteps, RequestForm};
use crate::list::{EMPTY_LIST_SIZE, next_length};
use crate::spans::Spans;
use entries::join::first_entry;
use entries::write::Writer;

// Writes one length byte for each request. Returns the span of each entry, so that the second pass need not join the steps again.
pub fn write_lengths(steps: GoodSteps, form: RequestForm, out: &mut Writer) -> Spans
    requires { (header : Frame) → HasRoom out.old (length (requests_for (record form { header = header }) (steps_of steps.steps))) }
    ensures lengths { (header : Frame) → Writes out.old out.new (lengths (requests_for (record form.entry { header = header }) (steps_of steps.entry.steps))) }
    ensures spans { result ≡ spans_of (entries_of form.entry.limits.entry (steps_of steps.entry.steps)) }
{
    let mut spans = Spans::new();
    if steps.steps.count == 0 {
        return spans;
    }
    let mut rest = steps;
    let mut size = EMPTY_LIST_SIZE;
    // No index is counted: each turn takes as many steps as the entry has.
    while 0 < rest.steps.count {
        let span = first_entry(rest.steps, form.limits.entry);
        spans.push(span);
        size = next_length(form, size, usize::from(span.size), out);
        rest = rest.after(usize::from(span.steps));
    }
    out.write_byte(form.length_byte(size));
    spans
}
