// The second pass: writes the requests of a scene after their length bytes.
ghost use Rattle.std.specs.Prelude.{◌≡◌, ◌≤◌, length};
ghost use Rattle.std.proofs.lemmas.List.Edits.{sets};
ghost use Rattle.book.specs.Steps.{steps_of};
ghost use Rattle.entries.specs.Group.{concat};
ghost use Rattle.entries.specs.Join.{entries_of};
ghost use Rattle.entries.specs.Writer.{HasRoom, Writes};
ghost use Rattle.output.specs.Output.{output, min_output};
ghost use Rattle.output.specs.Fill.{spans_of};
ghost use Rattle.output.specs.Form.{requests_for};

use crate::fill::write_lengths;
use crate::form::{GoodSteps, RequestForm};
use crate::list::{EMPTY_LIST_SIZE, next_list};
use batch::entry::CLOSING_ZERO;
use entries::entry::write_entry;
use entries::join::EntrySpan;
use entries::write::Writer;

// Writes the requests one after another, with the entries that the spans give.
fn write_requests(steps: GoodSteps, spans: &[EntrySpan], form: RequestForm, out: &mut Writer)
    requires { (spans.now ≡ spans_of (entries_of form.limits.entry (steps_of steps.steps)))
        × HasRoom out.old (length (concat (requests_for form (steps_of steps.steps)))) }
    ensures { Writes out.old out.new (concat (requests_for form.entry (steps_of steps.entry.steps))) }
{
    if steps.steps.count == 0 {
        return;
    }
    form.write_prefix(out);
    let mut rest = steps;
    let mut size = EMPTY_LIST_SIZE;
    for span in spans {
        let count = usize::from(span.steps);
        let pdata = usize::from(span.size);
        size = next_list(form, size, pdata, out);
        write_entry(rest.steps.part(0, count), form.header.hwpid, pdata, out);
        rest = rest.after(count);
    }
    out.write_byte(CLOSING_ZERO);
}

// Writes the whole output of a scene; returns its length.
pub fn write_output(steps: GoodSteps, form: RequestForm, out: &mut [u8]) -> usize
    requires { min_output ≤ length out.old }
    ensures length { result ≡ length (output (requests_for form.entry (steps_of steps.entry.steps))) }
    ensures written { out.new ≡ sets out.old 0 (output (requests_for form.entry (steps_of steps.entry.steps))) }
{
    let mut writer = Writer { out, at: 1 };
    let spans = write_lengths(steps, form, &mut writer);
    let requests = writer.at - 1;
    write_requests(steps, spans.as_slice(), form, &mut writer);
    let length = writer.at;
    out[0] = requests as u8;
    length
}
