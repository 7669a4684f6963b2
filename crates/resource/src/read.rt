// Reading a form: it is looked over as a whole, and then its octets are stored where the output has room for all of them.
ghost use Rattle.std.specs.Prelude.{◌≤◌, ◌≡◌, Ok, length};
ghost use Rattle.base.specs.Output.{stored_in};
ghost use Rattle.resource_form.specs.Form.{form_reading};
ghost use Rattle.resource_form.specs.Conversion.{read_conversion, from_form, conversion_answer, conversion_output};
ghost use Rattle.resource.specs.Scan.{scan_of, octets_of};

use base::{Answer, Refusal, limit};
use resource_form::BACKSLASH;

// The first fault of a form.
#[derive(Clone, Copy)]
struct Fault {
    place: usize,
}

// Looks a form over: how many octets it stands for.
fn look_over(form: &[u8]) -> Result<usize, Fault>
    ensures { result ≡ scan_of (form_reading form.now) }
{
    let mut at = 0;
    let mut count = 0;
    while at < form.len() {
        let Some(first) = resource_form::first_at(form, at) else {
            return Err(Fault { place: at });
        };
        at += first.size;
        count += 1;
    }
    Ok(count)
}

// Stores the octets that a form stands for, for which there is room. An escape is read again as a whole: the place after it then follows from
// branches, which the processor foresees, and not from the octet read. It is never bad, since the form has no fault.
fn store(form: &[u8], octets: usize, out: &mut [u8])
    requires { (Ok octets ≡ scan_of (form_reading form.now)) × (octets ≤ length out.old) }
    ensures { out.new ≡ stored_in (octets_of (form_reading form.now)) out.old }
{
    let mut at = 0;
    for i in 0..octets {
        let b = form[at];
        if b == BACKSLASH {
            let Some(first) = resource_form::escape_at(form, at + 1) else {
                return;
            };
            out[i] = first.octet;
            at += resource_form::size(first.octet) as usize;
        } else {
            out[i] = b;
            at += 1;
        }
    }
}

// The octets of a form that has no fault: so many are given, where they are within the limit and the output has room for them.
fn give(form: &[u8], octets: usize, out: &mut [u8]) -> Answer
    requires { Ok octets ≡ scan_of (form_reading form.now) }
    ensures { (result ≡ conversion_answer (read_conversion (form_reading form.now)) (length form.now) (length out.old))
        × (out.new ≡ conversion_output (read_conversion (form_reading form.now)) out.old) }
{
    if limit::OCTETS < octets {
        return Refusal::TooLong.at(0);
    }
    if out.len() < octets {
        return Answer::no_room(octets);
    }
    store(form, octets, out);
    Answer::accepted(form.len(), octets)
}

// Reads a form, and stores the octets that it stands for at the start of the output.
pub fn read(form: &[u8], out: &mut [u8]) -> Answer
    ensures { (result ≡ conversion_answer (from_form form.now) (length form.now) (length out.old))
        × (out.new ≡ conversion_output (from_form form.now) out.old) }
{
    if limit::FORM < form.len() {
        return Refusal::TooLong.at(0);
    }
    match look_over(form) {
        Ok(octets) => give(form, octets, out),
        Err(Fault { place }) => Refusal::BadForm.at(place),
    }
}
