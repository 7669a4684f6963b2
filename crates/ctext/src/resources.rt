// Resource files, for C: octets in the form that stands in such a file.
ghost use Rattle.std.specs.Prelude.{◌≡◌, length};
ghost use Rattle.resource_form.specs.Conversion.{to_form, from_form, conversion_answer, conversion_output};

use base::Answer;

// The form of a string is stored from the output's first place on, and the rest of it stays; a refusal stores nothing.
#[unsafe(no_mangle)]
pub extern "C" fn ctext_resource_write(s: &[u8], out: &mut [u8]) -> Answer
    ensures { (result ≡ conversion_answer (to_form s.now) (length s.now) (length out.old))
        × (out.new ≡ conversion_output (to_form s.now) out.old) }
{
    resource::write::write(s, out)
}

// The octets that a form stands for are stored likewise.
#[unsafe(no_mangle)]
pub extern "C" fn ctext_resource_read(form: &[u8], out: &mut [u8]) -> Answer
    ensures { (result ≡ conversion_answer (from_form form.now) (length form.now) (length out.old))
        × (out.new ≡ conversion_output (from_form form.now) out.old) }
{
    resource::read::read(form, out)
}
