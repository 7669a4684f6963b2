// The runs of a string one after the other, for C: the caller keeps the string, and this value beside it.
ghost use Rattle.std.specs.Prelude.{◌≡◌, length};
ghost use Rattle.run_lists.specs.Listed.{words_after, next_runs_of};
ghost use Rattle.positions.specs.Running.{position_in, opened_runs, next_run_handed, handed_of};

use positions::running::{RunHanded, RunReader, RunsHanded, opened, position_in, reader_of};

// A reader of runs at the start of a string, which is not checked yet.
#[unsafe(no_mangle)]
pub extern "C" fn ctext_open_runs() -> RunReader
    ensures { result ≡ opened_runs }
{
    opened()
}

// The next run or the answer, and where the reader then stands.
#[unsafe(no_mangle)]
pub extern "C" fn ctext_next_run(s: &[u8], p: RunReader) -> RunHanded
    ensures { result ≡ next_run_handed s.now p }
{
    let t = runs::stepping::next_run(s, position_in(p));
    RunHanded {
        reader: reader_of(t.position),
        run: t.run,
    }
}

// The next runs, as many as the list has room for, are stored from its first place on, each as a word, and the rest of it stays; and where the
// reader then stands.
#[unsafe(no_mangle)]
pub extern "C" fn ctext_next_runs(s: &[u8], p: RunReader, out: &mut [u64]) -> RunsHanded
    ensures { (result ≡ handed_of (next_runs_of s.now (position_in p) (length out.old)).step)
        × (out.new ≡ words_after (next_runs_of s.now (position_in p) (length out.old)).runs out.old) }
{
    let t = run_lists::next_runs(s, position_in(p), out);
    RunsHanded {
        reader: reader_of(t.position),
        answer: t.answer,
    }
}
