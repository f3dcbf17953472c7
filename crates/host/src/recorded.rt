// One record of a recording run on a lent session, under its name in C.
ghost use Rattle.std.specs.Prelude.{◌≡◌};
ghost use Rattle.records.specs.Form.{longest};
ghost use Rattle.recording.specs.Running.{ran_record, bytes_after_record};

use recording::running;
use records::form;
use records::told::Ran;

// The bytes of the longest record.
#[unsafe(no_mangle)]
pub extern "C" fn kb_longest_record() -> usize
    ensures { result ≡ longest }
{
    form::longest_record()
}

// `before` is how many records came before this one.
#[unsafe(no_mangle)]
pub extern "C" fn kb_run_record(session: &mut [u8], held: &[u8], before: u32) -> Ran
    ensures value { result ≡ ran_record session.old held.now before }
    ensures session_after { session.new ≡ bytes_after_record session.old held.now before }
{
    running::run(session, held, before)
}
