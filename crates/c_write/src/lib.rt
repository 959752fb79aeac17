// The writers for C. Each returns one number: how many bytes it wrote in the low 32 bits, its refusal above them.
#![tactic(auto, unfolding(wire_message::specs::Signed::bool))]

ghost use Rattle.std.specs.Prelude.{◌≡◌, true, [], ◌∷◌, length};
ghost use Rattle.wire_message.specs.Signed.{bool};
ghost use Rattle.c_write.specs.Answer.{as_number};
ghost use Rattle.write_pieces.specs.Parts.{stamp};
ghost use Rattle.write_message.specs.Fits.{accept_fits, client_hello_fits, ends_fit, entry_fits, entry_strings_fits, exit_fits, io_fits, note_fits, report_fits, restart_fits, server_hello_fits, suspend_fits, time_fits, window_fits};
ghost use Rattle.write_message.specs.Wrote.{wrote};
ghost use Rattle.write_forms.specs.Draft.{accept_pieces, client_hello_pieces, cut_at, entry_pieces, exit_pieces, number_list_pieces, numlistval, numval, report_pieces, restart_pieces, server_hello_pieces, string_list_pieces, strlistval, strval, time_pieces, timed_pieces, window_pieces, wrapped};
ghost use Rattle.write_forms.specs.Outcome.{buffer};
ghost use Rattle.write_forms.specs.Pieces.{bytes, encode_all};
ghost use Rattle.write_forms.specs.Run.{run_refusal};

use write_message::outcome::WriteError;

// A writer's answer as one number.
#[tactic(auto, unfolding(crate::specs::Answer::as_number))]
fn answer(w: Result<usize, WriteError>) -> u64
    ensures { result ≡ as_number w }
{
    match w {
        Ok(size) => (size % 4294967296) as u64,
        Err(error) => u64::from(u8::from(error)) * 4294967296,
    }
}

#[unsafe(no_mangle)]
pub extern "C" fn sudolog_write_client_hello(
    member: u64,
    client_id: &[u8],
    framed: u8,
    out: &mut [u8],
) -> u64
    ensures answer { result ≡ as_number (wrote 0 (client_hello_fits member) (bool framed) (wrapped member (client_hello_pieces client_id.now)) (length out.old)) }
    ensures buffer { out.new ≡ buffer 0 (client_hello_fits member) (bool framed) (wrapped member (client_hello_pieces client_id.now)) out.old }
{
    answer(write_client::write_client_hello(member, client_id, framed != 0, out))
}

#[unsafe(no_mangle)]
pub extern "C" fn sudolog_write_accept(
    member: u64,
    seconds: u64,
    nanos: u64,
    run: &[u8],
    expect_iobufs: u8,
    framed: u8,
    out: &mut [u8],
) -> u64
    ensures answer { result ≡ as_number (wrote (run_refusal 2 run.now) (accept_fits member (stamp seconds nanos)) (bool framed) (wrapped member (accept_pieces (stamp seconds nanos) run.now (bool expect_iobufs))) (length out.old)) }
    ensures buffer { out.new ≡ buffer (run_refusal 2 run.now) (accept_fits member (stamp seconds nanos)) (bool framed) (wrapped member (accept_pieces (stamp seconds nanos) run.now (bool expect_iobufs))) out.old }
{
    answer(write_client::write_accept(
        member,
        seconds,
        nanos,
        run,
        expect_iobufs != 0,
        framed != 0,
        out,
    ))
}

#[unsafe(no_mangle)]
pub extern "C" fn sudolog_write_report(
    member: u64,
    seconds: u64,
    nanos: u64,
    reason: &[u8],
    run: &[u8],
    framed: u8,
    out: &mut [u8],
) -> u64
    ensures answer { result ≡ as_number (wrote (run_refusal 3 run.now) (report_fits member (stamp seconds nanos)) (bool framed) (wrapped member (report_pieces (stamp seconds nanos) reason.now run.now)) (length out.old)) }
    ensures buffer { out.new ≡ buffer (run_refusal 3 run.now) (report_fits member (stamp seconds nanos)) (bool framed) (wrapped member (report_pieces (stamp seconds nanos) reason.now run.now)) out.old }
{
    answer(write_client::write_report(member, seconds, nanos, reason, run, framed != 0, out))
}

#[unsafe(no_mangle)]
pub extern "C" fn sudolog_write_exit(
    member: u64,
    seconds: u64,
    nanos: u64,
    exit_value: u64,
    dumped_core: u8,
    signal: &[u8],
    error: &[u8],
    framed: u8,
    out: &mut [u8],
) -> u64
    ensures answer { result ≡ as_number (wrote 0 (exit_fits member (stamp seconds nanos) exit_value signal.now) (bool framed) (wrapped member (exit_pieces (stamp seconds nanos) exit_value (bool dumped_core) signal.now error.now)) (length out.old)) }
    ensures buffer { out.new ≡ buffer 0 (exit_fits member (stamp seconds nanos) exit_value signal.now) (bool framed) (wrapped member (exit_pieces (stamp seconds nanos) exit_value (bool dumped_core) signal.now error.now)) out.old }
{
    answer(write_io::write_exit(
        member,
        seconds,
        nanos,
        exit_value,
        dumped_core != 0,
        signal,
        error,
        framed != 0,
        out,
    ))
}

#[unsafe(no_mangle)]
pub extern "C" fn sudolog_write_restart(
    member: u64,
    log_id: &[u8],
    seconds: u64,
    nanos: u64,
    framed: u8,
    out: &mut [u8],
) -> u64
    ensures answer { result ≡ as_number (wrote 0 (restart_fits member log_id.now (stamp seconds nanos)) (bool framed) (wrapped member (restart_pieces log_id.now (stamp seconds nanos))) (length out.old)) }
    ensures buffer { out.new ≡ buffer 0 (restart_fits member log_id.now (stamp seconds nanos)) (bool framed) (wrapped member (restart_pieces log_id.now (stamp seconds nanos))) out.old }
{
    answer(write_client::write_restart(member, log_id, seconds, nanos, framed != 0, out))
}

#[unsafe(no_mangle)]
pub extern "C" fn sudolog_write_io(
    member: u64,
    seconds: u64,
    nanos: u64,
    data: &[u8],
    framed: u8,
    out: &mut [u8],
) -> u64
    ensures answer { result ≡ as_number (wrote 0 (io_fits member (stamp seconds nanos)) (bool framed) (wrapped member (timed_pieces (stamp seconds nanos) «data».now)) (length out.old)) }
    ensures buffer { out.new ≡ buffer 0 (io_fits member (stamp seconds nanos)) (bool framed) (wrapped member (timed_pieces (stamp seconds nanos) «data».now)) out.old }
{
    answer(write_io::write_io(member, seconds, nanos, data, framed != 0, out))
}

#[unsafe(no_mangle)]
pub extern "C" fn sudolog_write_window_size(
    member: u64,
    seconds: u64,
    nanos: u64,
    rows: u64,
    cols: u64,
    framed: u8,
    out: &mut [u8],
) -> u64
    ensures answer { result ≡ as_number (wrote 0 (window_fits member (stamp seconds nanos) rows cols) (bool framed) (wrapped member (window_pieces (stamp seconds nanos) rows cols)) (length out.old)) }
    ensures buffer { out.new ≡ buffer 0 (window_fits member (stamp seconds nanos) rows cols) (bool framed) (wrapped member (window_pieces (stamp seconds nanos) rows cols)) out.old }
{
    answer(write_io::write_window_size(member, seconds, nanos, rows, cols, framed != 0, out))
}

#[unsafe(no_mangle)]
pub extern "C" fn sudolog_write_suspend(
    member: u64,
    seconds: u64,
    nanos: u64,
    signal: &[u8],
    framed: u8,
    out: &mut [u8],
) -> u64
    ensures answer { result ≡ as_number (wrote 0 (suspend_fits member (stamp seconds nanos) signal.now) (bool framed) (wrapped member (timed_pieces (stamp seconds nanos) signal.now)) (length out.old)) }
    ensures buffer { out.new ≡ buffer 0 (suspend_fits member (stamp seconds nanos) signal.now) (bool framed) (wrapped member (timed_pieces (stamp seconds nanos) signal.now)) out.old }
{
    answer(write_io::write_suspend(member, seconds, nanos, signal, framed != 0, out))
}

#[unsafe(no_mangle)]
pub extern "C" fn sudolog_write_string_list(
    joined: &[u8],
    ends: &[usize],
    framed: u8,
    out: &mut [u8],
) -> u64
    ensures answer { result ≡ as_number (wrote 0 (ends_fit joined.now ends.now) (bool framed) (wrapped 0 (string_list_pieces (cut_at joined.now 0 ends.now))) (length out.old)) }
    ensures buffer { out.new ≡ buffer 0 (ends_fit joined.now ends.now) (bool framed) (wrapped 0 (string_list_pieces (cut_at joined.now 0 ends.now))) out.old }
{
    answer(write_list::write_string_list(joined, ends, framed != 0, out))
}

#[unsafe(no_mangle)]
pub extern "C" fn sudolog_write_number_list(numbers: &[u64], framed: u8, out: &mut [u8]) -> u64
    ensures answer { result ≡ as_number (wrote 0 (true) (bool framed) (wrapped 0 (number_list_pieces numbers.now)) (length out.old)) }
    ensures buffer { out.new ≡ buffer 0 (true) (bool framed) (wrapped 0 (number_list_pieces numbers.now)) out.old }
{
    answer(write_list::write_number_list(numbers, framed != 0, out))
}

#[unsafe(no_mangle)]
pub extern "C" fn sudolog_write_entry_number(
    member: u64,
    key: &[u8],
    value: u64,
    framed: u8,
    out: &mut [u8],
) -> u64
    ensures answer { result ≡ as_number (wrote 0 (entry_fits member key.now) (bool framed) (wrapped member (entry_pieces key.now (numval value))) (length out.old)) }
    ensures buffer { out.new ≡ buffer 0 (entry_fits member key.now) (bool framed) (wrapped member (entry_pieces key.now (numval value))) out.old }
{
    answer(write_entry::write_entry_number(member, key, value, framed != 0, out))
}

#[unsafe(no_mangle)]
pub extern "C" fn sudolog_write_entry_string(
    member: u64,
    key: &[u8],
    value: &[u8],
    framed: u8,
    out: &mut [u8],
) -> u64
    ensures answer { result ≡ as_number (wrote 0 (entry_fits member key.now) (bool framed) (wrapped member (entry_pieces key.now (strval value.now))) (length out.old)) }
    ensures buffer { out.new ≡ buffer 0 (entry_fits member key.now) (bool framed) (wrapped member (entry_pieces key.now (strval value.now))) out.old }
{
    answer(write_entry::write_entry_string(member, key, value, framed != 0, out))
}

#[unsafe(no_mangle)]
pub extern "C" fn sudolog_write_entry_strings(
    member: u64,
    key: &[u8],
    joined: &[u8],
    ends: &[usize],
    framed: u8,
    out: &mut [u8],
) -> u64
    ensures answer { result ≡ as_number (wrote 0 (entry_strings_fits member key.now joined.now ends.now) (bool framed) (wrapped member (entry_pieces key.now (strlistval (cut_at joined.now 0 ends.now)))) (length out.old)) }
    ensures buffer { out.new ≡ buffer 0 (entry_strings_fits member key.now joined.now ends.now) (bool framed) (wrapped member (entry_pieces key.now (strlistval (cut_at joined.now 0 ends.now)))) out.old }
{
    answer(write_entry::write_entry_strings(member, key, joined, ends, framed != 0, out))
}

#[unsafe(no_mangle)]
pub extern "C" fn sudolog_write_entry_numbers(
    member: u64,
    key: &[u8],
    numbers: &[u64],
    framed: u8,
    out: &mut [u8],
) -> u64
    ensures answer { result ≡ as_number (wrote 0 (entry_fits member key.now) (bool framed) (wrapped member (entry_pieces key.now (numlistval numbers.now))) (length out.old)) }
    ensures buffer { out.new ≡ buffer 0 (entry_fits member key.now) (bool framed) (wrapped member (entry_pieces key.now (numlistval numbers.now))) out.old }
{
    answer(write_entry::write_entry_numbers(member, key, numbers, framed != 0, out))
}

#[unsafe(no_mangle)]
pub extern "C" fn sudolog_write_server_hello(
    member: u64,
    server_id: &[u8],
    redirect: &[u8],
    joined: &[u8],
    ends: &[usize],
    subcommands: u8,
    framed: u8,
    out: &mut [u8],
) -> u64
    ensures answer { result ≡ as_number (wrote 0 (server_hello_fits member joined.now ends.now) (bool framed) (wrapped member (server_hello_pieces server_id.now redirect.now (cut_at joined.now 0 ends.now) (bool subcommands))) (length out.old)) }
    ensures buffer { out.new ≡ buffer 0 (server_hello_fits member joined.now ends.now) (bool framed) (wrapped member (server_hello_pieces server_id.now redirect.now (cut_at joined.now 0 ends.now) (bool subcommands))) out.old }
{
    answer(write_server::write_server_hello(
        member,
        server_id,
        redirect,
        joined,
        ends,
        subcommands != 0,
        framed != 0,
        out,
    ))
}

#[unsafe(no_mangle)]
pub extern "C" fn sudolog_write_time(
    member: u64,
    seconds: u64,
    nanos: u64,
    framed: u8,
    out: &mut [u8],
) -> u64
    ensures answer { result ≡ as_number (wrote 0 (time_fits member (stamp seconds nanos)) (bool framed) (wrapped member (time_pieces (stamp seconds nanos))) (length out.old)) }
    ensures buffer { out.new ≡ buffer 0 (time_fits member (stamp seconds nanos)) (bool framed) (wrapped member (time_pieces (stamp seconds nanos))) out.old }
{
    answer(write_server::write_time(member, seconds, nanos, framed != 0, out))
}

#[unsafe(no_mangle)]
pub extern "C" fn sudolog_write_note(member: u64, note: &[u8], framed: u8, out: &mut [u8]) -> u64
    ensures answer { result ≡ as_number (wrote 0 (note_fits member) (bool framed) (encode_all (bytes member note.now ∷ [])) (length out.old)) }
    ensures buffer { out.new ≡ buffer 0 (note_fits member) (bool framed) (encode_all (bytes member note.now ∷ [])) out.old }
{
    answer(write_server::write_note(member, note, framed != 0, out))
}
