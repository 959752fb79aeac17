// The session and the file check, as C calls them: each function calls the one of its name in `c_session`, on which `claim_host`
// stands, and states its clauses again. A library exports nothing to C, and no crate can use what is built for C.
#![tactic(auto)]

ghost use Rattle.std.specs.Prelude.{◌≡◌, length, eqb};
ghost use Rattle.base_laws.specs.Base.{pick};
ghost use Rattle.session.specs.Step as st;
ghost use Rattle.session_bytes.specs.Saved.{session_of, kept};
ghost use Rattle.c_session.specs.Session.{message_answer, message_slice, message_area, message_out, tick_number, file_number};

// Keeps a new session in the slice: 0, or 12 where it is not of 40 bytes.
#[unsafe(no_mangle)]
pub extern "C" fn sudolog_session_open(slice: &mut [u8]) -> u8
    ensures answer { result ≡ pick (eqb (length slice.old) 40) 0 12 }
    ensures slice { slice.new ≡ kept st.new_session slice.old }
{
    c_session::sudolog_session_open(slice)
}

// One message in the session that the slice keeps.
#[unsafe(no_mangle)]
pub extern "C" fn sudolog_session_message(
    slice: &mut [u8],
    s: &[u8],
    area: &mut [u8],
    used: usize,
    out: &mut [u8],
) -> u8
    ensures answer { result ≡ message_answer slice.old s.now area.old used out.old }
    ensures slice { slice.new ≡ message_slice slice.old s.now area.old used out.old }
    ensures area { area.new ≡ message_area slice.old s.now area.old used out.old }
    ensures out { out.new ≡ message_out slice.old s.now area.old used out.old }
{
    c_session::sudolog_session_message(slice, s, area, used, out)
}

// The commit point of a tick in nanoseconds.
#[unsafe(no_mangle)]
pub extern "C" fn sudolog_session_tick(slice: &[u8]) -> u64
    ensures { result ≡ tick_number (st.tick (session_of slice.now)) }
{
    c_session::sudolog_session_tick(slice)
}

// What the used bytes of an area are as a file.
#[unsafe(no_mangle)]
pub extern "C" fn sudolog_check_file(area: &[u8], used: usize) -> u8
    ensures { result ≡ file_number (st.file_check area.now used) }
{
    c_session::sudolog_check_file(area, used)
}
