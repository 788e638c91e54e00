//! The report of a domain: what it holds, as text.
#![tactic(auto)]

ghost use Rattle.std.specs.Prelude.{◌≡◌, ◌+◌, ◌*◌, ◌<◌, ◌≤◌, ◌++◌, length, OnOk, OnErr, vec_len, vec_capacity};
ghost use Rattle.std.specs.List.{flat_map};
ghost use Rattle.iova_report.specs.Report.{name_text, number_text, field_text, counts_text, window_text, report_text};

use iova_core::domain::Domain;
use iova_model::place::Counts;
use iova_range::range::Range;
use iova_range::refusal::Refusal;
use itoa::Buffer;

/// How many places a name has.
const NAME: usize = 10;

/// How many places a number has, enough for each of 64 bits.
const NUMBER: usize = 20;

/// The bytes of a line with one number, with its LF.
const FIELD: usize = NAME + NUMBER + 1;

/// The bytes of a window's line, with its LF.
const WINDOW: usize = NAME + 2 * NUMBER + 1;

const SPACES: [u8; NUMBER] = [b' '; NUMBER];

/// Appends the domain's report: twelve lines of a name and a number (the frames at each kind of
/// place, the clients, their holdings, and the start count, the finish count, what is owed and the
/// flights of the flushes), then a line for each window, rising, with its first and its last frame.
/// Names are left in 10 places, numbers right in 20. Refused by `NoMemory`, which appends nothing
/// and comes only where `out` has to grow.
#[tactic(auto, unfolding(crate::specs::Report::report_text))]
pub fn report(domain: &Domain, out: &mut Vec<u8>) -> Result<(), Refusal>
    ensures ok { OnOk result (out.new.items ≡ out.old.items ++ report_text domain.now) }
    ensures err { OnErr result ((result ≡ Err Refusal.NoMemory) × (out.new.items ≡ out.old.items)) }
    ensures full { OnErr result (vec_capacity out.old < vec_len out.old + length
        (report_text domain.now)) }
{
    // for the proof: the state is valid, so that there are at most 64 windows
    let _bounds = domain.bounds();
    let windows = domain.windows();
    let Ok(()) = out.reserve(12 * FIELD + windows.len() * WINDOW) else {
        return Err(Refusal::NoMemory);
    };
    put_counts(out, domain.counts());
    put_field(out, b"clients", domain.clients() as u64);
    put_field(out, b"holdings", domain.totals().count);
    put_field(out, b"start", domain.start());
    put_field(out, b"finish", domain.finish());
    put_field(out, b"owed", domain.owed());
    put_field(out, b"flights", domain.in_flight() as u64);
    put_windows(out, windows);
    Ok(())
}

// Each of these appends to `out`, which has room for it.

fn put_counts(out: &mut Vec<u8>, counts: Counts)
    requires { vec_len out.old + 6 * FIELD ≤ vec_capacity out.old }
    ensures items { out.new.items ≡ out.old.items ++ counts_text counts }
    ensures len { vec_len out.new ≡ vec_len out.old + 6 * FIELD }
    ensures room { vec_capacity out.old ≤ vec_capacity out.new }
{
    put_field(out, b"free", counts.free);
    put_field(out, b"reserved", counts.reserved);
    put_field(out, b"client", counts.client);
    put_field(out, b"magazine", counts.magazine);
    put_field(out, b"depot", counts.depot);
    put_field(out, b"ring", counts.ring);
}

fn put_windows(out: &mut Vec<u8>, windows: &[Range])
    requires { vec_len out.old + length windows.now * WINDOW ≤ vec_capacity out.old }
    ensures items { out.new.items ≡ out.old.items ++ flat_map window_text windows.now }
{
    for window in windows {
        put_window(out, *window);
    }
}

fn put_window(out: &mut Vec<u8>, window: Range)
    requires { vec_len out.old + WINDOW ≤ vec_capacity out.old }
    ensures items { out.new.items ≡ out.old.items ++ window_text window }
    ensures len { vec_len out.new ≡ vec_len out.old + WINDOW }
    ensures room { vec_capacity out.old ≤ vec_capacity out.new }
{
    put_name(out, b"window");
    put_number(out, window.lo());
    put_number(out, window.hi());
    put(out, b"\n");
}

fn put_field(out: &mut Vec<u8>, name: &[u8], number: u64)
    requires name { length name.now ≤ NAME }
    requires fits { vec_len out.old + FIELD ≤ vec_capacity out.old }
    ensures items { out.new.items ≡ out.old.items ++ field_text name.now number }
    ensures len { vec_len out.new ≡ vec_len out.old + FIELD }
    ensures room { vec_capacity out.old ≤ vec_capacity out.new }
{
    put_name(out, name);
    put_number(out, number);
    put(out, b"\n");
}

fn put_name(out: &mut Vec<u8>, name: &[u8])
    requires name { length name.now ≤ NAME }
    requires fits { vec_len out.old + NAME ≤ vec_capacity out.old }
    ensures items { out.new.items ≡ out.old.items ++ name_text name.now }
    ensures len { vec_len out.new ≡ vec_len out.old + NAME }
    ensures room { vec_capacity out.old ≤ vec_capacity out.new }
{
    put(out, name);
    put(out, &SPACES[..NAME - name.len()]);
}

fn put_number(out: &mut Vec<u8>, number: u64)
    requires { vec_len out.old + NUMBER ≤ vec_capacity out.old }
    ensures items { out.new.items ≡ out.old.items ++ number_text number }
    ensures len { vec_len out.new ≡ vec_len out.old + NUMBER }
    ensures room { vec_capacity out.old ≤ vec_capacity out.new }
{
    let mut buffer = Buffer::new();
    let digits = buffer.format(number).as_bytes();
    put(out, &SPACES[..NUMBER - digits.len()]);
    put(out, digits);
}

fn put(out: &mut Vec<u8>, bytes: &[u8])
    requires { vec_len out.old + length bytes.now ≤ vec_capacity out.old }
    ensures items { out.new.items ≡ out.old.items ++ bytes.now }
    ensures len { vec_len out.new ≡ vec_len out.old + length bytes.now }
    ensures room { vec_capacity out.old ≤ vec_capacity out.new }
{
    out.extend_from_slice(bytes).unwrap();
}
