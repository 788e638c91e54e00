//! What a daemon prints at its end.
ghost use Rattle.std.specs.Prelude.{◌≡◌, ◌⊎◌, [], IfErr, OnOk};
ghost use Rattle.iova_tools.specs.Outcomes.{PrintsDomain, domain_text};

use crate::fault::Fault;
use iova_core::domain::Domain;
use iova_range::refusal::Refusal;
use iova_report::report;
use iova_text::buffer::{LineBuffer, append, put, put_numbers};
use iova_text::write::write_all;
use std::alloc::Global;
use std::io::Write;

/// Prints a line with the domain's number, and the domain's report. Refused by `NoMemory`, with
/// nothing written, and by `CannotWrite`.
pub fn print_domain<W: Write>(
    alloc: Global,
    number: u64,
    domain: &Domain,
    writer: &mut W,
) -> Result<(), Fault<'static>>
    ensures prints { PrintsDomain number domain.now (W.contents writer.old) (W.contents writer.new)
        result }
    ensures faults { IfErr result (λ e. (e ≡ Fault.NoMemory) ⊎ (e ≡ Fault.CannotWrite)) }
{
    let mut text = Vec::new(alloc);
    match put_domain(number, domain, &mut text) {
        Ok(()) => match write_all(writer, &text) {
            Ok(()) => Ok(()),
            Err(_) => Err(Fault::CannotWrite),
        },
        Err(_) => Err(Fault::NoMemory),
    }
}

/// Appends that line and the report.
fn put_domain(number: u64, domain: &Domain, text: &mut Vec<u8>) -> Result<(), Refusal>
    requires { text.old.items ≡ [] }
    ensures ok { OnOk result (text.new.items ≡ domain_text number domain.now) }
    ensures err { IfErr result (λ e. e ≡ Refusal.NoMemory) }
{
    let mut line = LineBuffer::new();
    put_numbers(&mut line, b"domain", &[number]);
    put(&mut line, b"\n");
    append(text, &line)?;
    report(domain, text)
}
