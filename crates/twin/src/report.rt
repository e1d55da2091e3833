//! The lines that are printed.
ghost use Rattle.std.specs.Prelude.{◌≡◌, ◌++◌, IfOk, string_bytes, OnOk};
ghost use Rattle.twin.specs.Report.{heading_line, section_line, report_of, answer_of};

use crate::asked::{Asked, Kind};
use amounts::cost::Cost;
use amounts::forms::{PageCost, SectionForm};
use amounts::kinds::{Moves, Samples};
use networks::network::Network;
use networks::section::Section;
use std::alloc::{AllocError, Global};
use twinline::twin_line::TwinLine;

/// How many stations and sections there are, and which the launcher and the trap are.
fn heading<C: Cost, N: Network<C>>(out: &mut String, net: &N) -> Result<(), AllocError>
    ensures { OnOk result (string_bytes out.new ≡ string_bytes out.old ++ heading_line (N.Network.meaning net.now)) }
{
    writeln!(
        out,
        "stations {} sections {} launcher {} trap {}",
        net.stations(),
        net.sections(),
        net.launcher(),
        net.trap()
    )
}

/// A section's number, ends and amount.
fn section_line<C: PageCost>(
    out: &mut String,
    number: usize,
    section: Section<C::Section>,
) -> Result<(), AllocError>
    ensures { OnOk result (string_bytes out.new ≡ string_bytes out.old ++ section_line C.forms.parts number section) }
{
    let Section {
        from,
        to,
        amount,
        ..
    } = section;
    let SectionForm { moves, samples } = C::parts(amount);
    writeln!(out, "{number} {from} {to} {moves} {samples}")
}

/// A network's line, and a line a section.
fn report<C: PageCost, N: Network<C>>(heap: Global, net: &N) -> Result<String, AllocError>
    ensures { IfOk result (λ s. string_bytes s ≡ report_of C.forms.parts (N.Network.meaning net.now)) }
{
    let mut out = String::new(heap);
    heading::<C, N>(&mut out, net)?;
    // Kept: a line needs the number beside its section; an iterator over sections would be zipped with the numbers again.
    for number in 0..net.sections() {
        let Some(section) = net.section(number) else {
            return Ok(out);
        };
        section_line::<C>(&mut out, number, section)?;
    }
    Ok(out)
}

/// What is printed for the words: the twin line, its refusal, or how to ask.
pub fn answer(heap: Global, asked: Option<Asked>) -> Result<String, AllocError>
    ensures { IfOk result (λ s. string_bytes s ≡ answer_of asked) }
{
    let Some(asked) = asked else {
        return format!(in heap; "usage: twin KIND COUNT SPACING UPPER LOWER CROSSOVER RATE\n");
    };
    match TwinLine::new(asked.drawing) {
        Err(fault) => format!(in heap; "{fault}\n"),
        Ok(line) => match asked.kind {
            Kind::Samples => report::<Samples, TwinLine>(heap, &line),
            Kind::Moves => report::<Moves, TwinLine>(heap, &line),
        },
    }
}
