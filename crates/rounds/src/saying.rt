// What comes of a text, and how many places are then not zero.
use reader::desk::Lent;
use report::fault::ReportFault;
use report::report::report;
use rules::refusal::Refusal;
use std::alloc::{AllocError, Global};
use std::io;
use std::io::Write;
use text::words::Name;

// Places for a report, none of them zero before but those of the names.
#[derive(Drop)]
struct Places {
    rules: Vec<u32>,
    targets: Vec<u32>,
    names: Vec<Name>,
    output: Vec<u8>,
}

impl Places {
    // So many for each list, and so many for the output.
    fn new(heap: Global, count: usize, room: usize) -> Result<Places, AllocError> {
        Ok(Places {
            rules: vec![in heap; 7u32; count]?,
            targets: vec![in heap; 7u32; count]?,
            names: vec![in heap; Name::NONE; count]?,
            output: vec![in heap; 7u8; room]?,
        })
    }

    fn report(&mut self, text: &[u8]) -> Result<usize, ReportFault> {
        let mut lent = Lent {
            rules: self.rules.as_mut_slice(),
            targets: self.targets.as_mut_slice(),
            names: self.names.as_mut_slice(),
        };
        report(text, &mut lent, self.output.as_mut_slice())
    }
}

// The report itself.
pub fn print_report(rt: &HostRuntime, case: &str, text: &[u8]) -> anyhow::Result<()> {
    let mut places = Places::new(rt.alloc(), 4096, 4096)?;
    println!(rt; "{case}:")?;
    if let Ok(size) = places.report(text) {
        write_front(rt, places.output.as_slice(), size)?;
    }
    Ok(())
}

// So many bytes of an output, from the first on.
pub fn write_front(rt: &HostRuntime, output: &[u8], size: usize) -> io::Result<()> {
    rt.stdout().write_all(output.get(..size).unwrap_or(&[]))
}

// Only the answer, with the places that are not zero: of the output, of the sheets.
pub fn print_round(
    rt: &HostRuntime,
    case: &str,
    text: &[u8],
    room: usize,
    places: usize,
) -> anyhow::Result<()> {
    let mut places = Places::new(rt.alloc(), places, room)?;
    print!(rt; "{case}, an output of {room}: ")?;
    match places.report(text) {
        Ok(size) => print!(rt; "{size} bytes")?,
        Err(fault) => {
            let refusal = Refusal::from(fault);
            print!(rt; "refused {} at {}", refusal.number, refusal.place)?;
        }
    }
    let written = places.output.iter().filter(|b| **b != 0).count();
    let sheets = places.rules.iter().chain(places.targets.iter());
    let words = sheets.filter(|w| **w != 0).count();
    println!(rt; ", {written} bytes and {words} words not zero")?;
    Ok(())
}
