// Refusal lines at every length around their own.
use crate::saying::write_front;
use rules::refusal::{Layer, Refusal};
use writing::refused::write_refusal;

pub fn print_lines(rt: &HostRuntime) -> anyhow::Result<()> {
    let short = Refusal {
        number: 6,
        layer: Layer::Reader,
        place: 2,
    };
    for room in 0..22 {
        print_line(rt, short, room)?;
    }
    let layers = [
        Layer::Reader,
        Layer::Book,
        Layer::Join,
        Layer::Trial,
        Layer::Report,
    ];
    for layer in layers {
        let most = Refusal {
            number: 255,
            layer,
            place: usize::MAX,
        };
        print_line(rt, most, 40)?;
    }
    Ok(())
}

fn print_line(rt: &HostRuntime, refusal: Refusal, room: usize) -> anyhow::Result<()> {
    let heap = rt.alloc();
    let mut output = vec![in heap; 7u8; room]?;
    match write_refusal(refusal, output.as_mut_slice()) {
        Ok(size) => {
            print!(rt; "{room} bytes, {size} used: ")?;
            write_front(rt, output.as_slice(), size)?;
        }
        Err(fault) => {
            let own = Refusal::from(fault);
            println!(rt; "{room} bytes: refused {} at {}", own.number, own.place)?;
        }
    }
    Ok(())
}
