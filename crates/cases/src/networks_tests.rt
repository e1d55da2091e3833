//! The twin line of 3 stations a pipe, spacing 2, 1,000, 500 and 125 mm at 256, and layers over it.
use amounts::forms::PageCost;
use amounts::kinds::{Moves, Samples};
use faults::{Fault, Layer, Refusal, Side, out_of_range};
use networks::blank::Blank;
use networks::estimates::{Estimates, Pair};
use networks::network::Network;
use networks::shut_in::ShutIn;
use std::test::Fail;
use twinline::twin_line::{Drawing, TwinLine};

fn drawing(count: usize, spacing: usize, rate: u64) -> Drawing {
    Drawing {
        count,
        spacing,
        upper: 1_000,
        lower: 500,
        crossover: 125,
        rate,
    }
}

fn line(count: usize, spacing: usize) -> Result<TwinLine, Fail> {
    TwinLine::new(drawing(count, spacing, 256)).map_err(|_| Fail::new("refused"))
}

fn no_such_section(number: usize) -> Fault {
    Layer::Network.fault(Refusal::NoSuchSection { number })
}

/// From, to, moves and samples of an open section.
fn open<C: PageCost, N: Network<C>>(net: &N, number: usize) -> Option<(usize, usize, u16, u32)> {
    let section = net.section(number)?;
    let form = C::parts(section.amount);
    if section.shut {
        return None;
    }
    Some((section.from, section.to, form.moves, form.samples))
}

#[test]
fn sections_of_the_line(rt: HostRuntime) -> Result<(), Fail> {
    let line = line(3, 2)?;
    assert_eq!(rt; <TwinLine as Network<Moves>>::stations(&line), 6);
    assert_eq!(rt; <TwinLine as Network<Moves>>::sections(&line), 8);
    assert_eq!(rt; <TwinLine as Network<Moves>>::trap(&line), 5);
    assert_eq!(rt; open::<Moves, TwinLine>(&line, 1), Some((1, 2, 0, 256)));
    assert_eq!(rt; open::<Moves, TwinLine>(&line, 2), Some((3, 4, 0, 128)));
    assert_eq!(rt; open::<Moves, TwinLine>(&line, 6), Some((2, 5, 1, 32)));
    assert_eq!(rt; open::<Samples, TwinLine>(&line, 7), Some((5, 2, 0, 32)));
    assert_eq!(rt; open::<Samples, TwinLine>(&line, 8), None);
    Ok(())
}

#[test]
fn sections_at_a_station(rt: HostRuntime) -> Result<(), Fail> {
    let line = line(3, 2)?;
    assert_eq!(rt;
        <TwinLine as Network<Samples>>::leaving(&line, 0, 0),
        Some(0)
    );
    assert_eq!(rt;
        <TwinLine as Network<Samples>>::leaving(&line, 0, 1),
        Some(4)
    );
    assert_eq!(rt; <TwinLine as Network<Samples>>::leaving(&line, 0, 2), None);
    assert_eq!(rt;
        <TwinLine as Network<Samples>>::entering(&line, 5, 0),
        Some(3)
    );
    assert_eq!(rt;
        <TwinLine as Network<Samples>>::entering(&line, 5, 1),
        Some(6)
    );
    assert_eq!(rt; <TwinLine as Network<Samples>>::leaving(&line, 4, 1), None);
    assert_eq!(rt; <TwinLine as Network<Samples>>::leaving(&line, 6, 0), None);
    Ok(())
}

/// The numbers of the first three sections to which a side comes at the station.
fn touching<N: Network<Samples>>(net: &N, side: Side, station: usize) -> [Option<usize>; 3] {
    [0, 1, 2].map(|k| net.touching(side, station, k))
}

#[test]
fn sections_by_side(rt: HostRuntime) -> Result<(), Fail> {
    let mut net = ShutIn::new(line(3, 2)?);
    assert_eq!(rt; net.shut::<Samples>(4), Ok(()));
    assert_eq!(rt; touching(&net, Side::Forward, 0), [Some(0), Some(4), None]);
    assert_eq!(rt; touching(&net, Side::Backward, 5), [Some(3), Some(6), None]);
    assert_eq!(rt; touching(&&net, Side::Backward, 4), [Some(2), None, None]);
    assert_eq!(rt; touching(&net, Side::Backward, 6), [None, None, None]);
    Ok(())
}

#[test]
fn drawings_out_of_range(rt: HostRuntime) {
    assert_eq!(rt; TwinLine::new(drawing(0, 2, 256)), Err(out_of_range(0)));
    assert_eq!(rt; TwinLine::new(drawing(2_049, 0, 256)), Err(out_of_range(0)));
    assert_eq!(rt; TwinLine::new(drawing(3, 2_049, 256)), Err(out_of_range(1)));
    assert_eq!(rt; TwinLine::new(drawing(3, 2, 257)), Err(out_of_range(5)));
    assert!(rt; TwinLine::new(drawing(2_048, 2_048, 512)).is_ok());
}

#[test]
fn shut_sections(rt: HostRuntime) -> Result<(), Fail> {
    let mut net = ShutIn::new(line(3, 2)?);
    assert_eq!(rt; net.shut::<Samples>(8), Err(no_such_section(8)));
    assert_eq!(rt; net.shut::<Samples>(4), Ok(()));
    assert_eq!(rt; net.shut::<Samples>(4), Ok(()));
    assert_eq!(rt; net.kept(), [4].as_slice());
    assert_eq!(rt; open::<Samples, ShutIn<TwinLine>>(&net, 4), None);
    assert_eq!(rt;
        open::<Samples, ShutIn<TwinLine>>(&net, 5),
        Some((3, 0, 0, 32))
    );
    assert_eq!(rt; open::<Samples, &ShutIn<TwinLine>>(&&net, 4), None);
    Ok(())
}

#[test]
fn a_full_layer(rt: HostRuntime) -> Result<(), Fail> {
    let mut net = ShutIn::new(line(40, 1)?);
    let full = Layer::Network.fault(Refusal::ShutInFull { kept: 64 });
    for number in 0..64 {
        assert_eq!(rt; net.shut::<Samples>(number), Ok(()));
    }
    assert_eq!(rt; net.shut::<Samples>(64), Err(full));
    assert_eq!(rt; net.shut::<Samples>(63), Ok(()));
    assert_eq!(rt; net.shut::<Samples>(158), Err(no_such_section(158)));
    Ok(())
}

#[test]
fn blank_estimates(rt: HostRuntime) -> Result<(), Fail> {
    assert_eq!(rt; Blank::new(0), Err(out_of_range(0)));
    assert_eq!(rt; Blank::new(4_097), Err(out_of_range(0)));
    let Ok(blank) = Blank::new(4_096) else {
        return Err(Fail::new("refused"));
    };
    assert_eq!(rt; <Blank as Estimates<Samples>>::count(&blank), 4_096);
    assert_eq!(rt; <Blank as Estimates<Samples>>::pair(&blank, 4_096), None);
    assert_eq!(rt;
        <Blank as Estimates<Samples>>::pair(&blank, 4_095),
        Some(Pair {
            forward: 0,
            backward: 0
        })
    );
    Ok(())
}
