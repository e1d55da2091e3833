//! Amounts at their limits, samples of lengths, and what a fault says.
use amounts::cost::Cost;
use amounts::forms::{LabelForm, PageCost, SectionForm};
use amounts::kinds::{Moves, MovesLabel, Samples};
use amounts::sampling::samples_of;
use faults::{Fault, Layer, Refusal, Side, out_of_range};
use std::test::Fail;

#[test]
fn samples_are_rounded_up(rt: HostRuntime) {
    assert_eq!(rt; samples_of(1, 512), Ok(1));
    assert_eq!(rt; samples_of(1_001, 256), Ok(257));
    assert_eq!(rt; samples_of(0, 256), Ok(0));
    assert_eq!(rt; samples_of(1_000, 256), Ok(256));
    assert_eq!(rt; samples_of(8_000_000, 512), Ok(4_096_000));
}

#[test]
fn the_first_parameter_out_of_range(rt: HostRuntime) {
    assert_eq!(rt; samples_of(8_000_001, 512), Err(out_of_range(0)));
    assert_eq!(rt; samples_of(8_000_001, 300), Err(out_of_range(0)));
    assert_eq!(rt; samples_of(8_000_000, 300), Err(out_of_range(1)));
}

#[test]
fn sums_are_exact_up_to_the_limit(rt: HostRuntime) {
    let limit = 1i64 << 60;
    assert_eq!(rt; Samples::sum(limit, 0), limit);
    assert_eq!(rt; Samples::sum(limit - 5, 5), limit);
    assert_eq!(rt; Samples::sum(limit, 1), 0);
    assert_eq!(rt; Samples::sum(limit, -1), 0);
    assert_eq!(rt; Samples::difference(-limit, 0), -limit);
    assert_eq!(rt; Samples::difference(i64::MIN, 0), 0);
    assert_eq!(rt; Samples::size(i64::MIN), 1u64 << 63);
}

fn label(moves: i64, samples: i64) -> MovesLabel {
    MovesLabel { moves, samples }
}

fn form(moves: u32, samples: u64) -> LabelForm {
    LabelForm { moves, samples }
}

#[test]
fn moves_come_before_samples(rt: HostRuntime) {
    assert!(rt; Moves::at_most(label(0, 900), label(1, 2)));
    assert!(rt; !Moves::at_most(label(1, 2), label(0, 900)));
    assert!(rt; Moves::at_most(label(1, 2), label(1, 2)));
    assert_eq!(rt; Moves::size(label(-3, 2)), 3);
    assert_eq!(rt; Moves::sum(label(1, 2), label(-3, 4)), label(-2, 6));
    assert_eq!(rt; Moves::sum(label(1 << 60, 0), label(0, 1)), label(0, 0));
    assert_eq!(rt; Moves::sum(label(i64::MIN, 0), label(0, 0)), label(0, 0));
}

#[test]
fn page_forms(rt: HostRuntime) {
    let most = (1i64 << 44) - 1;
    assert_eq!(rt; Samples::shown(most), Some(form(0, (1u64 << 44) - 1)));
    assert_eq!(rt; Samples::shown(most + 1), None);
    assert_eq!(rt; Samples::shown(-1), None);
    assert_eq!(rt; Samples::told(form(1, 7)), None);
    assert_eq!(rt; Moves::told(form(1, 7)), Some(label(1, 7)));
    assert_eq!(rt;
        Samples::told_section(SectionForm {
            moves: 1,
            samples: 7
        }),
        None
    );
    assert_eq!(rt;
        Samples::told_section(SectionForm {
            moves: 0,
            samples: 7
        }),
        Some(7)
    );
}

#[test]
fn a_fault_says_where(rt: HostRuntime) -> Result<(), Fail> {
    let fault = Fault {
        refusal: Refusal::Inconsistent {
            section: 1,
            side: Side::Forward,
        },
        layer: Layer::Search,
    };
    assert_eq!(rt; fault.number(), 7);
    assert_eq!(rt; fault.place(), 1);
    assert_eq!(rt; fault.layer, Layer::Search);
    assert_eq!(rt; Side::Forward.number(), 1);
    assert_eq!(rt; Side::Backward.number(), 2);
    assert!(rt; fault.to_string(rt.alloc())?.as_str() == "refused 7 1");
    Ok(())
}

/// Number, place and layer of a fault.
fn parts(fault: Fault) -> (u8, usize, Layer) {
    (fault.number(), fault.place(), fault.layer)
}

#[test]
fn faults_of_the_network_layer(rt: HostRuntime) {
    let network = Layer::Network;
    assert_eq!(rt; parts(out_of_range(0)), (12, 0, network));
    assert_eq!(rt; parts(out_of_range(1)), (12, 1, network));
    assert_eq!(rt; parts(out_of_range(5)), (12, 5, network));
    assert_eq!(rt;
        parts(network.fault(Refusal::ShutInFull { kept: 64 })),
        (13, 64, network)
    );
    assert_eq!(rt;
        parts(network.fault(Refusal::NoSuchSection { number: 8 })),
        (14, 8, network)
    );
    assert_eq!(rt;
        parts(network.fault(Refusal::NoSuchSection { number: 158 })),
        (14, 158, network)
    );
}
