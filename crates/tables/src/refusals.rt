// Refusals, and which of two causes comes first.
use anypacking::packings::AnyPacking;
use layout::interface::Layout;
use samples::fault::{Fault, Rule};
use samples::lines::PictureLine;
use std::test::Fail;

// Number, layer, place and letters of a fault.
fn told(fault: Fault) -> (u8, u8, u32, u32) {
    (
        fault.number(),
        fault.layer(),
        fault.place(),
        fault.letters(),
    )
}

// The number and the layer of each rule, as the rules give them.
#[test]
fn the_numbers_of_rules(rt: HostRuntime) -> Result<(), Fail> {
    for (rule, number, layer) in [
        (Rule::UnknownType, 2, 3),
        (Rule::Size, 4, 3),
        (Rule::Content, 9, 2),
        (Rule::ImageLength, 11, 1),
        (Rule::NoSite, 12, 2),
        (Rule::CodeCount, 13, 2),
        (Rule::CodeNotAdmitted, 15, 2),
        (Rule::EveryLineCome, 31, 3),
        (Rule::LineNotCome, 32, 3),
    ] {
        let fault = Fault::of(rule, 725);
        assert_eq!(rt; fault.number(), number);
        assert_eq!(rt; fault.layer(), layer);
        assert_eq!(rt; fault.place(), 725);
        assert_eq!(rt; fault.letters(), 0);
    }
    Ok(())
}

#[test]
fn making_a_packing(rt: HostRuntime) -> Result<(), Fail> {
    for (letters, width, height, bits, number, layer) in [
        ("v211", 3, 0, 9, 2, 3),
        ("V210", 720, 486, 10, 2, 3),
        ("v210", 721, 486, 9, 4, 3),
        ("v210", 0, 486, 10, 4, 3),
        ("v210", 4098, 486, 10, 4, 3),
        ("v210", 720, 0, 10, 4, 3),
        ("v210", 720, 2305, 10, 4, 3),
        ("v210", 720, 486, 8, 9, 2),
        ("v216", 720, 486, 11, 9, 2),
        ("v216", 720, 486, 8, 9, 2),
        ("2vuy", 720, 486, 10, 9, 2),
        ("v308", 720, 486, 10, 9, 2),
        ("v408", 720, 486, 10, 9, 2),
        ("v410", 720, 486, 8, 9, 2),
    ] {
        let refused = AnyPacking::named(letters, width, height, bits).err();
        assert_eq!(rt; refused.map(told), Some((number, layer, 0, 0)));
    }
    Ok(())
}

#[test]
fn the_largest_packing(rt: HostRuntime) -> Result<(), Fail> {
    let packing = AnyPacking::named("v216", 4096, 2304, 16)?;
    assert_eq!(rt; packing.length(), 37748736);
    Ok(())
}

// Wrong length, line and count in one call: 11; line and count: 12; count alone: 13. Nothing is written.
#[test]
fn reading_and_writing_a_line(rt: HostRuntime) -> Result<(), Fail> {
    let packing = AnyPacking::named("2vuy", 2, 2, 8)?;
    let mut short = [7u8; 7];
    let mut image = [7u8; 8];
    let mut codes = [9u16; 3];
    let wrong_length = Err((11, 1, 0, 0));
    let no_line = Err((12, 2, 0, 0));
    let wrong_count = Err((13, 2, 0, 0));
    let past = PictureLine(2);
    let last = PictureLine(1);
    assert_eq!(rt; packing.wipe(&mut short).map_err(told), wrong_length);
    assert_eq!(rt;
        packing.write_line(&mut short, past, &codes).map_err(told),
        wrong_length
    );
    assert_eq!(rt;
        packing.write_line(&mut image, past, &codes).map_err(told),
        no_line
    );
    assert_eq!(rt;
        packing.write_line(&mut image, last, &codes).map_err(told),
        wrong_count
    );
    assert_eq!(rt;
        packing.read_line(&short, past, &mut codes).map_err(told),
        wrong_length
    );
    assert_eq!(rt;
        packing.read_line(&image, past, &mut codes).map_err(told),
        no_line
    );
    assert_eq!(rt;
        packing.read_line(&image, last, &mut codes).map_err(told),
        wrong_count
    );
    assert_eq!(rt; short, [7; 7]);
    assert_eq!(rt; image, [7; 8]);
    assert_eq!(rt; codes, [9; 3]);
    Ok(())
}
