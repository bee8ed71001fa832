// Rows, lengths and starts of all six packings, at three lines and at widths about the group and row boundaries.
use anypacking::packings::AnyPacking;
use layout::interface::{Layout, Shaped};
use samples::component::Component;
use samples::fault::Fault;
use samples::shape::Chroma;
use samples::site::Site;
use std::process::Abort;
use std::test::Fail;

const HEIGHT: u32 = 3;

// What is known of a packing at a width: the bytes of a row and of an image, and where the first site and the last one of Y', Cb and Cr start.
struct Row {
    width: u32,
    row: u32,
    length: u32,
    luma: (u32, u32),
    cb: (u32, u32),
    cr: (u32, u32),
}

#[rattlefmt::skip]
static TWO_VUY: [Row; 6] = [
    Row { width: 2, row: 4, length: 12, luma: (8, 88), cb: (0, 64), cr: (16, 80) },
    Row { width: 6, row: 12, length: 36, luma: (8, 280), cb: (0, 256), cr: (16, 272) },
    Row { width: 8, row: 16, length: 48, luma: (8, 376), cb: (0, 352), cr: (16, 368) },
    Row { width: 46, row: 92, length: 276, luma: (8, 2200), cb: (0, 2176), cr: (16, 2192) },
    Row { width: 48, row: 96, length: 288, luma: (8, 2296), cb: (0, 2272), cr: (16, 2288) },
    Row { width: 50, row: 100, length: 300, luma: (8, 2392), cb: (0, 2368), cr: (16, 2384) },
];

#[rattlefmt::skip]
static V308: [Row; 6] = [
    Row { width: 2, row: 6, length: 18, luma: (8, 128), cb: (16, 136), cr: (0, 120) },
    Row { width: 6, row: 18, length: 54, luma: (8, 416), cb: (16, 424), cr: (0, 408) },
    Row { width: 8, row: 24, length: 72, luma: (8, 560), cb: (16, 568), cr: (0, 552) },
    Row { width: 46, row: 138, length: 414, luma: (8, 3296), cb: (16, 3304), cr: (0, 3288) },
    Row { width: 48, row: 144, length: 432, luma: (8, 3440), cb: (16, 3448), cr: (0, 3432) },
    Row { width: 50, row: 150, length: 450, luma: (8, 3584), cb: (16, 3592), cr: (0, 3576) },
];

#[rattlefmt::skip]
static V408: [Row; 6] = [
    Row { width: 2, row: 8, length: 24, luma: (8, 168), cb: (0, 160), cr: (16, 176) },
    Row { width: 6, row: 24, length: 72, luma: (8, 552), cb: (0, 544), cr: (16, 560) },
    Row { width: 8, row: 32, length: 96, luma: (8, 744), cb: (0, 736), cr: (16, 752) },
    Row { width: 46, row: 184, length: 552, luma: (8, 4392), cb: (0, 4384), cr: (16, 4400) },
    Row { width: 48, row: 192, length: 576, luma: (8, 4584), cb: (0, 4576), cr: (16, 4592) },
    Row { width: 50, row: 200, length: 600, luma: (8, 4776), cb: (0, 4768), cr: (16, 4784) },
];

#[rattlefmt::skip]
static V216_AT_10: [Row; 6] = [
    Row { width: 2, row: 8, length: 24, luma: (22, 182), cb: (6, 134), cr: (38, 166) },
    Row { width: 6, row: 24, length: 72, luma: (22, 566), cb: (6, 518), cr: (38, 550) },
    Row { width: 8, row: 32, length: 96, luma: (22, 758), cb: (6, 710), cr: (38, 742) },
    Row { width: 46, row: 184, length: 552, luma: (22, 4406), cb: (6, 4358), cr: (38, 4390) },
    Row { width: 48, row: 192, length: 576, luma: (22, 4598), cb: (6, 4550), cr: (38, 4582) },
    Row { width: 50, row: 200, length: 600, luma: (22, 4790), cb: (6, 4742), cr: (38, 4774) },
];

#[rattlefmt::skip]
static V216_AT_16: [Row; 6] = [
    Row { width: 2, row: 8, length: 24, luma: (16, 176), cb: (0, 128), cr: (32, 160) },
    Row { width: 6, row: 24, length: 72, luma: (16, 560), cb: (0, 512), cr: (32, 544) },
    Row { width: 8, row: 32, length: 96, luma: (16, 752), cb: (0, 704), cr: (32, 736) },
    Row { width: 46, row: 184, length: 552, luma: (16, 4400), cb: (0, 4352), cr: (32, 4384) },
    Row { width: 48, row: 192, length: 576, luma: (16, 4592), cb: (0, 4544), cr: (32, 4576) },
    Row { width: 50, row: 200, length: 600, luma: (16, 4784), cb: (0, 4736), cr: (32, 4768) },
];

#[rattlefmt::skip]
static V410: [Row; 6] = [
    Row { width: 2, row: 8, length: 24, luma: (12, 172), cb: (2, 162), cr: (22, 182) },
    Row { width: 6, row: 24, length: 72, luma: (12, 556), cb: (2, 546), cr: (22, 566) },
    Row { width: 8, row: 32, length: 96, luma: (12, 748), cb: (2, 738), cr: (22, 758) },
    Row { width: 46, row: 184, length: 552, luma: (12, 4396), cb: (2, 4386), cr: (22, 4406) },
    Row { width: 48, row: 192, length: 576, luma: (12, 4588), cb: (2, 4578), cr: (22, 4598) },
    Row { width: 50, row: 200, length: 600, luma: (12, 4780), cb: (2, 4770), cr: (22, 4790) },
];

#[rattlefmt::skip]
static V210: [Row; 6] = [
    Row { width: 2, row: 128, length: 384, luma: (10, 2080), cb: (0, 2048), cr: (20, 2068) },
    Row { width: 6, row: 128, length: 384, luma: (10, 2164), cb: (0, 2132), cr: (20, 2154) },
    Row { width: 8, row: 128, length: 384, luma: (10, 2208), cb: (0, 2176), cr: (20, 2196) },
    Row { width: 46, row: 128, length: 384, luma: (10, 3018), cb: (0, 2986), cr: (20, 3008) },
    Row { width: 48, row: 128, length: 384, luma: (10, 3060), cb: (0, 3028), cr: (20, 3050) },
    Row { width: 50, row: 256, length: 768, luma: (10, 5152), cb: (0, 5120), cr: (20, 5140) },
];

// A of v408 by the width: where the first site and the last one start.
static V408_ALPHA: [(u32, (u32, u32)); 6] = [
    (2, (24, 184)),
    (6, (24, 568)),
    (8, (24, 760)),
    (46, (24, 4408)),
    (48, (24, 4600)),
    (50, (24, 4792)),
];

// A refusal by its number.
fn number(said: Result<u32, Fault>) -> Result<u32, u8> {
    said.map_err(|fault| fault.number())
}

// Where the first site of a component that has `columns` columns and the last one start, and that it has none past them.
fn ends(
    rt: &impl Abort,
    packing: &AnyPacking,
    component: Component,
    columns: u32,
    (first, last): (u32, u32),
) -> Result<(), Fail> {
    let last_site = Site::at(component, columns.saturating_sub(1), HEIGHT - 1);
    assert_eq!(rt; packing.locate(Site::at(component, 0, 0)), Ok(first));
    assert_eq!(rt; packing.locate(last_site), Ok(last));
    assert_eq!(rt;
        number(packing.locate(Site::at(component, columns, 0))),
        Err(12)
    );
    assert_eq!(rt;
        number(packing.locate(Site::at(component, 0, HEIGHT))),
        Err(12)
    );
    Ok(())
}

fn agrees(
    rt: &impl Abort,
    letters: &str,
    bits: u32,
    chroma: Chroma,
    table: &[Row; 6],
) -> Result<(), Fail> {
    for row in table.iter() {
        let packing = AnyPacking::named(letters, row.width, HEIGHT, bits)?;
        assert_eq!(rt; packing.row_bytes(), row.row);
        assert_eq!(rt; packing.length(), row.length);
        assert_eq!(rt; packing.shape().chroma, chroma);
        let columns = match chroma {
            Chroma::Half => row.width / 2,
            Chroma::Full => row.width,
        };
        ends(rt, &packing, Component::Luma, row.width, row.luma)?;
        ends(rt, &packing, Component::Cb, columns, row.cb)?;
        ends(rt, &packing, Component::Cr, columns, row.cr)?;
    }
    Ok(())
}

#[test]
fn half_chroma(rt: HostRuntime) -> Result<(), Fail> {
    agrees(&rt, "2vuy", 8, Chroma::Half, &TWO_VUY)?;
    agrees(&rt, "v216", 10, Chroma::Half, &V216_AT_10)?;
    agrees(&rt, "v216", 16, Chroma::Half, &V216_AT_16)?;
    agrees(&rt, "v210", 10, Chroma::Half, &V210)
}

#[test]
fn full_chroma(rt: HostRuntime) -> Result<(), Fail> {
    agrees(&rt, "v308", 8, Chroma::Full, &V308)?;
    agrees(&rt, "v408", 8, Chroma::Full, &V408)?;
    agrees(&rt, "v410", 10, Chroma::Full, &V410)
}

#[test]
fn alpha(rt: HostRuntime) -> Result<(), Fail> {
    for (width, starts) in V408_ALPHA {
        let packing = AnyPacking::named("v408", width, HEIGHT, 8)?;
        ends(&rt, &packing, Component::Alpha, width, starts)?;
    }
    let packing = AnyPacking::named("v410", 2, 1, 10)?;
    assert_eq!(rt;
        number(packing.locate(Site::at(Component::Alpha, 0, 0))),
        Err(12)
    );
    Ok(())
}
